// What a drive is asked. A question changes nothing: the drive is not lent for writing.
ghost use Rattle.std.specs.Prelude.{◌≡◌, ◌≤◌, List, length, slice_get};
ghost use Rattle.std.specs.Result.{result_map_both};
ghost use Rattle.host.specs.declared.port.Port.{Port};
ghost use Rattle.refusal.specs.Values.{values_of, told};
ghost use Rattle.faults.specs.Faults.{values_of as fault_values};
ghost use Rattle.faults.specs.Lists.{most_faults, MarkedFirst};
ghost use Rattle.machine.specs.Shown.{register_at, byte_at};
ghost use Rattle.machine.specs.Fuel.{TickRule};
ghost use Rattle.machine.specs.Parts.{phase_of};
ghost use Rattle.drive.specs.Questions.{asked, place_in, depth_in};
ghost use Rattle.drive.specs.Law.{Sound};
ghost use Rattle.drive.specs.View.{module_of, world_in, faults_in};

use crate::drive::Drive;
use faults::fault::Fault;
use machine::machine::State;
use refusal::{Place, Refusal};

impl Drive<'_> {
    /// Whether it runs, has ended, or has tripped. Over any host, and whatever was done to it, a drive is never stuck.
    pub fn state(&self) -> State
        ensures phase { (ports : List Port) → phase_of result ≡ (world_in self.now ports).phase }
        ensures sound { (rule : TickRule) (ports : List Port) → Sound (module_of self.now) rule (world_in self.now ports) }
    {
        self.machine.state
    }

    /// Where the running routine stands. After the end there is no place.
    pub fn place(&self) -> Result<Place, Refusal>
        ensures { (ports : List Port) → told result ≡ asked (place_in (world_in self.now ports).levels) }
    {
        let running = self.machine.running().ok_or(Refusal::Absent)?;
        // Both numbers fit: what is as the check foretold stands inside its routine.
        Ok(Place {
            routine: running.routine() as u16,
            instruction: running.pc() as u16,
        })
    }

    /// How many registers the running routine has. After the end there are none.
    pub fn depth(&self) -> usize
        ensures { (ports : List Port) → result ≡ depth_in (world_in self.now ports).levels }
    {
        self.machine.running().map_or(0, |running| running.depth())
    }

    /// The value of register k of the running routine.
    pub fn register(&self, k: usize) -> Result<u32, Refusal>
        ensures { (ports : List Port) → told result ≡ asked (register_at (world_in self.now ports).levels k) }
    {
        self.machine.register(k).ok_or(Refusal::Absent)
    }

    /// Byte i of memory.
    pub fn byte(&self, i: usize) -> Result<u8, Refusal>
        ensures { (ports : List Port) → told result ≡ asked (byte_at (world_in self.now ports).memory i) }
    {
        self.machine.byte(i).ok_or(Refusal::Absent)
    }

    /// How many faults there are.
    pub fn fault_count(&self) -> usize
        ensures count { result ≡ length (faults_in self.now) }
        ensures few { result ≤ most_faults }
        ensures sorted { MarkedFirst (faults_in self.now) }
    {
        self.faults.len()
    }

    /// Fault i, the oldest at 0.
    pub fn fault(&self, i: usize) -> Result<Fault, Refusal>
        ensures { result_map_both fault_values values_of result ≡ asked (slice_get (faults_in self.now) i) }
    {
        self.faults.get(i).ok_or(Refusal::Absent)
    }
}
