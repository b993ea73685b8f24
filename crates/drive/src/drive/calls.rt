// The calls that may change a drive.
ghost use Rattle.std.specs.Prelude.{◌≡◌, List, Ok, IfOk};
ghost use Rattle.host.specs.declared.port.Port.{Port};
ghost use Rattle.module.specs.Told.{bytes_of};
ghost use Rattle.machine.specs.declared.machine.State.TheVariants.{Running};
ghost use Rattle.machine.specs.Foretold.{begun};
ghost use Rattle.machine.specs.Fuel.{TickRule};
ghost use Rattle.drive.specs.declared.call.Call.TheVariants.{Grant, Restart, PowerCycle};
ghost use Rattle.drive.specs.Calls.{is_fuel};
ghost use Rattle.drive.specs.Law.{New, Granted};
ghost use Rattle.drive.specs.View.{module_of, world_in, faults_in, by_values, Called};

use crate::call::{Answer, Call, MOST_FUEL};
use crate::drive::Drive;
use faults::list::FaultList;
use host::Host;
use host::table::TableHost;
use machine::machine::{Machine, State};
use module::checked::Checked;
use refusal::Refusal;

// Whether so much fuel may be granted.
fn may_grant(fuel: u32) -> bool
    ensures { result ≡ is_fuel fuel }
{
    (1..=MOST_FUEL).contains(&fuel)
}

impl<'a> Drive<'a> {
    /// A new drive of a checked module. It cannot refuse.
    pub fn start(checked: Checked<'a>) -> Drive<'a>
        ensures { New (bytes_of checked.entry.opened) result }
    {
        Drive {
            machine: Machine::begin(checked),
            faults: FaultList::new(),
        }
    }

    // The run begins again, and no step is made; the faults stay.
    fn begin(&mut self) -> (u32, State)
        ensures answer { result ≡ (0, Running) }
        ensures world { (ports : List Port) → world_in self.new ports ≡ begun (module_of self.old) ports }
        ensures faults { faults_in self.new ≡ faults_in self.old }
        ensures bytes { module_of self.new ≡ module_of self.old }
    {
        self.machine.begin_again();
        (0, State::Running)
    }

    /// Makes a call, or refuses it, and then nothing changes.
    pub fn call<H: Host>(&mut self, host: &mut H, call: Call) -> Answer
        ensures called { Called (H.rule (H.base host.old)) call self.old (H.ports host.old) (by_values result) self.new (H.ports host.new) }
        ensures base { H.base host.new ≡ H.base host.old }
    {
        match (self.machine.state, call) {
            (_, Call::Grant { fuel }) if !may_grant(fuel) => Err(Refusal::Fuel),
            (State::Running, Call::Grant { fuel }) => Ok(self.spend(host, fuel)),
            (State::Ended, Call::Grant { .. }) => Err(Refusal::Ended),
            (State::Tripped { .. }, Call::Grant { .. }) => Err(Refusal::Tripped),
            (State::Running, Call::Restart) => Err(Refusal::Running),
            // Two arms: of one pattern with `|` a proof would know nothing of the state.
            (State::Ended, Call::Restart) => Ok(self.begin()),
            (State::Tripped { .. }, Call::Restart) => Ok(self.begin()),
            (_, Call::PowerCycle) => Ok(self.power_cycle(host)),
        }
    }

    /// Steps until the fuel, 1 to 10,000, is used, or the drive stops running.
    pub fn grant<H: Host>(&mut self, host: &mut H, fuel: u32) -> Answer
        ensures called { Called (H.rule (H.base host.old)) (Grant fuel) self.old (H.ports host.old) (by_values result) self.new (H.ports host.new) }
        ensures granted { IfOk (by_values result) (λ said. Granted (H.rule (H.base host.old)) fuel self.old (H.ports host.old) said self.new (H.ports host.new)) }
        ensures base { H.base host.new ≡ H.base host.old }
    {
        self.call(host, Call::Grant { fuel })
    }

    /// Begins the run again, if it has ended or tripped. The faults stay, and no host is touched.
    pub fn restart(&mut self) -> Answer
        ensures { (rule : TickRule) (ports : List Port) → Called rule Restart self.old ports (by_values result) self.new ports }
    {
        // A call wants a host: one without ports does.
        self.call(&mut TableHost::new(&mut []), Call::Restart)
    }

    /// Begins the run again in every state, rests the host, and ages the faults: marked ones go, and the others get their mark.
    pub fn power_cycle<H: Host>(&mut self, host: &mut H) -> (u32, State)
        ensures called { Called (H.rule (H.base host.old)) PowerCycle self.old (H.ports host.old) (by_values (Ok result)) self.new (H.ports host.new) }
        ensures base { H.base host.new ≡ H.base host.old }
    {
        self.faults.cycle();
        host.rest();
        self.begin()
    }
}
