// The steps of a grant.
ghost use Rattle.std.specs.Prelude.{◌≡◌};
ghost use Rattle.machine.specs.declared.machine.State.TheVariants.{Running};
ghost use Rattle.machine.specs.Fuel.{steps, advanced};
ghost use Rattle.machine.specs.Parts.{phase_of};
ghost use Rattle.drive.specs.Calls.{trips_of};
ghost use Rattle.drive.specs.View.{module_of, world_in, faults_in, noted_all};

use crate::drive::Drive;
use host::Host;
use machine::machine::State;

impl Drive<'_> {
    // The trip goes to the faults, if there is one.
    fn note_trip(&mut self)
        ensures faults { faults_in self.new ≡ noted_all (faults_in self.old) (trips_of (phase_of self.old.machine.state)) }
        ensures machine { self.new.machine ≡ self.old.machine }
        ensures bytes { module_of self.new ≡ module_of self.old }
    {
        if let State::Tripped { cause, place } = self.machine.state {
            self.faults.add(cause, place);
        }
    }

    // Steps until the fuel is used or the state leaves running, and answers how many steps it made, and the state after them.
    pub(super) fn spend<H: Host>(&mut self, host: &mut H, fuel: u32) -> (u32, State)
        requires { self.old.machine.state ≡ Running }
        ensures made { result.0 ≡ steps (module_of self.old) (H.rule (H.base host.old)) fuel (world_in self.old (H.ports host.old)) }
        ensures world { world_in self.new (H.ports host.new) ≡ advanced (module_of self.old) (H.rule (H.base host.old)) result.0 (world_in self.old (H.ports host.old)) }
        ensures state { result.1 ≡ self.new.machine.state }
        ensures faults { faults_in self.new ≡ noted_all (faults_in self.old) (trips_of (world_in self.new (H.ports host.new)).phase) }
        ensures bytes { module_of self.new ≡ module_of self.old }
        ensures base { H.base host.new ≡ H.base host.old }
    {
        let made = self.machine.run(host, fuel);
        self.note_trip();
        (made, self.machine.state)
    }
}
