ghost use Rattle.std.specs.Prelude.{◌≡◌, [], ◌∷◌, ◌++◌};
ghost use Rattle.faults.specs.Causes.{trip_of};
ghost use Rattle.faults.specs.Faults.{unmarked};
ghost use Rattle.faults.specs.Lists.{newest, cycled};
ghost use Rattle.faults.specs.Shown.{faults_of};

use crate::cause::Cause;
use crate::fault::Fault;
use crate::list::FaultList;
use crate::table::{FaultTable, MOST_FAULTS};
use refusal::Place;

impl FaultList {
    /// A list of no faults.
    pub fn new() -> FaultList
        ensures { faults_of result ≡ [] }
    {
        FaultList {
            table: FaultTable::new(),
            count: 0,
        }
    }

    /// Adds a fault without a mark. A seventeenth pushes out the oldest.
    pub fn add(&mut self, cause: Cause, place: Place)
        ensures { faults_of self.new ≡ newest (faults_of self.old ++ (unmarked (trip_of cause place) ∷ [])) }
    {
        let fault = Fault {
            cause,
            place,
            marked: false,
        };
        if self.count == MOST_FAULTS {
            self.table.push_out(fault);
            return;
        }
        self.table.put(self.count, fault);
        self.count += 1;
    }

    /// A power cycle: marked faults go, and the others get their mark.
    pub fn cycle(&mut self)
        ensures { faults_of self.new ≡ cycled (faults_of self.old) }
    {
        self.count = self.table.cycle(self.count);
    }
}
