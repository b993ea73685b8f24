ghost use Rattle.std.specs.Prelude.{◌≡◌};
ghost use Rattle.faults.specs.Faults.{values_of};

use crate::cause::Cause;
use refusal::Place;

/// A trip that is kept: its cause, its place, and whether a power cycle has passed since.
#[derive(Clone, Copy, PartialEq, Eq, Debug)]
pub struct Fault {
    pub cause: Cause,
    pub place: Place,
    pub marked: bool,
}

impl Fault {
    /// 1 if it is marked, and 0 if not.
    pub fn mark(self) -> u8
        ensures { result ≡ (values_of self).mark }
    {
        u8::from(self.marked)
    }
}
