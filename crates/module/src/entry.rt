ghost use Rattle.std.specs.Prelude.{◌≡◌};
ghost use Rattle.module.specs.Layout.{right};

use crate::limits;
use isa::access::Signature;

/// The entry of a routine, without its offset.
#[derive(Clone, Copy, PartialEq, Eq, Debug, Default)]
pub struct Entry {
    /// The number of instructions.
    pub count: u16,
    /// What the routine takes.
    pub arguments: u8,
    /// What it gives.
    pub results: u8,
}

impl Entry {
    /// Whether it may be the entry of a routine, after so many instructions in the routines before.
    pub fn is_right(self, routine: usize, before: usize) -> bool
        ensures { result ≡ right self routine before }
    {
        self.count >= 1
            && self.arguments <= limits::ARGUMENTS
            && self.results <= limits::RESULTS
            && (routine != 0 || self.arguments == 0 && self.results == 0)
            && before.saturating_add(usize::from(self.count)) <= limits::INSTRUCTIONS
    }

    // What the routine takes and gives.
    pub(crate) fn signature(self) -> Signature
        ensures arguments { result.arguments ≡ self.arguments }
        ensures results { result.results ≡ self.results }
    {
        Signature {
            arguments: self.arguments,
            results: self.results,
        }
    }
}
