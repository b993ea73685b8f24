// What a checked module has at a place, and its image.
ghost use Rattle.std.specs.Prelude.{◌≡◌, ◌≤◌, MatchOption};
ghost use Rattle.module.specs.Contents.{image};
ghost use Rattle.module.specs.Layout.{routines};
ghost use Rattle.module.specs.Places.{instr_at, signature_at};
ghost use Rattle.module.specs.Told.{bytes_in, bytes_of};

use crate::checked::Checked;
use crate::opened::Counts;
use crate::routine::Routine;
use isa::access::Signature;
use isa::instr::Instr;

impl<'a> Checked<'a> {
    fn routine(&self, index: usize) -> Option<Routine<'_>>
        ensures { MatchOption result (routines (bytes_of self.now.opened) ≤ index) (λ t. (bytes_in t ≡ bytes_of self.now.opened) × (t.index ≡ index)) }
    {
        if index < self.opened.counts.routines {
            Some(self.opened.routine(index))
        } else {
            None
        }
    }

    /// An instruction of a routine, if there is one at this place.
    #[inline(always)]
    pub fn instruction(&self, routine: usize, instruction: usize) -> Option<Instr>
        ensures { result ≡ instr_at (bytes_of self.now.opened) routine instruction }
    {
        self.body(routine)?.instruction(instruction)
    }

    /// What a routine takes and gives, if there is such a routine.
    pub fn signature(&self, routine: usize) -> Option<Signature>
        ensures { result ≡ signature_at (bytes_of self.now.opened) routine }
    {
        Some(self.routine(routine)?.signature())
    }

    /// The image, a part of the caller's own bytes.
    pub fn image(&self) -> &'a [u8]
        ensures { result.now ≡ image (bytes_of self.now.opened) }
    {
        let Counts {
            routines,
            total,
            ..
        } = self.opened.counts;
        &self.opened.bytes[4 + 8 * routines + 8 * total..]
    }
}
