ghost use Rattle.std.specs.Prelude.{◌≡◌, ◌<◌, Some};
ghost use Rattle.module.specs.Layout.{routines, count};
ghost use Rattle.module.specs.Places.{instr_at};
ghost use Rattle.module.specs.Told.{bytes_behind, routine_of};

use crate::body::Body;
use crate::contents::{RowAt, offset_of};
use isa::decode::instruction;
use isa::instr::Instr;

/// An instruction that there is: a body, and which of its instructions. Whoever makes one shows that it is there, so that to read it
/// takes no test.
#[derive(Clone, Copy)]
pub struct Site<'a> {
    pub body: Body<'a>,
    pub index: usize,
    ghost there: { index < count (bytes_behind body) (routine_of body) },
}

impl Site<'_> {
    /// The instruction.
    #[inline(always)]
    pub fn instruction(self) -> Instr
        ensures { instr_at (bytes_behind self.entry.body) (routine_of self.entry.body) self.entry.index ≡ Some result }
    {
        let Site { body, index } = self;
        instruction(&RowAt::new(body.bytes, body.at + 8 * index))
    }
}

/// A routine that there is: the body of a routine, and which routine of the same module. Whoever makes one shows that it is there, so
/// that to find its body takes no test.
#[derive(Clone, Copy)]
pub struct Sibling<'a> {
    pub body: Body<'a>,
    pub routine: usize,
    ghost there: { routine < routines (bytes_behind body) },
}

impl<'a> Sibling<'a> {
    /// Its body.
    #[inline(always)]
    pub fn body(self) -> Body<'a>
        ensures bytes { bytes_behind result ≡ bytes_behind self.entry.body }
        ensures routine { routine_of result ≡ self.entry.routine }
    {
        let bytes = self.body.bytes;
        Body {
            bytes,
            routine: self.routine,
            at: offset_of(bytes, self.routine),
        }
    }
}
