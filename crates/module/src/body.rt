// The bodies of a checked module's routines, where a machine runs.
ghost use Rattle.std.specs.Prelude.{◌≡◌, ◌<◌, ◌≤◌, true, Some, MatchOption};
ghost use Rattle.module.specs.Accepted.{accepted};
ghost use Rattle.module.specs.Layout.{routines, count, offset, signature};
ghost use Rattle.module.specs.Places.{instr_at};

use crate::checked::Checked;
use crate::contents::{entry_of, offset_of};
use crate::site::Site;
use isa::access::Signature;
use isa::instr::Instr;

/// The body of a routine of a checked module: the module's bytes, which of its routines it is, and where its instructions begin.
#[derive(Clone, Copy)]
pub struct Body<'a> {
    pub(crate) bytes: &'a [u8],
    pub(crate) routine: usize,
    pub(crate) at: usize,
    ghost keeps: { accepted bytes.now ≡ true },
    ghost there: { routine < routines bytes.now },
    ghost placed: { at ≡ offset bytes.now routine },
}

impl<'a> Checked<'a> {
    ghost use Rattle.module.specs.Told.{bytes_of, bytes_behind, routine_of};

    /// The body of a routine, if there is such a routine.
    pub fn body(&self, routine: usize) -> Option<Body<'a>>
        ensures { MatchOption result (routines (bytes_of self.now.opened) ≤ routine) (λ t. (bytes_behind t ≡ bytes_of self.now.opened) × (routine_of t ≡ routine)) }
    {
        if routine >= self.opened.counts.routines {
            return None;
        }
        let bytes = self.opened.bytes;
        Some(Body {
            bytes,
            routine,
            at: offset_of(bytes, routine),
        })
    }
}

impl Body<'_> {
    ghost use Rattle.module.specs.Told.{bytes_behind, routine_of};

    // How many instructions it has.
    fn count(self) -> usize
        ensures { result ≡ count (bytes_behind self.entry) (routine_of self.entry) }
    {
        usize::from(entry_of(self.bytes, self.routine).count)
    }

    /// What the routine takes and gives.
    pub fn signature(self) -> Signature
        ensures { result ≡ signature (bytes_behind self.entry) (routine_of self.entry) }
    {
        entry_of(self.bytes, self.routine).signature()
    }

    /// An instruction, if there is one at this place.
    pub fn instruction(self, i: usize) -> Option<Instr>
        ensures { result ≡ instr_at (bytes_behind self.entry) (routine_of self.entry) i }
    {
        if i >= self.count() {
            return None;
        }
        let site = Site {
            body: self,
            index: i,
        };
        Some(site.instruction())
    }
}
