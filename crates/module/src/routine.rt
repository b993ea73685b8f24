// One routine of an opened module.
ghost use Rattle.std.specs.Prelude.{◌≡◌, ◌<◌};
ghost use Rattle.module.specs.Layout.{entry_of, offset};

use crate::contents::{entry_of, offset_of, row_from};
use crate::entry::Entry;
use crate::opened::Opened;
use isa::access::Signature;
use isa::decode::decode;
use isa::instr::Instr;
use isa::row::Row;

// The module, which of its routines it is, what its entry says, and where its body begins.
#[derive(Clone, Copy)]
pub(crate) struct Routine<'a> {
    pub(crate) module: &'a Opened<'a>,
    pub(crate) index: usize,
    pub(crate) head: Entry,
    at: usize,
    ghost there: { index < module.now.counts.routines },
    ghost headed: { head ≡ entry_of module.now.bytes.now index },
    ghost placed: { at ≡ offset module.now.bytes.now index },
}

impl Opened<'_> {
    ghost use Rattle.module.specs.Told.{bytes_in, bytes_of};

    // A routine of the module.
    pub(crate) fn routine(&self, index: usize) -> Routine<'_>
        requires { index < self.now.counts.routines }
        ensures bytes { bytes_in result ≡ bytes_of self.now }
        ensures index { result.index ≡ index }
    {
        Routine {
            module: self,
            index,
            head: entry_of(self.bytes, index),
            at: offset_of(self.bytes, index),
        }
    }
}

impl Routine<'_> {
    ghost use Rattle.module.specs.Layout.{count, signature, row_at, instr};
    ghost use Rattle.module.specs.Places.{instr_at};
    ghost use Rattle.module.specs.Told.{bytes_in};

    // How many instructions it has.
    pub(crate) fn count(&self) -> usize
        ensures { result ≡ count (bytes_in self.now) self.now.index }
    {
        usize::from(self.head.count)
    }

    // What it takes and gives.
    pub(crate) fn signature(&self) -> Signature
        ensures { result ≡ signature (bytes_in self.now) self.now.index }
    {
        self.head.signature()
    }

    // An instruction as it stands in the body.
    fn row(&self, instruction: usize) -> Row
        requires { instruction < count (bytes_in self.now) self.now.index }
        ensures { result ≡ row_at (bytes_in self.now) self.now.index instruction }
    {
        row_from(self.module.bytes, self.at + 8 * instruction)
    }

    // An instruction, if there is one at this place and its row is well formed.
    #[inline(always)]
    pub(crate) fn instr(&self, instruction: usize) -> Option<Instr>
        ensures anywhere { result ≡ instr_at (bytes_in self.now) self.now.index instruction }
        ensures inside { instruction < count (bytes_in self.now) self.now.index → result ≡ instr (bytes_in self.now) self.now.index instruction }
    {
        if instruction >= self.count() {
            return None;
        }
        decode(self.row(instruction))
    }
}
