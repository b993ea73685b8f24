//! The entries and rows of a module's bytes.

ghost use Rattle.std.specs.Prelude.{◌≡◌, ◌+◌, ◌*◌, ◌^◌, ◌<◌, ◌≤◌, length, Ok};
ghost use Rattle.module.specs.Bytes.{byte};
ghost use Rattle.module.specs.Layout.{opening, offset, entry_of, row_from};

use crate::bytes::{read_four, read_two};
use crate::checked::Checked;
use crate::entry::Entry;
use crate::opened::Counts;
use isa::decode::Fields;
use isa::row::Row;

// Where the body of a routine begins.
pub(crate) fn offset_of(bytes: &[u8], routine: usize) -> usize
    requires { 12 + 8 * routine ≤ length bytes.now }
    ensures value { result ≡ offset bytes.now routine }
    ensures small { result < 2 ^ 32 }
{
    read_four(bytes, 4 + 8 * routine) as usize
}

// The entry of a routine, without its offset.
pub(crate) fn entry_of(bytes: &[u8], routine: usize) -> Entry
    requires { 12 + 8 * routine ≤ length bytes.now }
    ensures { result ≡ entry_of bytes.now routine }
{
    Entry {
        count: read_two(bytes, 8 + 8 * routine),
        arguments: bytes[10 + 8 * routine],
        results: bytes[11 + 8 * routine],
    }
}

// The row that begins at a byte.
pub(crate) fn row_from(bytes: &[u8], at: usize) -> Row
    requires { at + 8 ≤ length bytes.now }
    ensures { result ≡ row_from bytes.now at }
{
    Row {
        op: bytes[at],
        a: bytes[at + 1],
        b: bytes[at + 2],
        c: bytes[at + 3],
        n: read_four(bytes, at + 4),
    }
}

// The row that begins at a byte. Its first fields are read at once: they say which registers an instruction takes, and what it makes
// of them waits for that. The last one is read when it is asked for, as most instructions have none.
#[derive(Clone, Copy)]
pub(crate) struct RowAt<'a> {
    bytes: &'a [u8],
    at: usize,
    a: u8,
    b: u8,
    c: u8,
    ghost inside: { at + 8 ≤ length bytes.now },
    ghost first: { a ≡ byte bytes.now (at + 1) },
    ghost second: { b ≡ byte bytes.now (at + 2) },
    ghost third: { c ≡ byte bytes.now (at + 3) },
}

impl RowAt<'_> {
    ghost use Rattle.module.specs.Told.{row_of};

    #[inline(always)]
    pub(crate) fn new(bytes: &[u8], at: usize) -> RowAt<'_>
        requires { at + 8 ≤ length bytes.now }
        ensures { row_of result ≡ row_from bytes.now at }
    {
        RowAt {
            bytes,
            at,
            a: bytes[at + 1],
            b: bytes[at + 2],
            c: bytes[at + 3],
        }
    }
}

impl Fields for RowAt<'_> {
    ghost use Rattle.module.specs.Told.{row_of};

    ghost whole = { row_of };

    #[inline(always)]
    fn op(&self) -> u8 {
        self.bytes[self.at]
    }

    #[inline(always)]
    fn a(&self) -> u8 {
        self.a
    }

    #[inline(always)]
    fn b(&self) -> u8 {
        self.b
    }

    #[inline(always)]
    fn c(&self) -> u8 {
        self.c
    }

    #[inline(always)]
    fn n(&self) -> u32 {
        read_four(self.bytes, self.at + 4)
    }
}

/// The entries and rows of a module, to be read one by one; `Checked::contents` alone makes one. It is copied, so that a loop has it at hand and reads
/// nothing but the bytes.
#[derive(Clone, Copy)]
pub struct Contents<'a> {
    bytes: &'a [u8],
    counts: Counts,
    ghost opens: { opening bytes.now ≡ Ok counts },
}

impl<'a> Checked<'a> {
    ghost use Rattle.module.specs.Told.{bytes_of, bytes_read};

    /// Its entries and rows.
    #[inline(always)]
    pub fn contents(&self) -> Contents<'a>
        ensures { bytes_read result ≡ bytes_of self.now.opened }
    {
        Contents {
            bytes: self.opened.bytes,
            counts: self.opened.counts,
        }
    }
}

impl Contents<'_> {
    ghost use Rattle.std.specs.Prelude.{slice_get};
    ghost use Rattle.module.specs.Contents.{entries, rows};
    ghost use Rattle.module.specs.Told.{bytes_read};

    /// The entry of a routine, if there is such a routine.
    #[inline(always)]
    #[tactic(auto, using(crate::proofs::OneByOne::no_entry, crate::proofs::OneByOne::an_entry))]
    pub fn entry(self, routine: usize) -> Option<Entry>
        ensures { result ≡ slice_get (entries (bytes_read self.entry)) routine }
    {
        if routine >= self.counts.routines {
            return None;
        }
        Some(entry_of(self.bytes, routine))
    }

    /// Row k of all, in order of place, if there are more than k.
    #[inline(always)]
    #[tactic(auto, using(crate::proofs::OneByOne::no_row, crate::proofs::OneByOne::a_row))]
    pub fn row(self, k: usize) -> Option<Row>
        ensures { result ≡ slice_get (rows (bytes_read self.entry)) k }
    {
        let Counts {
            routines,
            total,
            ..
        } = self.counts;
        if k >= total {
            return None;
        }
        Some(row_from(self.bytes, 4 + 8 * routines + 8 * k))
    }
}
