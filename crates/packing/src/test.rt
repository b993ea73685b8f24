// The tests of pack, in their order.
ghost use Rattle.std.specs.Prelude.{◌≡◌, ℕ, ◌^◌, ◌<◌, ◌≤◌, not, length, IfOk, None, Ok, Result};
ghost use Rattle.std.specs.List.{position_from};
ghost use Rattle.refusal.specs.Values.{Values, told};
ghost use Rattle.isa.specs.Form.{well_formed};
ghost use Rattle.module.specs.First.{first_failing};
ghost use Rattle.module.specs.Layout.{unless_wrong};
ghost use Rattle.std.specs.Result.{result_and};
ghost use Rattle.packing.specs.Pack.{entry_right, first_malformed, unless_malformed, size, if_counted};
ghost use Rattle.packing.specs.Packed.{nth_row, total};
ghost use Rattle.packing.specs.Tested.{EntriesRight, RowsRight};

use crate::parts::Parts;
use isa::decode::decode;
use isa::row::Row;
use module::entry::Entry;
use module::limits;
use refusal::{Place, Refusal};

// Parts whose entries are right and count the rows.
#[derive(Clone, Copy)]
pub(crate) struct Counted<'a> {
    pub(crate) parts: Parts<'a>,
    ghost entries: { EntriesRight parts.entries.now parts.rows.now parts.image.now },
}

// Parts that passed all tests.
#[derive(Clone, Copy)]
pub(crate) struct Tested<'a> {
    pub(crate) counted: Counted<'a>,
    ghost rows: { RowsRight counted.parts.rows.now },
}

// The number of instructions in all routines, if every entry is right.
// As in module's open, which also tests offsets: a function for both would take closures, and be no plainer than two loops.
fn sum_entries(entries: &[Entry]) -> Result<usize, Refusal>
    requires { length entries.now ≤ 64 }
    ensures verdict { told result ≡ unless_wrong (first_failing (entry_right entries.now) (length entries.now) 0) (Ok (total entries.now)) }
    ensures short { IfOk result (λ t. t ≤ 4096) }
{
    let mut sum = 0;
    for (routine, entry) in entries.iter().enumerate() {
        if !entry.is_right(routine, sum) {
            return Err(Refusal::Entry(routine as u16));
        }
        sum += usize::from(entry.count);
    }
    Ok(sum)
}

fn is_formed(row: Row) -> bool
    ensures formed { result ≡ well_formed row }
    ensures word { row.n < 2 ^ 32 }
{
    decode(row).is_some()
}

// The first of some rows that is not well formed.
fn malformed_in(rows: &[Row]) -> Option<usize>
    ensures first { result ≡ position_from (λ row. not (well_formed row)) 0 rows.now }
    ensures words { result ≡ None → (k : ℕ) → k < length rows.now → (nth_row rows.now k).n < 2 ^ 32 }
{
    rows.iter().position(|row| !is_formed(*row))
}

impl<'a> Parts<'a> {
    // The tests of the counts, of the entries and of the number of rows.
    pub(crate) fn counted(self) -> Result<Counted<'a>, Refusal>
        ensures verdict { (rest : Result ℕ Values) → result_and (told result) rest ≡ if_counted self.entry.entries.now self.entry.rows.now self.entry.image.now rest }
        ensures same { IfOk result (λ c. c.parts ≡ self.entry) }
    {
        let Parts {
            entries,
            rows,
            image,
        } = self;
        if !limits::admit(entries.len(), image.len()) {
            return Err(Refusal::Counts);
        }
        let total = sum_entries(entries)?;
        if rows.len() != total {
            return Err(Refusal::Entry((entries.len() - 1) as u16));
        }
        Ok(Counted { parts: self })
    }
}

impl<'a> Counted<'a> {
    // The length of the module.
    pub(crate) fn size(&self) -> usize
        ensures { result ≡ size self.now.parts.entries.now self.now.parts.image.now }
    {
        let Parts {
            entries,
            rows,
            image,
        } = self.parts;
        4 + 8 * entries.len() + 8 * rows.len() + image.len()
    }

    // The first place whose row is not well formed.
    // As in module's breach: a function over closures for both was tried, and needs four requires where each has none or two.
    fn first_malformed(&self) -> Option<Place>
        ensures first { result ≡ first_malformed self.now.parts.entries.now self.now.parts.rows.now }
        ensures words { result ≡ None → (k : ℕ) → k < length self.now.parts.rows.now → (nth_row self.now.parts.rows.now k).n < 2 ^ 32 }
    {
        let mut rest = self.parts.rows;
        let entries = self.parts.entries;
        for (routine, entry) in entries.iter().enumerate() {
            let (body, later) = rest.split_at(usize::from(entry.count));
            if let Some(i) = malformed_in(body) {
                return Some(Place {
                    routine: routine as u16,
                    instruction: i as u16,
                });
            }
            rest = later;
        }
        None
    }

    // The test of the rows.
    pub(crate) fn tested(self) -> Result<Tested<'a>, Refusal>
        ensures verdict { (rest : Result ℕ Values) → result_and (told result) rest ≡ unless_malformed (first_malformed self.entry.parts.entries.now self.entry.parts.rows.now) rest }
        ensures same { IfOk result (λ t. t.counted ≡ self.entry) }
    {
        if let Some(place) = self.first_malformed() {
            return Err(Refusal::Form(place));
        }
        Ok(Tested { counted: self })
    }
}
