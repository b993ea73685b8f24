ghost use Rattle.std.specs.Prelude.{◌≡◌, length, take, IfOk};
ghost use Rattle.refusal.specs.Values.{told};
ghost use Rattle.module.specs.Contents.{entries as entries_of, rows as rows_of, image as image_of};
ghost use Rattle.module.specs.Layout.{routines, total};
ghost use Rattle.module.specs.Told.{bytes_of, bytes_read};
ghost use Rattle.packing.specs.Trips.{PacksTo};
ghost use Rattle.packing.specs.Unpack.{unpacking, entries_after, rows_after};

use isa::row::Row;
use module::checked::Checked;
use module::contents::Contents;
use module::entry::Entry;
use module::opened::Counts;
use refusal::Refusal;

fn write_entries(contents: Contents<'_>, entries: &mut [Entry])
    requires { length entries.old ≡ routines (bytes_read contents) }
    ensures { entries.new ≡ entries_of (bytes_read contents.entry) }
{
    for (r, entry) in entries.iter_mut().enumerate() {
        if let Some(own) = contents.entry(r) {
            *entry = own;
        }
    }
}

fn write_rows(contents: Contents<'_>, rows: &mut [Row])
    requires { length rows.old ≡ total (bytes_read contents) }
    ensures { rows.new ≡ rows_of (bytes_read contents.entry) }
{
    for (k, row) in rows.iter_mut().enumerate() {
        if let Some(own) = contents.row(k) {
            *row = own;
        }
    }
}

// The entries and rows that are lent stay two: of a struct that lent both, the caller would not know from the contract
// what each holds afterwards.

/// Takes a checked module apart into the caller's entries and rows, and answers how many there are of each. Too few of either
/// are refused, and nothing is written then. What is written packs to the module's own bytes.
pub fn unpack(
    checked: &Checked<'_>,
    entries: &mut [Entry],
    rows: &mut [Row],
) -> Result<(usize, usize), Refusal>
    ensures verdict { told result ≡ unpacking (bytes_of checked.now.opened) (length entries.old) (length rows.old) }
    ensures entries { entries.new ≡ entries_after (bytes_of checked.now.opened) entries.old rows.old }
    ensures rows { rows.new ≡ rows_after (bytes_of checked.now.opened) entries.old rows.old }
    ensures packs { let bs = bytes_of checked.now.opened in IfOk result (λ sizes. PacksTo bs (take sizes.0 entries.new) (take sizes.1 rows.new) (image_of bs)) }
{
    let Counts {
        routines,
        total,
        ..
    } = checked.counts();
    // A test and ranges, as in check.
    if entries.len() < routines || rows.len() < total {
        return Err(Refusal::Room);
    }
    let contents = checked.contents();
    write_entries(contents, &mut entries[0..routines]);
    write_rows(contents, &mut rows[0..total]);
    Ok((routines, total))
}
