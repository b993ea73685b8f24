ghost use Rattle.std.specs.Prelude.{◌≡◌, length, is_ok};
ghost use Rattle.refusal.specs.Values.{told};
ghost use Rattle.module.specs.Contents.{entries as entries_of, rows as rows_of};
ghost use Rattle.module.specs.Told.{bytes_of};
ghost use Rattle.packing.specs.Unpack.{repacking};
ghost use Rattle.packing.specs.Written.{written_if};

use crate::pack::pack;
use crate::parts::Parts;
use crate::unpack::unpack;
use isa::row::Row;
use module::checked::Checked;
use module::entry::Entry;
use refusal::Refusal;

/// Takes a checked module apart into the caller's entries and rows, puts it together again, and answers its length: the output
/// then begins with the module's own bytes. Too few entries, rows or bytes are refused, and nothing is written then.
pub fn repack(
    checked: &Checked<'_>,
    entries: &mut [Entry],
    rows: &mut [Row],
    output: &mut [u8],
) -> Result<usize, Refusal>
    ensures verdict { told result ≡ repacking (bytes_of checked.now.opened) (length entries.old) (length rows.old) (length output.old) }
    ensures entries { entries.new ≡ written_if (is_ok result) (entries_of (bytes_of checked.now.opened)) entries.old }
    ensures rows { rows.new ≡ written_if (is_ok result) (rows_of (bytes_of checked.now.opened)) rows.old }
    ensures output { output.new ≡ written_if (is_ok result) (bytes_of checked.now.opened) output.old }
{
    // Before unpack writes: it tests the room for entries and rows alone.
    if output.len() < checked.bytes().len() {
        return Err(Refusal::Room);
    }
    let (routines, total) = unpack(checked, entries, rows)?;
    let parts = Parts {
        entries: &entries[0..routines],
        rows: &rows[0..total],
        image: checked.image(),
    };
    pack(parts, output)
}
