// The bytes of a module, written from the start of the output.
ghost use Rattle.std.specs.Prelude.{◌≡◌, ◌+◌, ◌≤◌, [], ◌∷◌, ◌++◌, length, take, drop, is_ok, OnOk};
ghost use Rattle.refusal.specs.Values.{told};
ghost use Rattle.packing.specs.Pack.{size, if_room};
ghost use Rattle.packing.specs.Packed.{low2, low4, row_bytes, packed};
ghost use Rattle.packing.specs.Shows.{Shows};
ghost use Rattle.packing.specs.Written.{written_if};

use crate::parts::Parts;
use crate::test::Tested;
use isa::row::Row;
use module::entry::Entry;
use refusal::Refusal;

fn row_bytes(row: Row) -> [u8; 8]
    ensures { result ≡ row_bytes row }
{
    let [n0, n1, n2, n3] = row.n.to_le_bytes();
    [row.op, row.a, row.b, row.c, n0, n1, n2, n3]
}

fn entry_bytes(offset: u32, entry: Entry) -> [u8; 8]
    ensures { result ≡ low4 offset ++ (low2 entry.count ++ (entry.arguments ∷ entry.results ∷ [])) }
{
    let [o0, o1, o2, o3] = offset.to_le_bytes();
    let [c0, c1] = entry.count.to_le_bytes();
    [o0, o1, o2, o3, c0, c1, entry.arguments, entry.results]
}

fn header_bytes(routines: u16, image: u16) -> [u8; 4]
    ensures { result ≡ low2 routines ++ low2 image }
{
    let [n0, n1] = routines.to_le_bytes();
    let [d0, d1] = image.to_le_bytes();
    [n0, n1, d0, d1]
}

// Writes bytes from a place on, and answers where they end.
// By places: after a loop over chunks_exact_mut a proof knows nothing of what was written.
fn put(output: &mut [u8], at: usize, bytes: &[u8]) -> usize
    requires { at + length bytes.now ≤ length output.old }
    ensures end { result ≡ at + length bytes.now }
    ensures output { output.new ≡ take at output.old ++ (bytes.now ++ drop (at + length bytes.now) output.old) }
{
    let end = at + bytes.len();
    output[at..end].copy_from_slice(bytes);
    end
}

impl Tested<'_> {
    // Writes the module, if there is room for it.
    pub(crate) fn write(&self, output: &mut [u8]) -> Result<usize, Refusal>
        ensures verdict { let p = self.now.counted.parts in told result ≡ if_room (size p.entries.now p.image.now) (length output.old) }
        ensures output { let p = self.now.counted.parts in output.new ≡ written_if (is_ok result) (packed p.entries.now p.rows.now p.image.now) output.old }
        ensures shows { let p = self.now.counted.parts in OnOk result (Shows (packed p.entries.now p.rows.now p.image.now) p.entries.now p.rows.now p.image.now) }
    {
        let size = self.counted.size();
        if output.len() < size {
            return Err(Refusal::Room);
        }
        let Parts {
            entries,
            rows,
            image,
        } = self.counted.parts;
        let header = header_bytes(entries.len() as u16, image.len() as u16);
        let mut at = put(output, 0, &header);
        let mut offset = 4 + 8 * entries.len();
        for entry in entries {
            at = put(output, at, &entry_bytes(offset as u32, *entry));
            offset += 8 * usize::from(entry.count);
        }
        for row in rows {
            at = put(output, at, &row_bytes(*row));
        }
        put(output, at, image);
        Ok(size)
    }
}
