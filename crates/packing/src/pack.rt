ghost use Rattle.std.specs.Prelude.{◌≡◌, length, OnOk};
ghost use Rattle.refusal.specs.Values.{told};
ghost use Rattle.packing.specs.Pack.{packing, output_after};
ghost use Rattle.packing.specs.Packed.{packed};
ghost use Rattle.packing.specs.Shows.{Shows};
ghost use Rattle.packing.specs.Trips.{UnpacksTo};

use crate::parts::Parts;
use refusal::Refusal;

/// Puts a module together and answers its length. The output past the length keeps its content, and a refusal changes
/// nothing. What is written opens, and unpacks to what was given, if check accepts it.
pub fn pack(parts: Parts<'_>, output: &mut [u8]) -> Result<usize, Refusal>
    ensures verdict { let p = parts.entry in told result ≡ packing p.entries.now p.rows.now p.image.now (length output.old) }
    ensures output { let p = parts.entry in output.new ≡ output_after p.entries.now p.rows.now p.image.now output.old }
    ensures unpacks { let p = parts.entry in OnOk result (UnpacksTo (packed p.entries.now p.rows.now p.image.now) p.entries.now p.rows.now p.image.now) }
    ensures shows { let p = parts.entry in OnOk result (Shows (packed p.entries.now p.rows.now p.image.now) p.entries.now p.rows.now p.image.now) }
{
    parts.counted()?.tested()?.write(output)
}
