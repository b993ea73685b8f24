// What comes of taking a module apart, and of putting one together.
ghost use Rattle.std.specs.Prelude.{◌≡◌};
ghost use Rattle.refusal.specs.Values.{told};
ghost use Rattle.module.specs.Told.{bytes_of};
ghost use Rattle.engine.specs.Fields.{fields_bytes, Added};
ghost use Rattle.engine.specs.Parts.{sizes_fields, taken_apart_fields, lent_fields, length_fields, put_together_fields};

use crate::field::{Field, Text, add, add_all, add_plain};
use crate::text::{add_entries, add_instructions, add_refusal};
use isa::row::Row;
use module::check::examine;
use module::checked::Checked;
use module::entry::Entry;
use module::limits;
use module::shape::ShapeRow;
use packing::pack::pack;
use packing::parts::Parts;
use packing::unpack::unpack;
use refusal::Refusal;

// How many entries and rows there are, or the refusal.
fn add_sizes(text: &mut Text, answer: Result<(usize, usize), Refusal>)
    ensures { Added text.old.items (fields_bytes (sizes_fields (told answer))) text.new.items }
{
    match answer {
        Ok((routines, total)) => add_all(
            text,
            &[
                Field::One(0),
                Field::Four((routines % 4_294_967_296) as u32),
                Field::Four((total % 4_294_967_296) as u32),
            ],
        ),
        Err(refusal) => add_refusal(text, refusal),
    }
}

// Unpacks a module, and adds the answer, all that was lent, and the image.
fn add_taken_apart(text: &mut Text, checked: &Checked<'_>, entries: &mut [Entry], rows: &mut [Row])
    ensures { Added text.old.items (fields_bytes (taken_apart_fields (bytes_of checked.now.opened) entries.old rows.old)) text.new.items }
{
    let answer = unpack(checked, entries, rows);
    add_sizes(text, answer);
    add_entries(text, entries);
    add_instructions(text, rows);
    add_plain(text, checked.image());
}

// Checks a module, and unpacks it.
pub(crate) fn add_unpack(text: &mut Text, bytes: &[u8], entries: &mut [Entry], rows: &mut [Row])
    ensures { Added text.old.items (fields_bytes (lent_fields bytes.now entries.old rows.old)) text.new.items }
{
    let mut sheet = [ShapeRow::BLANK; limits::INSTRUCTIONS];
    match examine(bytes, &mut sheet) {
        Ok(checked) => {
            add(text, Field::One(0));
            add_taken_apart(text, &checked, entries, rows);
        }
        Err(refusal) => add_refusal(text, refusal),
    }
}

// The length of what was packed, or the refusal.
fn add_length(text: &mut Text, answer: Result<usize, Refusal>)
    ensures { Added text.old.items (fields_bytes (length_fields (told answer))) text.new.items }
{
    match answer {
        Ok(length) => add_all(
            text,
            &[Field::One(0), Field::Four((length % 4_294_967_296) as u32)],
        ),
        Err(refusal) => add_refusal(text, refusal),
    }
}

// Packs, and adds the answer and all of the output.
pub(crate) fn add_pack(text: &mut Text, parts: Parts<'_>, output: &mut [u8])
    ensures { let p = parts.entry in Added text.old.items (fields_bytes (put_together_fields p.entries.now p.rows.now p.image.now output.old)) text.new.items }
{
    let answer = pack(parts, output);
    add_length(text, answer);
    add_plain(text, output);
}
