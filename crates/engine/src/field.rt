// Numbers of some bytes each, and the text that they are added to.
ghost use Rattle.std.specs.Prelude.{◌≡◌, map, take};
ghost use Rattle.engine.specs.declared.field.Field.TheVariants.{One};
ghost use Rattle.engine.specs.Fields.{field_bytes, fields_bytes, added, Added};

use arrayvec::ArrayVec;

// The most bytes that are written.
pub(crate) const ROOM: usize = 40_960;

pub(crate) type Text = ArrayVec<u8, ROOM>;

// A number of one, two, four or eight bytes.
#[derive(Clone, Copy)]
pub(crate) enum Field {
    One(u8),
    Two(u16),
    Four(u32),
    Eight(u64),
}

// The first so many items, or all.
fn first<T>(items: &[T], count: usize) -> &[T]
    ensures { result.now ≡ take count items.now }
{
    if items.len() <= count {
        return items;
    }
    &items[..count]
}

// Adds bytes, as many as there is room for.
fn add_bytes(text: &mut Text, bytes: &[u8])
    ensures { text.new.items ≡ added text.old.items bytes.now }
{
    let left = ROOM - text.len();
    // It fits.
    let _fits = text.try_extend_from_slice(first(bytes, left));
}

// Adds bytes as they are.
pub(crate) fn add_plain(text: &mut Text, bytes: &[u8])
    ensures { Added text.old.items (fields_bytes (map One bytes.now)) text.new.items }
{
    add_bytes(text, bytes);
}

// Adds a number, its lowest byte first.
pub(crate) fn add(text: &mut Text, field: Field)
    ensures { Added text.old.items (field_bytes field) text.new.items }
{
    match field {
        Field::One(value) => add_bytes(text, &[value]),
        Field::Two(value) => add_bytes(text, &value.to_le_bytes()),
        Field::Four(value) => add_bytes(text, &value.to_le_bytes()),
        Field::Eight(value) => add_bytes(text, &value.to_le_bytes()),
    }
}

// Adds numbers, one after the other.
pub(crate) fn add_all(text: &mut Text, fields: &[Field])
    ensures { Added text.old.items (fields_bytes fields.now) text.new.items }
{
    for field in fields {
        add(text, *field);
    }
}
