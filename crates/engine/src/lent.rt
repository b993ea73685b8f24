// What is lent: all its bytes are EE, so that it shows where nothing was written.
ghost use Rattle.std.specs.Prelude.{◌≡◌, take};

use isa::row::Row;
use module::entry::Entry;
use module::shape::ShapeRow;

pub(crate) const LENT_BYTE: u8 = 0xEE;

pub(crate) const LENT_SHAPE: ShapeRow = ShapeRow {
    depth: 0xEEEE,
    mask: 0xEEEE_EEEE,
};

pub(crate) const LENT_ENTRY: Entry = Entry {
    count: 0xEEEE,
    arguments: LENT_BYTE,
    results: LENT_BYTE,
};

pub(crate) const LENT_ROW: Row = Row {
    op: LENT_BYTE,
    a: LENT_BYTE,
    b: LENT_BYTE,
    c: LENT_BYTE,
    n: 0xEEEE_EEEE,
};

// Lends the first so many items of a room, or all.
pub(crate) fn lend<T>(room: &mut [T], count: usize) -> &mut [T]
    ensures { result.now ≡ take count room.old }
{
    if room.len() <= count {
        return room;
    }
    &mut room[..count]
}
