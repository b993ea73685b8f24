use isa::row::Row;
use module::entry::Entry;

/// What a module is put together from.
#[derive(Clone, Copy)]
pub struct Parts<'a> {
    /// The entry of each routine.
    pub entries: &'a [Entry],
    /// The instructions of all routines, in order of place.
    pub rows: &'a [Row],
    pub image: &'a [u8],
}
