ghost use Rattle.std.specs.Prelude.{◌≤◌, take};
ghost use Rattle.faults.specs.Lists.{most_faults, MarkedFirst};
ghost use Rattle.faults.specs.Tables.{rows_of};

use crate::table::FaultTable;

mod changes;
mod reads;

/// The newest sixteen faults, the oldest first: a table and how many of its rows are used, as nothing on the drive allocates.
#[derive(Drop)]
pub struct FaultList {
    table: FaultTable,
    count: usize,
    ghost few: { count ≤ most_faults },
    ghost sorted: { MarkedFirst (take count (rows_of table)) },
}
