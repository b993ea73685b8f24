ghost use Rattle.std.specs.Prelude.{◌≡◌, ◌<◌, ◌≤◌, [], ◌∷◌, ◌++◌, map, take, drop, slice_set};
ghost use Rattle.faults.specs.Faults.{values_of, marked};
ghost use Rattle.faults.specs.Lists.{most_faults, MarkedFirst, cycled};
ghost use Rattle.faults.specs.Tables.{rows_of, row_at};

use crate::cause::Cause;
use crate::fault::Fault;
use refusal::Place;

/// The most faults that are kept.
pub const MOST_FAULTS: usize = 16;

// What a row holds before a fault is put there; no answer shows it. It is no None: `count` says which rows are used, and with
// an Option in each row every read would unwrap it.
const BLANK: Fault = Fault {
    cause: Cause::ZeroDivisor,
    place: Place {
        routine: 0,
        instruction: 0,
    },
    marked: false,
};

/// A row for each fault that is kept: a fixed array, as nothing on the drive allocates.
#[derive(Drop)]
pub struct FaultTable {
    rows: [Fault; MOST_FAULTS],
}

impl FaultTable {
    pub(crate) fn new() -> FaultTable {
        FaultTable {
            rows: [BLANK; MOST_FAULTS],
        }
    }

    // The faults of the first `count` rows.
    pub(crate) fn first(&self, count: usize) -> &[Fault]
        requires { count ≤ most_faults }
        ensures { map values_of result.now ≡ take count (rows_of self.now) }
    {
        &self.rows[..count]
    }

    // Puts the fault into row i.
    pub(crate) fn put(&mut self, i: usize, fault: Fault)
        requires { i < most_faults }
        ensures { rows_of self.new ≡ slice_set (rows_of self.old) i (values_of fault) }
    {
        self.rows[i] = fault;
    }

    // Puts the fault into the last row, where each other row moves one up, and the first goes.
    pub(crate) fn push_out(&mut self, fault: Fault)
        ensures { rows_of self.new ≡ drop 1 (rows_of self.old) ++ (values_of fault ∷ []) }
    {
        self.rows.rotate_left(1);
        self.rows[MOST_FAULTS - 1] = fault;
    }

    // Marks the fault of row i.
    fn mark(&mut self, i: usize)
        requires { i < most_faults }
        ensures { rows_of self.new ≡ slice_set (rows_of self.old) i (marked (row_at self.old i)) }
    {
        let fault = &mut self.rows[i];
        fault.marked = true;
    }

    // A power cycle over the first `count` rows, where marked faults stand first. Returns how many are left.
    pub(crate) fn cycle(&mut self, count: usize) -> usize
        requires few { count ≤ most_faults }
        requires sorted { MarkedFirst (take count (rows_of self.old)) }
        ensures few { result ≤ count }
        ensures left { take result (rows_of self.new) ≡ cycled (take count (rows_of self.old)) }
    {
        let gone = self.first(count).partition_point(|fault| fault.marked);
        let left = count - gone;
        // Those that are left come to the front. What stands behind them is not used, so it is not kept:
        // to turn the rows round takes longer.
        self.rows.copy_within(gone..count, 0);
        // By index: it is a rule that the table lends one record at a time, in a method of its own.
        for i in 0..left {
            self.mark(i);
        }
        left
    }
}
