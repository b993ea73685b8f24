ghost use Rattle.std.specs.Prelude.{◌≡◌, ◌≤◌, length, map, slice_get};
ghost use Rattle.faults.specs.Faults.{values_of};
ghost use Rattle.faults.specs.Lists.{most_faults, MarkedFirst};
ghost use Rattle.faults.specs.Shown.{faults_of, shown};

use crate::fault::Fault;
use crate::list::FaultList;

impl FaultList {
    /// How many faults there are: at most sixteen, and no marked one after one without a mark.
    pub fn len(&self) -> usize
        ensures length { result ≡ length (faults_of self.now) }
        ensures few { result ≤ most_faults }
        ensures sorted { MarkedFirst (faults_of self.now) }
    {
        self.faults().len()
    }

    /// The fault at place i, the oldest at 0, or None past the end.
    pub fn get(&self, i: usize) -> Option<Fault>
        ensures { shown result ≡ slice_get (faults_of self.now) i }
    {
        self.faults().get(i).copied()
    }

    // The faults, the oldest first.
    fn faults(&self) -> &[Fault]
        ensures { map values_of result.now ≡ faults_of self.now }
    {
        self.table.first(self.count)
    }
}
