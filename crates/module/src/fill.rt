ghost use Rattle.std.specs.Prelude.{◌≡◌, ◌<◌, length};
ghost use Rattle.module.specs.Layout.{routines, count, total};
ghost use Rattle.module.specs.Shape.{routine_rows, rows_before};
ghost use Rattle.module.specs.Told.{bytes_in, bytes_of};

use crate::opened::Opened;
use crate::routine::Routine;
use crate::shape::ShapeRow;

impl Routine<'_> {
    // Fills the rows of the routine.
    fn fill(&self, rows: &mut [ShapeRow])
        requires { length rows.old ≡ count (bytes_in self.now) self.now.index }
        ensures { rows.new ≡ routine_rows (bytes_in self.now) self.now.index }
    {
        let mut shape = ShapeRow {
            depth: u16::from(self.signature().arguments),
            mask: 0,
        };
        for (i, row) in rows.iter_mut().enumerate() {
            *row = shape;
            shape = shape.after(self.instr(i));
        }
    }
}

impl Opened<'_> {
    // Fills the rows of all routines.
    pub(crate) fn fill(&self, rows: &mut [ShapeRow])
        requires { length rows.old ≡ total (bytes_of self.now) }
        ensures { rows.new ≡ rows_before (bytes_of self.now) (routines (bytes_of self.now)) }
    {
        // By ranges: of parts that split_at_mut splits off in a loop, the proof does not know that they are all of the rows.
        let mut start = 0;
        for index in 0..self.counts.routines {
            let routine = self.routine(index);
            let end = start + routine.count();
            routine.fill(&mut rows[start..end]);
            start = end;
        }
    }
}
