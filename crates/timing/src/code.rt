// Modules put together from instructions.
use isa::encode::encode;
use isa::instr::{Instr, Operation, Test};
use isa::row::Row;
use module::entry::Entry;
use module::limits;
use packing::pack::pack;
use packing::parts::Parts;
use std::alloc::{AllocError, Global};

// A routine: what it takes and gives, and its instructions.
#[derive(Clone, Copy)]
pub(crate) struct Routine<'a> {
    pub(crate) arguments: u8,
    pub(crate) results: u8,
    pub(crate) instrs: &'a [Instr],
}

impl Routine<'_> {
    fn entry(&self) -> Entry {
        Entry {
            count: u16::try_from(self.instrs.len()).unwrap_or(u16::MAX),
            arguments: self.arguments,
            results: self.results,
        }
    }
}

// The instructions with most fields, which stand in the order of the enum.
pub(crate) fn calc(operation: Operation, a: u8, b: u8, c: u8) -> Instr {
    Instr::Calc { operation, a, b, c }
}

// Goes back to instruction n as long as register a is below register b.
pub(crate) fn while_less(a: u8, b: u8, n: u32) -> Instr {
    Instr::Branch {
        test: Test::Less,
        a,
        b,
        n,
    }
}

fn entries_of(heap: Global, routines: &[Routine<'_>]) -> Result<Vec<Entry>, AllocError> {
    routines.iter().map(|routine| routine.entry()).collect(heap)
}

fn rows_of(heap: Global, routines: &[Routine<'_>]) -> Result<Vec<Row>, AllocError> {
    let mut rows = Vec::new(heap);
    for routine in routines {
        rows.extend(routine.instrs.iter().map(|instr| encode(*instr)))?;
    }
    Ok(rows)
}

// A module of these routines, without an image.
pub(crate) fn module_of(heap: Global, routines: &[Routine<'_>]) -> anyhow::Result<Vec<u8>> {
    let entries = entries_of(heap, routines)?;
    let rows = rows_of(heap, routines)?;
    let mut bytes = vec![in heap; 0; limits::deciding_length()]?;
    let parts = Parts {
        entries: entries.as_slice(),
        rows: rows.as_slice(),
        image: &[],
    };
    let size = pack(parts, bytes.as_mut_slice())?;
    bytes.truncate(size);
    Ok(bytes)
}

// A module of one routine.
pub(crate) fn single(heap: Global, instrs: &[Instr]) -> anyhow::Result<Vec<u8>> {
    let main = Routine {
        arguments: 0,
        results: 0,
        instrs,
    };
    module_of(heap, &[main])
}
