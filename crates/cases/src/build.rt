//! Modules put together for tests.

use isa::access::Signature;
use isa::instr::Instr;
use isa::row::Row;
use std::alloc::{AllocError, Global};

/// The module of the documents: it orders 1200, lets the host advance once and reads the speed.
pub(crate) const RAMP: [u8; 60] = [
    0x01, 0x00, 0x00, 0x00, // one routine, no image
    0x0C, 0x00, 0x00, 0x00, 0x06, 0x00, 0x00, 0x00, // at byte 12, six instructions
    0x00, 0x00, 0x00, 0x00, 0x00, 0x00, 0x00, 0x00, // NEW
    0x01, 0x00, 0x00, 0x00, 0xB0, 0x04, 0x00, 0x00, // DEF 1200
    0x19, 0x00, 0x01, 0x00, 0x00, 0x00, 0x00, 0x00, // PUT 1 0
    0x1A, 0x00, 0x00, 0x00, 0x00, 0x00, 0x00, 0x00, // TICK
    0x18, 0x00, 0x00, 0x02, 0x00, 0x00, 0x00, 0x00, // GET 0 2
    0x17, 0x00, 0x00, 0x00, 0x00, 0x00, 0x00, 0x00, // RET 0
];

/// What a case hands to open.
#[derive(Clone, Copy)]
pub(crate) enum Given<'a> {
    Bytes(&'a [u8]),
    /// So many bytes: the ramp cut short, or with zeros after it.
    Ramp(usize),
    /// This byte, a hundred thousand times.
    Filled(u8),
    /// A module of one routine.
    Single(&'a [Instr]),
    /// A module of two routines, and how many arguments and results the second takes and gives.
    Pair(&'a [Instr], &'a [Instr], u8, u8),
}

impl Given<'_> {
    /// The bytes of a module, or of what is none.
    pub(crate) fn bytes(self, heap: Global) -> Result<Vec<u8>, AllocError> {
        match self {
            Given::Bytes(bytes) => bytes.to_vec(heap),
            Given::Ramp(length) => {
                let mut bytes = RAMP.to_vec(heap)?;
                bytes.resize(length, 0)?;
                Ok(bytes)
            }
            Given::Filled(byte) => vec![in heap; byte; 100_000],
            Given::Single(instrs) => module_of(heap, &[main_routine(instrs)]),
            Given::Pair(main, instrs, arguments, results) => {
                let signature = Signature { arguments, results };
                module_of(heap, &[main_routine(main), Routine { instrs, signature }])
            }
        }
    }
}

// A routine, by its instructions and by what it takes and gives.
#[derive(Clone, Copy)]
struct Routine<'a> {
    instrs: &'a [Instr],
    signature: Signature,
}

fn main_routine(instrs: &[Instr]) -> Routine<'_> {
    Routine {
        instrs,
        signature: Signature::default(),
    }
}

fn push_instr(bytes: &mut Vec<u8>, instr: Instr) -> Result<(), AllocError> {
    let Row { op, a, b, c, n } = instr.into();
    let [n_0, n_1, n_2, n_3] = n.to_le_bytes();
    bytes.extend_from_slice(&[op, a, b, c, n_0, n_1, n_2, n_3])
}

// A module of these routines and no image. Not by pack: it would refuse the wrong ones that tests want.
fn module_of(heap: Global, routines: &[Routine]) -> Result<Vec<u8>, AllocError> {
    let mut bytes = Vec::new(heap);
    let [low, high, ..] = routines.len().to_le_bytes();
    bytes.extend_from_slice(&[low, high, 0, 0])?;
    let mut offset = routines.len().saturating_mul(8).saturating_add(4);
    for routine in routines {
        let count = routine.instrs.len();
        let [o_0, o_1, o_2, o_3, ..] = offset.to_le_bytes();
        let [low, high, ..] = count.to_le_bytes();
        let Signature { arguments, results } = routine.signature;
        bytes.extend_from_slice(&[o_0, o_1, o_2, o_3, low, high, arguments, results])?;
        offset = count.saturating_mul(8).saturating_add(offset);
    }
    for routine in routines {
        for instr in routine.instrs {
            push_instr(&mut bytes, *instr)?;
        }
    }
    Ok(bytes)
}
