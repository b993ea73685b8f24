//! Small modules for the tests, and what is wanted of them.

use drive::drive::Drive;
use faults::cause::Cause;
use faults::fault::Fault;
use host::port::HostRefusal;
use isa::instr::{Instr, Operation};
use isa::row::Row;
use machine::machine::State;
use module::check::examine;
use module::checked::Checked;
use module::entry::Entry;
use module::shape::ShapeRow;
use packing::pack::pack;
use packing::parts::Parts;
use refusal::{Place, Refusal};
use std::process::Abort;
use std::test::Fail;

pub(crate) const RET: Instr = Instr::Ret { a: 0 };

// What a module is put together from.
#[derive(Clone, Copy)]
pub(crate) enum Source<'a> {
    // One routine of these instructions, without an image.
    Routine(&'a [Instr]),
    // Routines with these entries and instructions, and an image.
    Module {
        entries: &'a [Entry],
        instrs: &'a [Instr],
        image: &'a [u8],
    },
}

// NEW, DEF n, PUT to port 0, TICK, GET of port 2, RET: over a new axis it ends at the sixth step, or trips at the third if n is
// over 3000.
macro_rules! ramp {
    ($n:literal) => {
        Source::Routine(&[
            Instr::New,
            Instr::Def { n: $n },
            Instr::Put { b: 1, c: 0 },
            Instr::Tick,
            Instr::Get { a: 0, c: 2 },
            RET,
        ])
    };
}

pub(crate) const RAMP: Source<'static> = ramp!(1200);

// The ramp that trips.
pub(crate) const STEEP_RAMP: Source<'static> = ramp!(4000);

// NEW, DEF 1, and from then on ADD and BAL by turns: it never stops.
pub(crate) const ENDLESS: Source<'static> = Source::Routine(&[
    Instr::New,
    Instr::Def { n: 1 },
    Instr::Calc {
        operation: Operation::Add,
        a: 0,
        b: 0,
        c: 1,
    },
    Instr::Bal { n: 2 },
]);

// Packs a module of at most 64 instructions into the bytes that are lent.
pub(crate) fn module_of<'a>(
    rt: &impl Abort,
    source: Source<'_>,
    bytes: &'a mut [u8],
) -> Result<&'a [u8], Fail> {
    match source {
        Source::Routine(instrs) => {
            assert!(rt; instrs.len() <= 64);
            let entry = Entry {
                count: instrs.len() as u16,
                arguments: 0,
                results: 0,
            };
            packed(rt, &[entry], instrs, &[], bytes)
        }
        Source::Module {
            entries,
            instrs,
            image,
        } => packed(rt, entries, instrs, image, bytes),
    }
}

fn packed<'a>(
    rt: &impl Abort,
    entries: &[Entry],
    instrs: &[Instr],
    image: &[u8],
    bytes: &'a mut [u8],
) -> Result<&'a [u8], Fail> {
    let mut rows = [Row::default(); 64];
    assert!(rt; instrs.len() <= 64);
    let rows = &mut rows[..instrs.len()];
    for (row, instr) in rows.iter_mut().zip(instrs) {
        *row = Row::from(*instr);
    }
    let parts = Parts {
        entries,
        rows,
        image,
    };
    let length = pack(parts, bytes)?;
    assert!(rt; length <= bytes.len());
    Ok(&bytes[..length])
}

pub(crate) fn checked(module: &[u8]) -> Result<Checked<'_>, Refusal> {
    examine(module, &mut [ShapeRow::BLANK; 64])
}

pub(crate) fn start(module: &[u8]) -> Result<Drive<'_>, Fail> {
    Ok(Drive::start(checked(module)?))
}

// The cause of an order to port 0 that its limits leave out.
pub(crate) const OVER: Cause = Cause::Host {
    refusal: HostRefusal::OutOfLimits,
    port: 0,
};

// Where the ramp, among others, gives that order.
pub(crate) const THIRD: Place = Place {
    routine: 0,
    instruction: 2,
};

// The state after it.
pub(crate) const TRIPPED: State = State::Tripped {
    cause: OVER,
    place: THIRD,
};

// Its fault.
pub(crate) const TRIP: Fault = Fault {
    cause: OVER,
    place: THIRD,
    marked: false,
};

// The same after a power cycle.
pub(crate) const MARKED: Fault = Fault {
    marked: true,
    ..TRIP
};
