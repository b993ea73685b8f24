use host::Host;
use host::axis::AxisHost;
use isa::row::Row;
use machine::machine::{Machine, State};
use module::check::examine;
use module::checked::Checked;
use module::entry::Entry;
use module::shape::ShapeRow;
use packing::pack::pack;
use packing::parts::Parts;
use refusal::Refusal;
use std::process::Abort;

// Cause, layer, routine, instruction and detail of a trip.
type Trip = (u8, u8, u16, u16, u64);

// A module that is stepped over an axis: after how many steps it stops, with which trip, and with what in byte 0 of memory and at
// ports of the axis.
#[derive(Clone, Copy)]
struct Run<'a> {
    parts: Parts<'a>,
    steps: u32,
    trip: Option<Trip>,
    byte: u8,
    ports: &'a [(usize, u32)],
}

fn trip_of(state: State) -> Option<Trip> {
    match state {
        State::Tripped { cause, place } => Some((
            cause.number(),
            cause.layer().into(),
            place.routine,
            place.instruction,
            cause.detail(),
        )),
        State::Running | State::Ended => None,
    }
}

// How a run stopped: after how many steps, with which trip, and with what in register 0 and in byte 0 of memory.
type Stop = (u32, Option<Trip>, Option<u32>, Option<u8>);

// Steps a module until it stops.
fn stop(checked: Checked<'_>, axis: &mut AxisHost) -> Option<Stop> {
    let mut machine = Machine::begin(checked);
    for steps in 0..1_000_000 {
        if machine.run(axis, 1) == 0 {
            return Some((
                steps,
                trip_of(machine.state),
                machine.register(0),
                machine.byte(0),
            ));
        }
    }
    None
}

// Over a sheet that is long enough for every module of the tests.
fn checked(bytes: &[u8]) -> Result<Checked<'_>, Refusal> {
    examine(bytes, &mut [ShapeRow::BLANK; 64])
}

// Wants these values at ports of the axis.
fn shows(rt: &impl Abort, axis: &AxisHost, ports: &[(usize, u32)]) {
    for (port, value) in ports {
        assert!(rt; axis.read(*port) == Ok(*value));
    }
}

impl Run<'_> {
    fn goes(&self, rt: &impl Abort) {
        let mut bytes = [0; 512];
        let length = pack(self.parts, &mut bytes).expect(rt, "parts of a module");
        let bytes = bytes.get(..length).expect(rt, "bytes of a module");
        let checked = checked(bytes).expect(rt, "a module");
        let mut axis = AxisHost::new();
        // a trip of these modules leaves 0 in register 0, and after the end there is no register
        let register = if self.trip.is_some() { Some(0) } else { None };
        let wanted = (self.steps, self.trip, register, Some(self.byte));
        assert_eq!(rt; stop(checked, &mut axis), Some(wanted));
        shows(rt, &axis, self.ports);
    }
}

// Macros, since the value of a static calls no function.
macro_rules! entry {
    ($count:expr, $arguments:expr, $results:expr) => {
        Entry {
            count: $count,
            arguments: $arguments,
            results: $results,
        }
    };
}

macro_rules! row {
    ($op:expr, $a:expr, $b:expr, $c:expr, $n:expr) => {
        Row {
            op: $op,
            a: $a,
            b: $b,
            c: $c,
            n: $n,
        }
    };
}

// A load to register 0 and a store from it, at the address in register 1 plus n.
macro_rules! load {
    ($width:expr, $n:expr) => {
        row!(16, 0, 1, $width, $n)
    };
}

macro_rules! store {
    ($width:expr, $n:expr) => {
        row!(17, 0, 1, $width, $n)
    };
}

// NEW, DEF n, the row, RET: n, the row, and the trip if it is one.
type WithConstant = (u32, Row, Option<Trip>);

fn go_with_constant(rt: &impl Abort, cases: &[WithConstant]) {
    for (n, instruction, trip) in cases {
        let run = Run {
            parts: Parts {
                entries: &[entry!(4, 0, 0)],
                rows: &[
                    row!(0, 0, 0, 0, 0),
                    row!(1, 0, 0, 0, *n),
                    *instruction,
                    row!(23, 0, 0, 0, 0),
                ],
                image: &[],
            },
            steps: if trip.is_some() { 3 } else { 4 },
            trip: *trip,
            byte: 0,
            ports: &[],
        };
        run.goes(rt);
    }
}

static ACCESSES: [WithConstant; 28] = [
    // at the end of memory
    (4092, load!(1, 0), None),
    (4093, load!(1, 0), None),
    (4095, load!(1, 0), None),
    (4096, load!(1, 0), Some((2, 2, 0, 2, 4096))),
    (4092, load!(2, 0), None),
    (4093, load!(2, 0), None),
    (4095, load!(2, 0), Some((2, 2, 0, 2, 4095))),
    (4096, load!(2, 0), Some((2, 2, 0, 2, 4096))),
    (4092, load!(4, 0), None),
    (4093, load!(4, 0), Some((2, 2, 0, 2, 4093))),
    (4095, load!(4, 0), Some((2, 2, 0, 2, 4095))),
    (4096, load!(4, 0), Some((2, 2, 0, 2, 4096))),
    (4092, store!(1, 0), None),
    (4093, store!(1, 0), None),
    (4095, store!(1, 0), None),
    (4096, store!(1, 0), Some((2, 2, 0, 2, 4096))),
    (4092, store!(2, 0), None),
    (4093, store!(2, 0), None),
    (4095, store!(2, 0), Some((2, 2, 0, 2, 4095))),
    (4096, store!(2, 0), Some((2, 2, 0, 2, 4096))),
    (4092, store!(4, 0), None),
    (4093, store!(4, 0), Some((2, 2, 0, 2, 4093))),
    (4095, store!(4, 0), Some((2, 2, 0, 2, 4095))),
    (4096, store!(4, 0), Some((2, 2, 0, 2, 4096))),
    // an address never wraps
    (
        4_294_967_295,
        load!(1, 1),
        Some((2, 2, 0, 2, 4_294_967_296)),
    ),
    (
        4_294_967_295,
        store!(4, 1),
        Some((2, 2, 0, 2, 4_294_967_296)),
    ),
    (4000, load!(4, 92), None),
    (4000, load!(4, 93), Some((2, 2, 0, 2, 4093))),
];

static OTHER_CAUSES: [WithConstant; 7] = [
    // a division by 0, and one of the remainder
    (7, row!(8, 0, 1, 0, 0), Some((1, 2, 0, 2, 0))),
    (7, row!(9, 0, 1, 0, 2), Some((1, 2, 0, 2, 0))),
    // a port that is absent, of sense, and out of its limits
    (7, row!(24, 0, 0, 4, 0), Some((4, 3, 0, 2, 4))),
    (7, row!(25, 0, 1, 255, 0), Some((4, 3, 0, 2, 255))),
    (7, row!(25, 0, 1, 2, 0), Some((5, 3, 0, 2, 2))),
    (4000, row!(25, 0, 1, 0, 0), Some((6, 3, 0, 2, 0))),
    (3000, row!(25, 0, 1, 0, 0), None),
];

// Routine 1 calls itself as often as its argument says.
macro_rules! nested {
    ($calls:expr, $steps:expr, $trip:expr) => {
        Run {
            parts: Parts {
                entries: &[entry!(3, 0, 0), entry!(6, 1, 0)],
                rows: &[
                    row!(1, 0, 0, 0, $calls),
                    row!(22, 0, 0, 0, 1),
                    row!(23, 0, 0, 0, 0),
                    row!(1, 0, 0, 0, 0),
                    row!(1, 0, 0, 0, 1),
                    row!(19, 0, 1, 0, 5),
                    row!(6, 0, 0, 2, 0),
                    row!(22, 0, 0, 0, 1),
                    row!(23, 0, 0, 0, 0),
                ],
                image: &[],
            },
            steps: $steps,
            trip: $trip,
            byte: 0,
            ports: &[],
        }
    };
}

// Stores 287454020 at address 8 with this width, and loads it.
macro_rules! stored {
    ($width:expr, $wanted:expr) => {
        Run {
            parts: Parts {
                entries: &[entry!(9, 0, 0)],
                rows: &[
                    row!(1, 0, 0, 0, 0x1122_3344),
                    row!(1, 0, 0, 0, 8),
                    row!(0, 0, 0, 0, 0),
                    row!(17, 0, 1, $width, 0),
                    row!(16, 2, 1, 4, 0),
                    row!(1, 0, 0, 0, $wanted),
                    row!(19, 2, 3, 0, 8),
                    row!(18, 0, 0, 0, 7),
                    row!(23, 0, 0, 0, 0),
                ],
                image: &[],
            },
            steps: 8,
            trip: None,
            byte: 0,
            ports: &[],
        }
    };
}

// Loads byte 0 of the image with this width, from the bytes 44 33 22 11: the lowest byte stands first.
macro_rules! loaded {
    ($width:expr, $wanted:expr) => {
        Run {
            parts: Parts {
                entries: &[entry!(7, 0, 0)],
                rows: &[
                    row!(1, 0, 0, 0, 0),
                    row!(0, 0, 0, 0, 0),
                    row!(16, 1, 0, $width, 0),
                    row!(1, 0, 0, 0, $wanted),
                    row!(19, 1, 2, 0, 6),
                    row!(18, 0, 0, 0, 5),
                    row!(23, 0, 0, 0, 0),
                ],
                image: &[0x44, 0x33, 0x22, 0x11],
            },
            steps: 6,
            trip: None,
            byte: 0x44,
            ports: &[],
        }
    };
}

static RUNS: [Run<'static>; 14] = [
    // nesting of 32 and 33
    nested!(0, 7, None),
    nested!(30, 187, None),
    nested!(31, 157, Some((3, 2, 1, 4, 0))),
    // stored bytes are loaded
    stored!(1, 0x44),
    stored!(2, 0x3344),
    stored!(4, 0x1122_3344),
    // the lowest byte stands first
    loaded!(1, 68),
    loaded!(2, 13124),
    loaded!(4, 287_454_020),
    // a ramp moves the axis
    Run {
        parts: Parts {
            entries: &[entry!(6, 0, 0)],
            rows: &[
                row!(0, 0, 0, 0, 0),
                row!(1, 0, 0, 0, 1200),
                row!(25, 0, 1, 0, 0),
                row!(26, 0, 0, 0, 0),
                row!(24, 0, 0, 2, 0),
                row!(23, 0, 0, 0, 0),
            ],
            image: &[],
        },
        steps: 6,
        trip: None,
        byte: 0,
        ports: &[(0, 1200), (2, 50), (3, 50)],
    },
    // Arguments, results and the image: routine 0 loads two bytes of the image, hands them to routine 1, and puts the two results
    // at ports 1 and 0. Routine 1 exchanges its arguments and returns both.
    Run {
        parts: Parts {
            entries: &[entry!(9, 0, 0), entry!(2, 2, 2)],
            rows: &[
                row!(1, 0, 0, 0, 0),
                row!(0, 0, 0, 0, 0),
                row!(0, 0, 0, 0, 0),
                row!(16, 1, 0, 1, 0),
                row!(16, 2, 0, 1, 1),
                row!(22, 1, 1, 0, 1),
                row!(25, 0, 1, 1, 0),
                row!(25, 0, 2, 0, 0),
                row!(23, 0, 0, 0, 0),
                row!(4, 0, 1, 0, 0),
                row!(23, 0, 0, 0, 0),
            ],
            image: &[30, 40],
        },
        steps: 11,
        trip: None,
        byte: 30,
        ports: &[(1, 40), (0, 30)],
    },
    // A long loop: seven steps a turn, ADD, ST, LD, CALL, ADD, RET and BLT, in 100000 turns. The last step is a RET in routine 0.
    Run {
        parts: Parts {
            entries: &[entry!(10, 0, 0), entry!(2, 2, 1)],
            rows: &[
                row!(0, 0, 0, 0, 0),
                row!(0, 0, 0, 0, 0),
                row!(1, 0, 0, 0, 1),
                row!(1, 0, 0, 0, 100_000),
                row!(5, 0, 0, 2, 0),
                row!(17, 0, 2, 4, 99),
                row!(16, 1, 2, 4, 99),
                row!(22, 1, 0, 0, 1),
                row!(20, 0, 3, 0, 4),
                row!(23, 0, 0, 0, 0),
                row!(5, 0, 0, 1, 0),
                row!(23, 0, 0, 0, 0),
            ],
            image: &[],
        },
        steps: 700_005,
        trip: None,
        byte: 0,
        ports: &[],
    },
    // MOV and KILL, and BLTS that takes 4294967295 for -1 where BLT does not.
    Run {
        parts: Parts {
            entries: &[entry!(10, 0, 0)],
            rows: &[
                row!(0, 0, 0, 0, 0),
                row!(1, 0, 0, 0, 1),
                row!(1, 0, 0, 0, 4_294_967_295),
                row!(20, 2, 1, 0, 5),
                row!(21, 2, 1, 0, 6),
                row!(18, 0, 0, 0, 5),
                row!(3, 0, 1, 0, 0),
                row!(2, 0, 0, 0, 0),
                row!(25, 0, 0, 1, 0),
                row!(23, 0, 0, 0, 0),
            ],
            image: &[],
        },
        steps: 9,
        trip: None,
        byte: 0,
        ports: &[(1, 1)],
    },
    // Routine 1 calls routine 0, whose RET ends the run while both wait.
    Run {
        parts: Parts {
            entries: &[entry!(7, 0, 0), entry!(2, 0, 0)],
            rows: &[
                row!(0, 0, 0, 0, 0),
                row!(24, 0, 0, 0, 0),
                row!(1, 0, 0, 0, 5),
                row!(19, 0, 1, 0, 6),
                row!(25, 0, 1, 0, 0),
                row!(22, 0, 0, 0, 1),
                row!(23, 0, 0, 0, 0),
                row!(22, 0, 0, 0, 0),
                row!(18, 0, 0, 0, 1),
            ],
            image: &[],
        },
        steps: 12,
        trip: None,
        byte: 0,
        ports: &[],
    },
];

#[test]
fn accesses_and_every_other_cause(rt: HostRuntime) {
    go_with_constant(&rt, &ACCESSES);
    go_with_constant(&rt, &OTHER_CAUSES);
}

#[test]
fn runs_to_the_end_and_to_a_trip(rt: HostRuntime) {
    for run in &RUNS {
        run.goes(&rt);
    }
}
