use crate::code::{RET, Source, module_of, start};
use crate::scenario::Line::{Faults, Made, Order};
use crate::scenario::{BEGUN, Scenario, WAYS, play_all};
use crate::seen::faults;
use drive::call::Call::{Grant, PowerCycle};
use drive::drive::Drive;
use faults::cause::Cause;
use faults::fault::Fault;
use host::Host;
use host::port::{Flag, Port};
use host::table::TableHost;
use isa::instr::{Instr, Width};
use machine::machine::State;
use refusal::{Place, Refusal};
use std::process::Abort;
use std::test::Fail;

// A port that takes every order, and has no rest value.
const ROWS: [Port; 1] = [Port {
    value: 0,
    low: 0,
    high: u32::MAX,
    flag: Flag::Order,
    rest: None,
}];

// NEW, GET of port 0, LD from 4096 more than that: it trips at the third step, with the address.
const PASSES: Source = Source::Routine(&[
    Instr::New,
    Instr::Get { a: 0, c: 0 },
    Instr::Load {
        width: Width::One,
        a: 0,
        b: 0,
        n: 4096,
    },
    RET,
]);

// Where it trips.
const LOADING: Place = Place {
    routine: 0,
    instruction: 2,
};

// What happens to a drive of that module.
enum Turn {
    // A run trips for each value of port 0 from one on to before another, and is begun again.
    Trips { first: u32, end: u32 },
    PowerCycle,
    // There are the faults of these values, those before `unmarked` with a mark, and no others.
    Holds { first: u32, unmarked: u32, end: u32 },
}

fn cause(value: u32) -> Cause {
    Cause::MemoryPassed {
        address: u64::from(value) + 4096,
    }
}

// Whether a run trips with this value at port 0, and is begun again.
fn trips(drive: &mut Drive, table: &mut TableHost, value: u32) -> bool {
    let state = State::Tripped {
        cause: cause(value),
        place: LOADING,
    };
    table.write(0, value).is_ok()
        && drive.grant(table, 10_000) == Ok((3, state))
        && drive.restart() == BEGUN
}

fn all_trip(drive: &mut Drive, table: &mut TableHost, first: u32, end: u32) -> bool {
    for value in first..end {
        if !trips(drive, table, value) {
            return false;
        }
    }
    true
}

fn faults_of(first: u32, unmarked: u32, end: u32) -> [Result<Fault, Refusal>; 21] {
    let mut faults = [Err(Refusal::Absent); 21];
    for (place, value) in faults.iter_mut().zip(first..end) {
        *place = Ok(Fault {
            cause: cause(value),
            place: LOADING,
            marked: value < unmarked,
        });
    }
    faults
}

fn holds(drive: &mut Drive, table: &mut TableHost, turn: &Turn) -> bool {
    match *turn {
        Turn::Trips { first, end } => all_trip(drive, table, first, end),
        Turn::PowerCycle => drive.power_cycle(table) == (0, State::Running),
        Turn::Holds {
            first,
            unmarked,
            end,
        } => faults(drive) == faults_of(first, unmarked, end),
    }
}

static TWENTY_TRIPS_AND_THREE_POWER_CYCLES: [Turn; 10] = [
    Turn::Trips { first: 0, end: 12 },
    Turn::Holds {
        first: 0,
        unmarked: 0,
        end: 12,
    },
    Turn::PowerCycle,
    Turn::Holds {
        first: 0,
        unmarked: 12,
        end: 12,
    },
    Turn::Trips { first: 12, end: 20 },
    Turn::Holds {
        first: 4,
        unmarked: 12,
        end: 20,
    },
    Turn::PowerCycle,
    Turn::Holds {
        first: 12,
        unmarked: 20,
        end: 20,
    },
    Turn::PowerCycle,
    Turn::Holds {
        first: 20,
        unmarked: 20,
        end: 20,
    },
];

static THE_NEWEST_SIXTEEN_OF_TWENTY_TRIPS: [Turn; 12] = [
    Turn::Trips { first: 0, end: 16 },
    Turn::Holds {
        first: 0,
        unmarked: 0,
        end: 16,
    },
    Turn::Trips { first: 16, end: 17 },
    Turn::Holds {
        first: 1,
        unmarked: 0,
        end: 17,
    },
    Turn::Trips { first: 17, end: 20 },
    Turn::Holds {
        first: 4,
        unmarked: 0,
        end: 20,
    },
    Turn::PowerCycle,
    Turn::Holds {
        first: 4,
        unmarked: 20,
        end: 20,
    },
    Turn::Trips { first: 20, end: 21 },
    Turn::Holds {
        first: 5,
        unmarked: 20,
        end: 21,
    },
    Turn::PowerCycle,
    Turn::Holds {
        first: 20,
        unmarked: 21,
        end: 21,
    },
];

// Wants all that happens to a new drive to be so.
fn happens(rt: &impl Abort, turns: &[Turn]) -> Result<(), Fail> {
    let mut bytes = [0; 64];
    let module = module_of(rt, PASSES, &mut bytes)?;
    let mut rows = ROWS;
    let mut table = TableHost::new(&mut rows);
    let mut drive = start(module)?;
    for (i, turn) in turns.iter().enumerate() {
        let as_told = holds(&mut drive, &mut table, turn);
        assert!(rt; as_told, "turn {i}");
    }
    Ok(())
}

#[test]
fn which_faults_are_kept(rt: HostRuntime) -> Result<(), Fail> {
    happens(&rt, &TWENTY_TRIPS_AND_THREE_POWER_CYCLES)?;
    happens(&rt, &THE_NEWEST_SIXTEEN_OF_TWENTY_TRIPS)
}

const OF_0: Cause = Cause::MemoryPassed { address: 4096 };

const OF_1: Cause = Cause::MemoryPassed { address: 4097 };

const MARKED_0: Fault = Fault {
    cause: OF_0,
    place: LOADING,
    marked: true,
};

const FAULT_1: Fault = Fault {
    cause: OF_1,
    place: LOADING,
    marked: false,
};

static TRIPS_TWICE: [Scenario; 1] = [Scenario {
    name: "a power cycle of a tripped drive marks its fault",
    module: PASSES,
    calls: &[(
        Grant { fuel: 3 },
        Ok((
            3,
            State::Tripped {
                cause: OF_0,
                place: LOADING,
            },
        )),
    )],
    lines: &[
        Faults(&[Fault {
            marked: false,
            ..MARKED_0
        }]),
        Made(PowerCycle, BEGUN),
        Faults(&[MARKED_0]),
        Order(0, 1),
        Made(
            Grant { fuel: 3 },
            Ok((
                3,
                State::Tripped {
                    cause: OF_1,
                    place: LOADING,
                },
            )),
        ),
        Faults(&[MARKED_0, FAULT_1]),
        Made(PowerCycle, BEGUN),
        Faults(&[Fault {
            marked: true,
            ..FAULT_1
        }]),
    ],
}];

#[test]
fn a_power_cycle_of_a_tripped_drive_marks_its_fault(rt: HostRuntime) -> Result<(), Fail> {
    for way in WAYS {
        let mut rows = ROWS;
        play_all(&rt, way, &mut TableHost::new(&mut rows), &TRIPS_TWICE)?;
    }
    Ok(())
}
