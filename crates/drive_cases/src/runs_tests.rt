use crate::code::{ENDLESS, RAMP, RET, STEEP_RAMP, Source, THIRD, TRIPPED};
use crate::scenario::Line::{At, Is, Made, Ports, Register, Trips};
use crate::scenario::{Scenario, play_alike, play_each};
use drive::call::Call::Grant;
use faults::cause::Cause;
use faults::fault::Fault;
use host::port::HostRefusal;
use isa::instr::{Instr, Kind, Operation, Part, Test, Width};
use machine::machine::State;
use machine::machine::State::{Ended, Running};
use refusal::Place;
use std::test::Fail;

// Routine 0 calls itself: the 31st call nests the 32nd routine, and the next trips.
const NESTS: Source = Source::Routine(&[Instr::Call { a: 0, b: 0, n: 0 }, RET]);

const TOO_DEEP: State = State::Tripped {
    cause: Cause::TooDeep,
    place: Place {
        routine: 0,
        instruction: 0,
    },
};

// NEW, DEF 1, DEF 4998, and 4998 times ADD and BLT, which makes 9,999 steps; then the last instruction, and RET.
macro_rules! counts {
    ($last:expr) => {
        Source::Routine(&[
            Instr::New,
            Instr::Def { n: 1 },
            Instr::Def { n: 4998 },
            Instr::Calc {
                operation: Operation::Add,
                a: 0,
                b: 0,
                c: 1,
            },
            Instr::Branch {
                test: Test::Less,
                a: 0,
                b: 2,
                n: 3,
            },
            $last,
            RET,
        ])
    };
}

const COUNTS_AND_ENDS: Source = counts!(RET);

const COUNTS_AND_TRIPS: Source = counts!(Instr::Load {
    width: Width::One,
    a: 0,
    b: 0,
    n: 4096,
});

const COUNTS_AND_MOVES: Source = counts!(Instr::Mov { a: 0, b: 1 });

// What the last instruction comes to, if it trips.
const PASSED: State = State::Tripped {
    cause: Cause::MemoryPassed { address: 9094 },
    place: Place {
        routine: 0,
        instruction: 5,
    },
};

static SCENARIOS: [Scenario; 11] = [
    Scenario {
        name: "the step that ends counts",
        module: RAMP,
        calls: &[(Grant { fuel: 10_000 }, Ok((6, Ended)))],
        lines: &[Ports(&[1200, 50, 50, 50])],
    },
    Scenario {
        name: "fuel for just the steps",
        module: RAMP,
        calls: &[(Grant { fuel: 6 }, Ok((6, Ended)))],
        lines: &[],
    },
    Scenario {
        name: "fuel for all but one of the steps",
        module: RAMP,
        calls: &[
            (Grant { fuel: 5 }, Ok((5, Running))),
            (Grant { fuel: 1 }, Ok((1, Ended))),
        ],
        lines: &[],
    },
    Scenario {
        name: "an order past the limit trips",
        module: STEEP_RAMP,
        calls: &[(Grant { fuel: 10_000 }, Ok((3, TRIPPED)))],
        lines: &[Is(TRIPPED), Ports(&[0, 50, 0, 0])],
    },
    Scenario {
        name: "a 33rd nested routine trips",
        module: NESTS,
        calls: &[
            (Grant { fuel: 31 }, Ok((31, Running))),
            (Grant { fuel: 31 }, Ok((1, TOO_DEEP))),
        ],
        lines: &[At(0, 0)],
    },
    Scenario {
        name: "still running after 10,000 steps",
        module: ENDLESS,
        calls: &[(Grant { fuel: 10_000 }, Ok((10_000, Running)))],
        lines: &[
            Is(Running),
            At(0, 2),
            Register(0, 4999),
            Made(Grant { fuel: 10_000 }, Ok((10_000, Running))),
            Register(0, 9999),
        ],
    },
    Scenario {
        name: "the 10,000th step ends",
        module: COUNTS_AND_ENDS,
        calls: &[(Grant { fuel: 10_000 }, Ok((10_000, Ended)))],
        lines: &[],
    },
    Scenario {
        name: "9,999 steps, and the one that ends",
        module: COUNTS_AND_ENDS,
        calls: &[
            (Grant { fuel: 9_999 }, Ok((9_999, Running))),
            (Grant { fuel: 10_000 }, Ok((1, Ended))),
        ],
        lines: &[],
    },
    Scenario {
        name: "the 10,000th step trips",
        module: COUNTS_AND_TRIPS,
        calls: &[(Grant { fuel: 10_000 }, Ok((10_000, PASSED)))],
        lines: &[],
    },
    Scenario {
        name: "9,999 steps, and the one that trips",
        module: COUNTS_AND_TRIPS,
        calls: &[
            (Grant { fuel: 9_999 }, Ok((9_999, Running))),
            (Grant { fuel: 10_000 }, Ok((1, PASSED))),
        ],
        lines: &[],
    },
    Scenario {
        name: "one step too many for a grant",
        module: COUNTS_AND_MOVES,
        calls: &[(Grant { fuel: 10_000 }, Ok((10_000, Running)))],
        lines: &[Register(0, 1), Made(Grant { fuel: 10_000 }, Ok((1, Ended)))],
    },
];

#[test]
fn how_far_a_grant_goes(rt: HostRuntime) -> Result<(), Fail> {
    play_each(&rt, &SCENARIOS)
}

// NEW, DEF n and this instruction trip at the third step, which counts: in a grant of its own, after which all but the state and the
// faults is as before it, and in one of all three.
macro_rules! trips {
    ($n:literal, $third:expr, $cause:expr) => {
        (
            Scenario {
                name: "a trip in the second grant",
                module: Source::Routine(&[Instr::New, Instr::Def { n: $n }, $third, RET]),
                calls: &[(Grant { fuel: 2 }, Ok((2, Running)))],
                lines: &[Trips(Fault {
                    cause: $cause,
                    place: THIRD,
                    marked: false,
                })],
            },
            Scenario {
                name: "a trip in the first grant",
                module: Source::Routine(&[Instr::New, Instr::Def { n: $n }, $third, RET]),
                calls: &[(
                    Grant { fuel: 3 },
                    Ok((
                        3,
                        State::Tripped {
                            cause: $cause,
                            place: THIRD,
                        },
                    )),
                )],
                lines: &[],
            },
        )
    };
}

// Of each pair the same is seen.
static TRIPS: [(Scenario, Scenario); 7] = [
    trips!(
        7,
        Instr::Divide {
            part: Part::Quotient,
            kind: Kind::Unsigned,
            a: 0,
            b: 1,
            c: 0,
        },
        Cause::ZeroDivisor
    ),
    trips!(
        7,
        Instr::Divide {
            part: Part::Remainder,
            kind: Kind::Downwards,
            a: 0,
            b: 1,
            c: 0,
        },
        Cause::ZeroDivisor
    ),
    trips!(
        4093,
        Instr::Load {
            width: Width::Four,
            a: 0,
            b: 1,
            n: 0,
        },
        Cause::MemoryPassed { address: 4093 }
    ),
    trips!(
        4000,
        Instr::Store {
            width: Width::Four,
            a: 0,
            b: 1,
            n: 93,
        },
        Cause::MemoryPassed { address: 4093 }
    ),
    trips!(
        7,
        Instr::Get { a: 0, c: 4 },
        Cause::Host {
            refusal: HostRefusal::NoPort,
            port: 4,
        }
    ),
    trips!(
        7,
        Instr::Put { b: 1, c: 3 },
        Cause::Host {
            refusal: HostRefusal::SensePort,
            port: 3,
        }
    ),
    trips!(
        501,
        Instr::Put { b: 1, c: 1 },
        Cause::Host {
            refusal: HostRefusal::OutOfLimits,
            port: 1,
        }
    ),
];

#[test]
fn a_trip_for_every_cause(rt: HostRuntime) -> Result<(), Fail> {
    for (in_two_grants, in_one) in &TRIPS {
        play_alike(&rt, in_two_grants, in_one)?;
    }
    Ok(())
}
