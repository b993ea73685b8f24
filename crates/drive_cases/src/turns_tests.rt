use crate::code::{MARKED, RAMP, STEEP_RAMP, TRIP, TRIPPED};
use crate::scenario::Line::{Faults, Is};
use crate::scenario::{BEGUN, Scenario, play_alike, play_each};
use crate::seen::{Seen, listed};
use drive::call::Call::{Grant, PowerCycle, Restart};
use machine::machine::State::{Ended, Running};
use refusal::Refusal;
use std::test::Fail;

static LISTS: [Scenario; 4] = [
    Scenario {
        name: "no calls",
        module: RAMP,
        calls: &[],
        lines: &[],
    },
    Scenario {
        name: "every call in every state",
        module: RAMP,
        calls: &[
            (Restart, Err(Refusal::Running)),
            (Grant { fuel: 0 }, Err(Refusal::Fuel)),
            (Grant { fuel: 2 }, Ok((2, Running))),
            (Grant { fuel: 10_001 }, Err(Refusal::Fuel)),
            (Restart, Err(Refusal::Running)),
            (PowerCycle, BEGUN),
            (Grant { fuel: 10_000 }, Ok((6, Ended))),
            (Grant { fuel: u32::MAX }, Err(Refusal::Fuel)),
            (Grant { fuel: 10_000 }, Err(Refusal::Ended)),
            (Restart, BEGUN),
            (Grant { fuel: 6 }, Ok((6, Ended))),
            (PowerCycle, BEGUN),
            (Restart, Err(Refusal::Running)),
            (Grant { fuel: 5 }, Ok((5, Running))),
            (Grant { fuel: 5 }, Ok((1, Ended))),
            (Grant { fuel: 0 }, Err(Refusal::Fuel)),
            (Grant { fuel: 1 }, Err(Refusal::Ended)),
        ],
        lines: &[Faults(&[])],
    },
    Scenario {
        name: "an earlier answer goes",
        module: RAMP,
        calls: &[
            (Grant { fuel: 6 }, Ok((6, Ended))),
            (Grant { fuel: 6 }, Err(Refusal::Ended)),
        ],
        lines: &[Is(Ended)],
    },
    Scenario {
        name: "a list and its calls one by one",
        module: RAMP,
        calls: &[
            (Grant { fuel: 4 }, Ok((4, Running))),
            (Restart, Err(Refusal::Running)),
            (Grant { fuel: 10_000 }, Ok((2, Ended))),
            (Grant { fuel: 3 }, Err(Refusal::Ended)),
            (Restart, BEGUN),
            (Grant { fuel: 10_001 }, Err(Refusal::Fuel)),
            (Grant { fuel: 5 }, Ok((5, Running))),
            (PowerCycle, BEGUN),
            (Grant { fuel: 3 }, Ok((3, Running))),
        ],
        lines: &[],
    },
];

// Each is played as a list, over several earlier answers, and call by call.
#[test]
fn lists_of_calls(rt: HostRuntime) -> Result<(), Fail> {
    play_each(&rt, &LISTS)
}

static TRIPS: Scenario = Scenario {
    name: "calls of a drive that trips",
    module: STEEP_RAMP,
    calls: &[
        (Grant { fuel: 1 }, Ok((1, Running))),
        (Restart, Err(Refusal::Running)),
        (Grant { fuel: 10_000 }, Ok((2, TRIPPED))),
        (Grant { fuel: 0 }, Err(Refusal::Fuel)),
        (Grant { fuel: 10_000 }, Err(Refusal::Tripped)),
        (Restart, BEGUN),
        (Restart, Err(Refusal::Running)),
        (PowerCycle, BEGUN),
        (Grant { fuel: 3 }, Ok((3, TRIPPED))),
        (Grant { fuel: 10_001 }, Err(Refusal::Fuel)),
        (PowerCycle, BEGUN),
        (Grant { fuel: 2 }, Ok((2, Running))),
        (Grant { fuel: 1 }, Ok((1, TRIPPED))),
        (Grant { fuel: 1 }, Err(Refusal::Tripped)),
    ],
    lines: &[Faults(&[MARKED, TRIP])],
};

static TRIPS_ONCE: Scenario = Scenario {
    name: "a drive that trips once",
    module: STEEP_RAMP,
    calls: &[(Grant { fuel: 3 }, Ok((3, TRIPPED)))],
    lines: &[],
};

// The faults alone show how often a drive has tripped.
#[test]
fn calls_of_a_drive_that_trips(rt: HostRuntime) -> Result<(), Fail> {
    let seen = TRIPS.play_over_axis(&rt)?;
    let wanted = Seen {
        faults: listed(&[MARKED, TRIP], Refusal::Absent),
        ..TRIPS_ONCE.play_over_axis(&rt)?
    };
    assert!(rt; seen == wanted);
    Ok(())
}

static FEW: Scenario = Scenario {
    name: "few calls",
    module: STEEP_RAMP,
    calls: &[
        (Grant { fuel: 2 }, Ok((2, Running))),
        (PowerCycle, BEGUN),
        (Grant { fuel: 3 }, Ok((3, TRIPPED))),
        (Restart, BEGUN),
        (Grant { fuel: 2 }, Ok((2, Running))),
    ],
    lines: &[],
};

// The same steps between the same restarts and power cycles, in grants of another size and with refused calls in between.
static MANY: Scenario = Scenario {
    name: "many calls",
    module: STEEP_RAMP,
    calls: &[
        (Grant { fuel: 1 }, Ok((1, Running))),
        (Grant { fuel: 1 }, Ok((1, Running))),
        (Restart, Err(Refusal::Running)),
        (PowerCycle, BEGUN),
        (Grant { fuel: 2 }, Ok((2, Running))),
        (Grant { fuel: 0 }, Err(Refusal::Fuel)),
        (Grant { fuel: 10_000 }, Ok((1, TRIPPED))),
        (Grant { fuel: 10_000 }, Err(Refusal::Tripped)),
        (Restart, BEGUN),
        (Restart, Err(Refusal::Running)),
        (Grant { fuel: 1 }, Ok((1, Running))),
        (Grant { fuel: 1 }, Ok((1, Running))),
    ],
    lines: &[],
};

#[test]
fn two_lists_of_which_the_same_is_seen(rt: HostRuntime) -> Result<(), Fail> {
    play_alike(&rt, &FEW, &MANY)
}
