use crate::code::{ENDLESS, MARKED, RAMP, STEEP_RAMP, Source, TRIP, TRIPPED};
use crate::scenario::Line::{Anew, Made, Order, Ports, Tick, Times};
use crate::scenario::{BEGUN, Scenario, Told, play_each};
use drive::call::Call::{Grant, PowerCycle, Restart};
use faults::fault::Fault;
use machine::machine::State::{Ended, Running};
use refusal::Refusal;
use std::process::Abort;
use std::test::Fail;

// Fuel outside 1 to 10,000.
const NO_FUEL: [Told; 3] = [
    (Grant { fuel: 0 }, Err(Refusal::Fuel)),
    (Grant { fuel: 10_001 }, Err(Refusal::Fuel)),
    (Grant { fuel: u32::MAX }, Err(Refusal::Fuel)),
];

const STEP: Told = (Grant { fuel: 1 }, Ok((1, Running)));

static SCENARIOS: [Scenario; 10] = [
    Scenario {
        name: "no fuel after the first step",
        module: RAMP,
        calls: &NO_FUEL,
        lines: &[
            Made(Grant { fuel: 1 }, Ok((1, Running))),
            Times(1, &NO_FUEL),
        ],
    },
    Scenario {
        name: "no fuel before the last step",
        module: RAMP,
        calls: &NO_FUEL,
        lines: &[
            Made(Grant { fuel: 5 }, Ok((5, Running))),
            Times(1, &NO_FUEL),
        ],
    },
    Scenario {
        name: "no fuel after the end",
        module: RAMP,
        calls: &NO_FUEL,
        lines: &[Made(Grant { fuel: 6 }, Ok((6, Ended))), Times(1, &NO_FUEL)],
    },
    Scenario {
        name: "no fuel after a trip",
        module: STEEP_RAMP,
        calls: &NO_FUEL,
        lines: &[
            Made(Grant { fuel: 3 }, Ok((3, TRIPPED))),
            Times(1, &NO_FUEL),
        ],
    },
    Scenario {
        name: "the least and the most fuel",
        module: ENDLESS,
        calls: &[
            (Grant { fuel: 1 }, Ok((1, Running))),
            (Grant { fuel: 1 }, Ok((1, Running))),
            (Grant { fuel: 10_000 }, Ok((10_000, Running))),
            (Grant { fuel: 10_000 }, Ok((10_000, Running))),
            (Grant { fuel: 9_999 }, Ok((9_999, Running))),
            (Grant { fuel: 9_999 }, Ok((9_999, Running))),
            (Grant { fuel: 2 }, Ok((2, Running))),
            (Grant { fuel: 2 }, Ok((2, Running))),
        ],
        lines: &[],
    },
    Scenario {
        name: "a grant after the end",
        module: RAMP,
        calls: &[
            (Grant { fuel: 10_000 }, Ok((6, Ended))),
            (Grant { fuel: 1 }, Err(Refusal::Ended)),
            (Grant { fuel: 10_000 }, Err(Refusal::Ended)),
        ],
        lines: &[],
    },
    Scenario {
        name: "a grant after a trip",
        module: STEEP_RAMP,
        calls: &[
            (Grant { fuel: 10_000 }, Ok((3, TRIPPED))),
            (Grant { fuel: 1 }, Err(Refusal::Tripped)),
            (Grant { fuel: 10_000 }, Err(Refusal::Tripped)),
        ],
        lines: &[],
    },
    Scenario {
        name: "a restart while running",
        module: RAMP,
        calls: &[],
        lines: &[
            Times(5, &[(Restart, Err(Refusal::Running)), STEP]),
            Made(Restart, Err(Refusal::Running)),
        ],
    },
    Scenario {
        name: "a restart after the end",
        module: RAMP,
        calls: &[(Grant { fuel: 10_000 }, Ok((6, Ended)))],
        lines: &[
            Ports(&[1200, 50, 50, 50]),
            Made(Restart, BEGUN),
            Anew(&[], &[1200, 50, 50, 50]),
            Made(Grant { fuel: 10_000 }, Ok((6, Ended))),
            Ports(&[1200, 50, 100, 150]),
            Made(Restart, BEGUN),
        ],
    },
    Scenario {
        name: "a restart after a trip keeps the fault",
        module: STEEP_RAMP,
        calls: &[],
        lines: &[
            Order(0, 70),
            Tick,
            Made(Grant { fuel: 10_000 }, Ok((3, TRIPPED))),
            Made(Restart, BEGUN),
            Anew(&[TRIP], &[70, 50, 50, 50]),
            Made(Grant { fuel: 10_000 }, Ok((3, TRIPPED))),
            Made(Restart, BEGUN),
            Anew(&[TRIP, TRIP], &[70, 50, 50, 50]),
        ],
    },
];

#[test]
fn every_call_as_the_state_has_it(rt: HostRuntime) -> Result<(), Fail> {
    play_each(&rt, &SCENARIOS)
}

// A ramp's steps, one at a time.
const STEPS: [Told; 6] = [
    STEP,
    STEP,
    STEP,
    STEP,
    STEP,
    (Grant { fuel: 1 }, Ok((1, Ended))),
];

const STEPS_TO_TRIP: [Told; 3] = [STEP, STEP, (Grant { fuel: 1 }, Ok((1, TRIPPED)))];

// Wants a power cycle after these calls to begin the run again, with these faults, over a moving axis that it rests.
fn cycles<'a>(
    rt: &impl Abort,
    module: Source<'a>,
    calls: &'a [Told],
    faults: &'a [Fault],
    ports: &'a [u32],
) -> Result<(), Fail> {
    let scenario = Scenario {
        name: "a power cycle",
        module,
        calls: &[],
        lines: &[
            Order(1, 500),
            Order(0, 70),
            Tick,
            Times(1, calls),
            Made(PowerCycle, BEGUN),
            Anew(faults, ports),
        ],
    };
    scenario.play_over_axis(rt)?;
    Ok(())
}

// The tick before the run gives the axis a speed of 70, and the fourth step of the ramp one of 570.
#[test]
fn a_power_cycle_in_every_state(rt: HostRuntime) -> Result<(), Fail> {
    for made in 0..4 {
        cycles(&rt, RAMP, &STEPS[..made], &[], &[0, 50, 70, 70])?;
    }
    for made in 4..7 {
        cycles(&rt, RAMP, &STEPS[..made], &[], &[0, 50, 570, 640])?;
    }
    cycles(&rt, STEEP_RAMP, &STEPS_TO_TRIP[..2], &[], &[0, 50, 70, 70])?;
    cycles(&rt, STEEP_RAMP, &STEPS_TO_TRIP, &[MARKED], &[0, 50, 70, 70])
}
