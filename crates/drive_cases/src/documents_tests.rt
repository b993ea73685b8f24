//! The worked examples of docs/DRIVE.md and docs/LAW.md.

use crate::code::{MARKED, OVER, RAMP, STEEP_RAMP, THIRD, TRIP, TRIPPED, checked, module_of};
use crate::program;
use crate::scenario::Line::{At, Depth, Faults, Made, Nowhere, Ports, Times};
use crate::scenario::{BEGUN, Scenario, Told, are_told, play_alike, play_each};
use crate::seen::{listed, look};
use drive::call::Call::{Grant, PowerCycle, Restart};
use host::axis::AxisHost;
use host::port::HostRefusal;
use machine::machine::State::{Ended, Running};
use module::shape::ShapeRow;
use refusal::{Place, Refusal};
use std::test::Fail;

// The sample module, as it stands in DRIVE.md, "Grant".
const SAMPLE: [u8; 60] = [
    0x01, 0x00, 0x00, 0x00,
    // routine 0
    0x0C, 0x00, 0x00, 0x00, 0x06, 0x00, 0x00, 0x00,
    // NEW
    0x00, 0x00, 0x00, 0x00, 0x00, 0x00, 0x00, 0x00,
    // DEF 1200
    0x01, 0x00, 0x00, 0x00, 0xB0, 0x04, 0x00, 0x00,
    // PUT to port 0
    0x19, 0x00, 0x01, 0x00, 0x00, 0x00, 0x00, 0x00,
    // TICK
    0x1A, 0x00, 0x00, 0x00, 0x00, 0x00, 0x00, 0x00,
    // GET of port 2
    0x18, 0x00, 0x00, 0x02, 0x00, 0x00, 0x00, 0x00,
    // RET
    0x17, 0x00, 0x00, 0x00, 0x00, 0x00, 0x00, 0x00,
];

// The scenarios below are of these modules: the sample, and the same with the order raised to 4,000, as in "Faults over calls".
#[test]
fn the_instructions_of_the_sample(rt: HostRuntime) -> Result<(), Fail> {
    let mut raised = SAMPLE;
    raised[24] = 0xA0;
    raised[25] = 0x0F;
    let mut bytes = [0; 64];
    assert!(rt; module_of(&rt, RAMP, &mut bytes)? == SAMPLE.as_slice());
    assert!(rt; module_of(&rt, STEEP_RAMP, &mut bytes)? == raised.as_slice());
    Ok(())
}

// Each fault in "Faults over calls" is `6 3 0 2 0` and its mark.
#[test]
fn the_numbers_of_the_fault(rt: HostRuntime) {
    assert!(rt; OVER.number() == 6);
    assert!(rt; u8::from(OVER.layer()) == 3);
    assert!(rt; OVER.detail() == 0);
    assert!(rt; TRIP.cause == OVER && MARKED.cause == OVER);
    assert!(rt; TRIP.place == THIRD && MARKED.place == THIRD);
    assert!(rt; TRIP.mark() == 0 && MARKED.mark() == 1);
}

static SCENARIOS: [Scenario; 3] = [
    // The table of DRIVE.md, "Grant": a call and its answer, and the place, the depth and ports 0 to 3 afterwards.
    Scenario {
        name: "the sample call by call",
        module: RAMP,
        calls: &[],
        lines: &[
            At(0, 0),
            Depth(0),
            Ports(&[0, 50, 0, 0]),
            Made(Grant { fuel: 4 }, Ok((4, Running))),
            At(0, 4),
            Depth(2),
            Ports(&[1200, 50, 50, 50]),
            Made(Grant { fuel: 4 }, Ok((2, Ended))),
            Nowhere,
            Depth(0),
            Ports(&[1200, 50, 50, 50]),
            Made(Grant { fuel: 4 }, Err(Refusal::Ended)),
            Nowhere,
            Depth(0),
            Ports(&[1200, 50, 50, 50]),
            Made(Grant { fuel: 0 }, Err(Refusal::Fuel)),
            Nowhere,
            Depth(0),
            Ports(&[1200, 50, 50, 50]),
            Made(Restart, BEGUN),
            At(0, 0),
            Depth(0),
            Ports(&[1200, 50, 50, 50]),
            Made(Grant { fuel: 10_000 }, Ok((6, Ended))),
            Nowhere,
            Depth(0),
            Ports(&[1200, 50, 100, 150]),
            Made(PowerCycle, BEGUN),
            At(0, 0),
            Depth(0),
            Ports(&[0, 50, 100, 150]),
            Made(Restart, Err(Refusal::Running)),
            At(0, 0),
            Depth(0),
            Ports(&[0, 50, 100, 150]),
            Made(Grant { fuel: 3 }, Ok((3, Running))),
            At(0, 3),
            Depth(2),
            Ports(&[1200, 50, 100, 150]),
        ],
    },
    // The table of DRIVE.md, "Faults over calls": a call and its answer, and the faults afterwards.
    Scenario {
        name: "marks over calls",
        module: STEEP_RAMP,
        calls: &[],
        lines: &[
            Made(Grant { fuel: 10 }, Ok((3, TRIPPED))),
            Faults(&[TRIP]),
            Made(Grant { fuel: 10 }, Err(Refusal::Tripped)),
            Faults(&[TRIP]),
            Made(Restart, BEGUN),
            Faults(&[TRIP]),
            Made(Grant { fuel: 2 }, Ok((2, Running))),
            Faults(&[TRIP]),
            Made(Grant { fuel: 10 }, Ok((1, TRIPPED))),
            Faults(&[TRIP, TRIP]),
            Made(PowerCycle, BEGUN),
            Faults(&[MARKED, MARKED]),
            Made(Grant { fuel: 3 }, Ok((3, TRIPPED))),
            Faults(&[MARKED, MARKED, TRIP]),
            Made(Restart, BEGUN),
            Faults(&[MARKED, MARKED, TRIP]),
            Made(Grant { fuel: 3 }, Ok((3, TRIPPED))),
            Faults(&[MARKED, MARKED, TRIP, TRIP]),
            Made(PowerCycle, BEGUN),
            Faults(&[MARKED, MARKED]),
            Made(PowerCycle, BEGUN),
            Faults(&[]),
        ],
    },
    // The paragraph after that table.
    Scenario {
        name: "twenty trips and three more",
        module: STEEP_RAMP,
        calls: &[],
        lines: &[
            Times(
                20,
                &[(Grant { fuel: 3 }, Ok((3, TRIPPED))), (Restart, BEGUN)],
            ),
            Faults(&[TRIP; 16]),
            Made(PowerCycle, BEGUN),
            Faults(&[MARKED; 16]),
            Times(
                3,
                &[(Grant { fuel: 3 }, Ok((3, TRIPPED))), (Restart, BEGUN)],
            ),
            Faults(&[
                MARKED, MARKED, MARKED, MARKED, MARKED, MARKED, MARKED, MARKED, MARKED, MARKED,
                MARKED, MARKED, MARKED, TRIP, TRIP, TRIP,
            ]),
            Made(PowerCycle, BEGUN),
            Faults(&[MARKED; 3]),
        ],
    },
];

#[test]
fn calls_of_the_sample(rt: HostRuntime) -> Result<(), Fail> {
    play_each(&rt, &SCENARIOS)
}

// What DRIVE.md, "A program", says of `ramp`: a sheet of five rows is refused.
#[test]
fn the_program_ramps(rt: HostRuntime) {
    let mut sheet = [ShapeRow::BLANK; 6];
    assert_eq!(rt;
        program::ramp(&SAMPLE, &mut sheet[..5]),
        Err(Refusal::Sheet)
    );
    assert_eq!(rt; program::ramp(&SAMPLE, &mut sheet), Ok((6, Ended)));
}

static WANTED: [Told; 3] = [
    (Grant { fuel: 10_000 }, Ok((6, Ended))),
    (Restart, BEGUN),
    (Grant { fuel: 1 }, Ok((1, Running))),
];

// And of `twice`.
#[test]
fn the_program_runs_twice(rt: HostRuntime) -> Result<(), Fail> {
    let mut axis = AxisHost::new();
    let (drive, turns) = program::twice(checked(&SAMPLE)?, &mut axis);
    assert!(rt; are_told(&turns, &WANTED));
    let seen = look(&drive, &axis);
    let place = Place {
        routine: 0,
        instruction: 1,
    };
    assert!(rt; seen.place == Ok(place) && seen.depth == 1);
    assert!(rt; seen.registers == listed(&[0], Refusal::Absent));
    assert!(rt; seen.ports == listed(&[1200, 50, 50, 50], HostRefusal::NoPort));
    Ok(())
}

// The two lists of LAW.md, "Where each sentence is": they have the same history, so that the drives are alike.
static FIRST: Scenario = Scenario {
    name: "the first list",
    module: RAMP,
    calls: &[
        (Grant { fuel: 10_000 }, Ok((6, Ended))),
        (Restart, BEGUN),
        (Grant { fuel: 2 }, Ok((2, Running))),
    ],
    lines: &[],
};

static SECOND: Scenario = Scenario {
    name: "the second list",
    module: RAMP,
    calls: &[
        (Grant { fuel: 0 }, Err(Refusal::Fuel)),
        (Restart, Err(Refusal::Running)),
        (Grant { fuel: 5 }, Ok((5, Running))),
        (Grant { fuel: 5 }, Ok((1, Ended))),
        (Grant { fuel: 1 }, Err(Refusal::Ended)),
        (Restart, BEGUN),
        (Grant { fuel: 1 }, Ok((1, Running))),
        (Grant { fuel: 1 }, Ok((1, Running))),
    ],
    lines: &[],
};

#[test]
fn two_lists_with_the_same_history(rt: HostRuntime) -> Result<(), Fail> {
    play_alike(&rt, &FIRST, &SECOND)
}
