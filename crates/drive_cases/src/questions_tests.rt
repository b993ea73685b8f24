use crate::code::{RET, STEEP_RAMP, Source, TRIP, TRIPPED};
use crate::scenario::Line::{At, Bytes, Faults, Is, Made, Nowhere, Registers};
use crate::scenario::{Scenario, play_each};
use drive::call::Call::Grant;
use isa::instr::{Instr, Width};
use machine::machine::State::{Ended, Running};
use module::entry::Entry;
use refusal::Refusal;
use std::test::Fail;

// Adds 200 as a constant, and a variable, and stores the constant at the last byte.
const STORES: Source = Source::Module {
    entries: &[Entry {
        count: 6,
        arguments: 0,
        results: 0,
    }],
    instrs: &[
        Instr::Def { n: 200 },
        Instr::New,
        Instr::Store {
            width: Width::One,
            a: 0,
            b: 1,
            n: 4095,
        },
        Instr::Mov { a: 1, b: 0 },
        Instr::Kill,
        RET,
    ],
    image: &[100],
};

static SCENARIOS: [Scenario; 4] = [
    Scenario {
        name: "what a new drive answers",
        module: STORES,
        calls: &[],
        lines: &[
            Is(Running),
            At(0, 0),
            Registers(&[]),
            Bytes(100, 0),
            Faults(&[]),
        ],
    },
    Scenario {
        name: "what a running drive answers",
        module: STORES,
        calls: &[(Grant { fuel: 1 }, Ok((1, Running)))],
        lines: &[
            At(0, 1),
            Registers(&[200]),
            Faults(&[]),
            Made(Grant { fuel: 1 }, Ok((1, Running))),
            At(0, 2),
            Registers(&[200, 0]),
            Faults(&[]),
            Bytes(100, 0),
            Made(Grant { fuel: 1 }, Ok((1, Running))),
            At(0, 3),
            Registers(&[200, 0]),
            Faults(&[]),
            Bytes(100, 200),
            Made(Grant { fuel: 1 }, Ok((1, Running))),
            At(0, 4),
            Registers(&[200, 200]),
            Faults(&[]),
            Made(Grant { fuel: 1 }, Ok((1, Running))),
            At(0, 5),
            Registers(&[200]),
            Faults(&[]),
        ],
    },
    Scenario {
        name: "after the end there is no place and no register",
        module: STORES,
        calls: &[(Grant { fuel: 100 }, Ok((6, Ended)))],
        lines: &[
            Is(Ended),
            Nowhere,
            Registers(&[]),
            Bytes(100, 200),
            Faults(&[]),
        ],
    },
    Scenario {
        name: "after a trip all is as before the step",
        module: STEEP_RAMP,
        calls: &[(Grant { fuel: 100 }, Ok((3, TRIPPED)))],
        lines: &[
            Is(TRIPPED),
            At(0, 2),
            Registers(&[0, 4000]),
            Bytes(0, 0),
            Faults(&[TRIP]),
        ],
    },
];

#[test]
fn questions(rt: HostRuntime) -> Result<(), Fail> {
    play_each(&rt, &SCENARIOS)
}

// The refusals of the calls and the questions, with their numbers.
static NUMBERS: [(Refusal, u8); 5] = [
    (Refusal::Fuel, 14),
    (Refusal::Ended, 15),
    (Refusal::Tripped, 16),
    (Refusal::Running, 17),
    (Refusal::Absent, 18),
];

// The caller causes each of them, and it has no place.
#[test]
fn the_numbers_of_the_refusals(rt: HostRuntime) {
    for (refusal, number) in &NUMBERS {
        assert!(rt; refusal.number() == *number);
        assert!(rt; u8::from(refusal.layer()) == 0);
        assert!(rt; refusal.routine() == 0 && refusal.instruction() == 0);
    }
}

// 32 DEF, of 100 and on.
#[test]
fn registers_up_to_the_32nd(rt: HostRuntime) -> Result<(), Fail> {
    let mut instrs = [RET; 33];
    let mut values = [0; 32];
    for k in 0..32 {
        values[k] = 100 + k as u32;
        instrs[k] = Instr::Def { n: values[k] };
    }
    let scenario = Scenario {
        name: "32 registers",
        module: Source::Routine(&instrs),
        calls: &[(Grant { fuel: 32 }, Ok((32, Running)))],
        lines: &[Registers(&values)],
    };
    scenario.play_over_axis(&rt)?;
    Ok(())
}
