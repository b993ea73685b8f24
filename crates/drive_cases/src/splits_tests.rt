use crate::code::{OVER, RET, Source, module_of, start};
use crate::scenario::Line::{Byte, Register};
use crate::scenario::Scenario;
use crate::seen::{Seen, look};
use drive::call::Call::Grant;
use drive::drive::Drive;
use host::axis::AxisHost;
use isa::instr::{Instr, Operation, Width};
use machine::machine::State;
use machine::machine::State::Running;
use module::entry::Entry;
use refusal::{Place, Refusal};
use std::process::Abort;
use std::test::Fail;

// For i from 0 on, routine 1 stores the lowest byte of i times i at 8 + i and gives the product, which routine 0 orders of the
// axis before a tick. That takes 3 steps, and 10 for each i; the order of 55 times 55 trips at step 560.
const SQUARES: Source = Source::Module {
    entries: &[
        Entry {
            count: 8,
            arguments: 0,
            results: 0,
        },
        Entry {
            count: 5,
            arguments: 1,
            results: 1,
        },
    ],
    instrs: &[
        Instr::Def { n: 1 },
        Instr::New,
        Instr::New,
        Instr::Call { a: 2, b: 1, n: 1 },
        Instr::Put { b: 2, c: 0 },
        Instr::Tick,
        Instr::Calc {
            operation: Operation::Add,
            a: 1,
            b: 1,
            c: 0,
        },
        Instr::Bal { n: 3 },
        Instr::New,
        Instr::Calc {
            operation: Operation::Mul,
            a: 1,
            b: 0,
            c: 0,
        },
        Instr::Store {
            width: Width::One,
            a: 1,
            b: 0,
            n: 8,
        },
        Instr::Mov { a: 0, b: 1 },
        RET,
    ],
    image: &[1, 2, 3],
};

const TRIPPED: State = State::Tripped {
    cause: OVER,
    place: Place {
        routine: 0,
        instruction: 4,
    },
};

// So many steps, and the state after them.
static STEPS: [(u32, State); 10] = [
    (1, Running),
    (3, Running),
    (4, Running),
    (9, Running),
    (10, Running),
    (14, Running),
    (100, Running),
    (333, Running),
    (559, Running),
    (560, TRIPPED),
];

// Wants so many steps to be made by one grant, and gives what is seen after it.
fn in_one(rt: &impl Abort, steps: u32, state: State) -> Result<Seen, Fail> {
    let mut bytes = [0; 256];
    let mut axis = AxisHost::new();
    let mut drive = start(module_of(rt, SQUARES, &mut bytes)?)?;
    let answer = drive.grant(&mut axis, steps);
    assert!(rt; answer == Ok((steps, state)));
    Ok(look(&drive, &axis))
}

// Whether grants of so much fuel each make so many steps, and the drive then has this state. Before each of them a call is refused,
// and after it another.
fn are_made(drive: &mut Drive, axis: &mut AxisHost, grants: u32, fuel: u32, state: State) -> bool {
    for _ in 0..grants {
        if drive.restart() != Err(Refusal::Running)
            || drive.grant(axis, fuel) != Ok((fuel, state))
            || drive.grant(axis, 0) != Err(Refusal::Fuel)
        {
            return false;
        }
    }
    true
}

// Wants so many steps to be made by grants of so much fuel and one of what is left, and gives what is seen after them.
fn in_parts(rt: &impl Abort, steps: u32, state: State, part: u32) -> Result<Seen, Fail> {
    assert!(rt; steps > 0 && part > 0);
    let whole = (steps - 1) / part;
    let rest = (steps - 1) % part + 1;
    let mut bytes = [0; 256];
    let mut axis = AxisHost::new();
    let mut drive = start(module_of(rt, SQUARES, &mut bytes)?)?;
    assert!(rt; are_made(&mut drive, &mut axis, whole, part, Running));
    assert!(rt; are_made(&mut drive, &mut axis, 1, rest, state));
    Ok(look(&drive, &axis))
}

#[test]
fn the_same_steps_in_one_grant_and_in_many(rt: HostRuntime) -> Result<(), Fail> {
    for (steps, state) in &STEPS {
        let wanted = in_one(&rt, *steps, *state)?;
        for part in [1, 2, 7, 100] {
            assert!(rt; in_parts(&rt, *steps, *state, part)? == wanted);
        }
    }
    Ok(())
}

// What the steps come to: 54 times 54 is 2916, whose lowest byte is 100, and 55 times 55 is 3025, whose lowest is 209.
static WHAT_THEY_COME_TO: Scenario = Scenario {
    name: "what the steps come to",
    module: SQUARES,
    calls: &[(Grant { fuel: 10_000 }, Ok((560, TRIPPED)))],
    lines: &[
        Register(1, 55),
        Register(2, 3025),
        Byte(2, 3),
        Byte(62, 100),
        Byte(63, 209),
        Byte(64, 0),
    ],
};

#[test]
fn what_the_steps_come_to(rt: HostRuntime) -> Result<(), Fail> {
    WHAT_THEY_COME_TO.play_over_axis(&rt)?;
    Ok(())
}
