use crate::code::{RET, Source};
use crate::scenario::Line::{Anew, At, Faults, Made, Registers};
use crate::scenario::{BEGUN, Scenario, play_each};
use drive::call::Call::{Grant, PowerCycle, Restart};
use faults::cause::Cause;
use faults::fault::Fault;
use isa::instr::{Instr, Kind, Part};
use machine::machine::State;
use machine::machine::State::Running;
use module::entry::Entry;
use refusal::Place;
use std::test::Fail;

// Routine 0 hands 5 to routine 1, which divides it by 0 at its third instruction: the sixth step trips.
const DIVIDES: Source = Source::Module {
    entries: &[
        Entry {
            count: 4,
            arguments: 0,
            results: 0,
        },
        Entry {
            count: 4,
            arguments: 1,
            results: 1,
        },
    ],
    instrs: &[
        Instr::Def { n: 5 },
        Instr::New,
        Instr::Call { a: 1, b: 0, n: 1 },
        RET,
        Instr::New,
        Instr::Def { n: 0 },
        Instr::Divide {
            part: Part::Quotient,
            kind: Kind::Unsigned,
            a: 1,
            b: 0,
            c: 2,
        },
        Instr::Ret { a: 1 },
    ],
    image: &[],
};

const DIVISION: Place = Place {
    routine: 1,
    instruction: 2,
};

const TRIPPED: State = State::Tripped {
    cause: Cause::ZeroDivisor,
    place: DIVISION,
};

const TRIP: Fault = Fault {
    cause: Cause::ZeroDivisor,
    place: DIVISION,
    marked: false,
};

const MARKED: Fault = Fault {
    marked: true,
    ..TRIP
};

static SCENARIOS: [Scenario; 3] = [
    Scenario {
        name: "questions are of the routine that runs",
        module: DIVIDES,
        calls: &[],
        lines: &[
            Made(Grant { fuel: 1 }, Ok((1, Running))),
            At(0, 1),
            Registers(&[5]),
            Made(Grant { fuel: 1 }, Ok((1, Running))),
            At(0, 2),
            Registers(&[5, 0]),
            Made(Grant { fuel: 1 }, Ok((1, Running))),
            At(1, 0),
            Registers(&[5]),
            Made(Grant { fuel: 1 }, Ok((1, Running))),
            At(1, 1),
            Registers(&[5, 0]),
            Made(Grant { fuel: 1 }, Ok((1, Running))),
            At(1, 2),
            Registers(&[5, 0, 0]),
        ],
    },
    Scenario {
        name: "a trip in a nested routine has its place",
        module: DIVIDES,
        calls: &[(Grant { fuel: 10_000 }, Ok((6, TRIPPED)))],
        lines: &[At(1, 2), Registers(&[5, 0, 0]), Faults(&[TRIP])],
    },
    Scenario {
        name: "a run begins again at the first instruction of routine 0",
        module: DIVIDES,
        calls: &[(Grant { fuel: 4 }, Ok((4, Running)))],
        lines: &[
            At(1, 1),
            Made(PowerCycle, BEGUN),
            Anew(&[], &[0, 50, 0, 0]),
            Made(Grant { fuel: 10_000 }, Ok((6, TRIPPED))),
            Made(Restart, BEGUN),
            Anew(&[TRIP], &[0, 50, 0, 0]),
            Made(Grant { fuel: 10_000 }, Ok((6, TRIPPED))),
            Made(PowerCycle, BEGUN),
            Anew(&[MARKED, MARKED], &[0, 50, 0, 0]),
            At(0, 0),
            Registers(&[]),
            Made(Grant { fuel: 1 }, Ok((1, Running))),
            At(0, 1),
            Registers(&[5]),
        ],
    },
];

#[test]
fn nested_routines(rt: HostRuntime) -> Result<(), Fail> {
    play_each(&rt, &SCENARIOS)
}
