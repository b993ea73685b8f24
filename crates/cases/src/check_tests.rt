use crate::answers::{Case, Refused, answers};
use crate::build::Given::{Bytes, Pair, Single};
use isa::instr::{Instr, Test};

const NEW: Instr = Instr::New;

const SEVEN: Instr = Instr::Def { n: 7 };

const RET: Instr = Instr::Ret { a: 0 };

const CALL: Instr = Instr::Call { a: 0, b: 0, n: 1 };

static REGISTERS: [Case; 2] = [
    (
        Single(&[
            NEW, NEW, NEW, NEW, NEW, NEW, NEW, NEW, NEW, NEW, NEW, NEW, NEW, NEW, NEW, NEW, NEW,
            NEW, NEW, NEW, NEW, NEW, NEW, NEW, NEW, NEW, NEW, NEW, NEW, NEW, NEW, NEW, NEW, RET,
        ]),
        Err(Refused(6, 1, 0, 32)),
    ),
    (
        Single(&[
            NEW, NEW, NEW, NEW, NEW, NEW, NEW, NEW, NEW, NEW, NEW, NEW, NEW, NEW, NEW, NEW, NEW,
            NEW, NEW, NEW, NEW, NEW, NEW, NEW, NEW, NEW, NEW, NEW, NEW, NEW, NEW, NEW, RET, RET,
        ]),
        Ok(()),
    ),
];

// Each rule names the place that breaks it.
static PLACES: [Case; 7] = [
    // DEF 7, and an instruction of opcode 27
    (
        Bytes(&[
            1, 0, 0, 0, 12, 0, 0, 0, 2, 0, 0, 0, 1, 0, 0, 0, 7, 0, 0, 0, 27, 0, 0, 0, 0, 0, 0, 0,
        ]),
        Err(Refused(5, 1, 0, 1)),
    ),
    (
        Single(&[SEVEN, Instr::Kill, Instr::Kill, RET]),
        Err(Refused(6, 1, 0, 2)),
    ),
    (Single(&[SEVEN, CALL, RET]), Err(Refused(7, 1, 0, 1))),
    (
        Single(&[SEVEN, Instr::Put { b: 1, c: 0 }, RET]),
        Err(Refused(8, 1, 0, 1)),
    ),
    (
        Single(&[SEVEN, Instr::Mov { a: 0, b: 0 }, RET]),
        Err(Refused(9, 1, 0, 1)),
    ),
    (
        Single(&[SEVEN, Instr::Bal { n: 3 }, NEW, RET]),
        Err(Refused(10, 1, 0, 1)),
    ),
    (Single(&[SEVEN, Instr::Tick]), Err(Refused(11, 1, 0, 1))),
];

static LATER_ROUTINES: [Case; 5] = [
    (Pair(&[NEW, CALL, RET], &[RET], 1, 1), Ok(())),
    (
        Pair(&[NEW, CALL, RET], &[Instr::Kill, RET], 1, 1),
        Err(Refused(8, 1, 1, 1)),
    ),
    (
        Pair(&[NEW, CALL, RET], &[RET, Instr::Tick], 1, 1),
        Err(Refused(11, 1, 1, 1)),
    ),
    (
        Pair(&[NEW, CALL, RET], &[RET], 2, 1),
        Err(Refused(8, 1, 0, 1)),
    ),
    (
        Pair(&[Instr::Def { n: 1 }, CALL, RET], &[RET], 1, 1),
        Err(Refused(9, 1, 0, 1)),
    ),
];

// A call without arguments and results still has its registers.
static EMPTY_CALLS: [Case; 3] = [
    // at the depth
    (
        Pair(&[NEW, Instr::Call { a: 1, b: 1, n: 1 }, RET], &[RET], 0, 0),
        Ok(()),
    ),
    // results past it
    (
        Pair(&[NEW, Instr::Call { a: 2, b: 1, n: 1 }, RET], &[RET], 0, 0),
        Err(Refused(8, 1, 0, 1)),
    ),
    // arguments past it
    (
        Pair(&[NEW, Instr::Call { a: 1, b: 2, n: 1 }, RET], &[RET], 0, 0),
        Err(Refused(8, 1, 0, 1)),
    ),
];

// The shape follows the text past RET and BAL.
static PAST_RET_AND_BAL: [Case; 3] = [
    (
        Single(&[SEVEN, RET, Instr::Put { b: 0, c: 0 }, RET]),
        Ok(()),
    ),
    (
        Single(&[SEVEN, Instr::Bal { n: 1 }, Instr::Get { a: 0, c: 0 }, RET]),
        Err(Refused(9, 1, 0, 2)),
    ),
    // a branch to itself
    (
        Single(&[
            SEVEN,
            Instr::Branch {
                test: Test::Equal,
                a: 0,
                b: 0,
                n: 1,
            },
            RET,
        ]),
        Ok(()),
    ),
];

// Rules are tried in turn.
static TWO_BREACHES: [Case; 2] = [
    (
        Single(&[Instr::Mov { a: 0, b: 0 }, Instr::Kill, RET]),
        Err(Refused(6, 1, 0, 1)),
    ),
    (
        Single(&[
            Instr::Def { n: 1 },
            Instr::Swap { a: 0, b: 0 },
            Instr::Put { b: 1, c: 0 },
            RET,
        ]),
        Err(Refused(8, 1, 0, 2)),
    ),
];

#[test]
fn thirty_two_registers_and_no_more(rt: HostRuntime) {
    answers(&rt, &REGISTERS);
}

#[test]
fn rules_and_the_places_that_break_them(rt: HostRuntime) {
    answers(&rt, &PLACES);
    answers(&rt, &LATER_ROUTINES);
    answers(&rt, &EMPTY_CALLS);
    answers(&rt, &PAST_RET_AND_BAL);
    answers(&rt, &TWO_BREACHES);
}
