use crate::answers::{Case, Refused, answers_over};
use crate::build::Given::{self, Ramp, Single};
use isa::instr::Instr;
use module::shape::ShapeRow;
use std::process::Abort;

// What a row holds that no check wrote.
const OTHER: ShapeRow = ShapeRow {
    depth: 777,
    mask: 0xABCD_EF01,
};

const BLANK: ShapeRow = ShapeRow::BLANK;

const UNTOUCHED: [ShapeRow; 9] = [OTHER; 9];

const BLANKED: [ShapeRow; 9] = [
    BLANK, BLANK, BLANK, BLANK, BLANK, BLANK, OTHER, OTHER, OTHER,
];

// Six rows of the ramp, and three more.
const FILLED: [ShapeRow; 9] = [
    ShapeRow { depth: 0, mask: 0 },
    ShapeRow { depth: 1, mask: 0 },
    ShapeRow { depth: 2, mask: 2 },
    ShapeRow { depth: 2, mask: 2 },
    ShapeRow { depth: 2, mask: 2 },
    ShapeRow { depth: 2, mask: 2 },
    OTHER,
    OTHER,
    OTHER,
];

// A ramp that writes its constant: broken at instruction 2.
const BROKEN: Given<'static> = Single(&[
    Instr::New,
    Instr::Def { n: 1200 },
    Instr::Mov { a: 1, b: 1 },
    Instr::Tick,
    Instr::Get { a: 0, c: 2 },
    Instr::Ret { a: 0 },
]);

// A case, and the first of the rows that the sheet then holds.
type Check = (Case, [ShapeRow; 9]);

// Three rows more than the ramp has instructions.
static NINE_ROWS: [Check; 4] = [
    ((Ramp(60), Ok(())), FILLED),
    ((BROKEN, Err(Refused(9, 1, 0, 2))), BLANKED),
    ((Ramp(60), Ok(())), FILLED),
    ((Ramp(59), Err(Refused(4, 1, 0, 0))), FILLED),
];

// Just as many.
static SIX_ROWS: [Check; 3] = [
    ((Ramp(59), Err(Refused(4, 1, 0, 0))), UNTOUCHED),
    ((Ramp(60), Ok(())), FILLED),
    ((BROKEN, Err(Refused(9, 1, 0, 2))), BLANKED),
];

// One row short.
static FIVE_ROWS: [Check; 2] = [
    ((Ramp(60), Err(Refused(12, 0, 0, 0))), UNTOUCHED),
    ((BROKEN, Err(Refused(12, 0, 0, 0))), UNTOUCHED),
];

static NO_ROWS: [Check; 1] = [((Ramp(60), Err(Refused(12, 0, 0, 0))), UNTOUCHED)];

// Makes these checks, one after the other, over one sheet of so many rows.
fn over<R: Abort + AllocGlobal>(rt: &R, rows: usize, checks: &[Check]) {
    let mut sheet = UNTOUCHED;
    assert!(rt; rows <= 9);
    for (case, filled) in checks {
        answers_over(rt, case, &mut sheet[..rows]);
        assert!(rt; sheet[..rows] == filled[..rows]);
    }
}

#[test]
fn sheets_of_nine_six_five_and_no_rows(rt: HostRuntime) {
    over(&rt, 9, &NINE_ROWS);
    over(&rt, 6, &SIX_ROWS);
    over(&rt, 5, &FIVE_ROWS);
    over(&rt, 0, &NO_ROWS);
}
