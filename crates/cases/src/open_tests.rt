use crate::answers::{Case, Refused, answers};
use crate::build::Given::{Bytes, Filled, Pair, Ramp};
use crate::build::RAMP;
use isa::instr::Instr;
use module::open::open;
use module::opened::Counts;
use module::shape::ShapeRow;
use refusal::Refusal;

const RET: [Instr; 1] = [Instr::Ret { a: 0 }];

static CONTENTS: [Case; 14] = [
    // the ramp is accepted at its own length only
    (Ramp(60), Ok(())),
    (Ramp(59), Err(Refused(4, 1, 0, 0))),
    (Ramp(61), Err(Refused(4, 1, 0, 0))),
    // too few bytes for the contents
    (Bytes(&[]), Err(Refused(1, 1, 0, 0))),
    (Bytes(&[1, 0, 0]), Err(Refused(1, 1, 0, 0))),
    (Bytes(&[64, 0, 0, 0]), Err(Refused(1, 1, 0, 0))),
    (Ramp(11), Err(Refused(1, 1, 0, 0))),
    // counts out of range
    (Bytes(&[0, 0, 0, 0]), Err(Refused(2, 1, 0, 0))),
    (Bytes(&[65, 0, 0, 0]), Err(Refused(2, 1, 0, 0))),
    (Bytes(&[1, 0, 1, 16]), Err(Refused(2, 1, 0, 0))),
    (Bytes(&[1, 0, 0, 16]), Err(Refused(1, 1, 0, 0))),
    // a hundred thousand bytes
    (Filled(0), Err(Refused(2, 1, 0, 0))),
    (Ramp(100_060), Err(Refused(4, 1, 0, 0))),
    (Filled(255), Err(Refused(2, 1, 0, 0))),
];

// A wrong entry names its routine.
static ENTRIES: [Case; 5] = [
    (Pair(&RET, &RET, 0, 0), Ok(())),
    (Pair(&RET, &[], 0, 0), Err(Refused(3, 1, 1, 0))),
    (Pair(&RET, &RET, 33, 0), Err(Refused(3, 1, 1, 0))),
    (Pair(&RET, &RET, 0, 9), Err(Refused(3, 1, 1, 0))),
    // the second at byte 29 and not 28
    (
        Bytes(&[
            2, 0, 0, 0, 20, 0, 0, 0, 1, 0, 0, 0, 29, 0, 0, 0, 1, 0, 0, 0, 23, 0, 0, 0, 0, 0, 0, 0,
            23, 0, 0, 0, 0, 0, 0, 0,
        ]),
        Err(Refused(3, 1, 1, 0)),
    ),
];

#[test]
fn contents_and_entries(rt: HostRuntime) {
    answers(&rt, &CONTENTS);
    answers(&rt, &ENTRIES);
}

#[test]
fn an_opened_and_a_taken_module_show_the_same(rt: HostRuntime) {
    let counts = Counts {
        routines: 1,
        total: 6,
        image: 0,
    };
    let opened = open(&RAMP).expect(&rt, "the ramp is a module");
    assert!(rt; opened.counts() == counts);
    assert!(rt; opened.bytes() == &RAMP[..]);
    let refused = opened
        .check(&mut [ShapeRow::BLANK; 5])
        .err()
        .expect(&rt, "too short a sheet");
    assert!(rt; refused.refusal == Refusal::Sheet);
    let checked = refused
        .module
        .check(&mut [ShapeRow::BLANK; 6])
        .ok()
        .expect(&rt, "a module");
    assert!(rt; checked.counts() == counts);
    assert!(rt; checked.bytes() == &RAMP[..]);
}
