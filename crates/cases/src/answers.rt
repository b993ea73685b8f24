//! Answers, with a refusal by its four numbers.

use crate::build::Given;
use module::check::examine;
use module::shape::ShapeRow;
use refusal::Refusal;
use std::process::Abort;

/// The number, the layer, the routine and the instruction of a refusal, as the documents have them.
#[derive(Clone, Copy, PartialEq, Eq, Debug)]
pub(crate) struct Refused(pub u8, pub u8, pub u16, pub u16);

impl From<Refusal> for Refused {
    fn from(refusal: Refusal) -> Refused {
        Refused(
            refusal.number(),
            refusal.layer().into(),
            refusal.routine(),
            refusal.instruction(),
        )
    }
}

// What open, and then check over this sheet, answer.
fn answer(bytes: &[u8], sheet: &mut [ShapeRow]) -> Result<(), Refused> {
    examine(bytes, sheet)?;
    Ok(())
}

/// What open is given, and what open and check then answer.
pub(crate) type Case = (Given<'static>, Result<(), Refused>);

/// Wants this answer over this sheet.
pub(crate) fn answers_over<R: Abort + AllocGlobal>(rt: &R, case: &Case, sheet: &mut [ShapeRow]) {
    let (given, wanted) = case;
    let bytes = given.bytes(rt.alloc()).expect(rt, "no memory");
    assert_eq!(rt; answer(bytes.as_slice(), sheet), *wanted);
}

/// Wants these answers, each over a sheet that is long enough.
pub(crate) fn answers<R: Abort + AllocGlobal>(rt: &R, cases: &[Case]) {
    for case in cases {
        answers_over(rt, case, &mut [ShapeRow::BLANK; 64]);
    }
}
