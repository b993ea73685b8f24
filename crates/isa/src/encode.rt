ghost use Rattle.std.specs.Prelude.{◌≡◌, Some};
ghost use Rattle.isa.specs.Form.{decoded, row, encoded, opcode, part_code, kind_number, bytes, test_code};

use crate::instr::{Instr, Kind, Operation, Part, Test, Width};
use crate::row::Row;

impl From<Operation> for u8 {
    ghost from_gives = { λ operation op. op ≡ opcode operation };

    fn from(operation: Operation) -> u8 {
        match operation {
            Operation::Add => 5,
            Operation::Sub => 6,
            Operation::Mul => 7,
            Operation::And => 10,
            Operation::Or => 11,
            Operation::Xor => 12,
            Operation::Sl => 13,
            Operation::Srl => 14,
            Operation::Sra => 15,
        }
    }
}

impl From<Part> for u8 {
    ghost from_gives = { λ part op. op ≡ part_code part };

    fn from(part: Part) -> u8 {
        match part {
            Part::Quotient => 8,
            Part::Remainder => 9,
        }
    }
}

impl From<Kind> for u32 {
    ghost from_gives = { λ kind n. n ≡ kind_number kind };

    fn from(kind: Kind) -> u32 {
        match kind {
            Kind::Unsigned => 0,
            Kind::TowardsZero => 1,
            Kind::Downwards => 2,
        }
    }
}

/// How many bytes there are.
impl From<Width> for u8 {
    ghost from_gives = { λ width n. n ≡ bytes width };

    fn from(width: Width) -> u8 {
        match width {
            Width::One => 1,
            Width::Two => 2,
            Width::Four => 4,
        }
    }
}

impl From<Test> for u8 {
    ghost from_gives = { λ test op. op ≡ test_code test };

    fn from(test: Test) -> u8 {
        match test {
            Test::Equal => 19,
            Test::Less => 20,
            Test::LessSigned => 21,
        }
    }
}

// The row of an opcode, with no field named.
fn bare(op: u8) -> Row
    ensures { result ≡ row op 0 0 0 0 }
{
    Row {
        op,
        ..Row::default()
    }
}

impl From<Instr> for Row {
    ghost from_gives = { λ instr row. row ≡ encoded instr };

    fn from(instr: Instr) -> Row {
        match instr {
            Instr::New => bare(0),
            Instr::Def { n } => Row { n, ..bare(1) },
            Instr::Kill => bare(2),
            Instr::Mov { a, b } => Row { a, b, ..bare(3) },
            Instr::Swap { a, b } => Row { a, b, ..bare(4) },
            Instr::Calc { operation, a, b, c } => Row {
                a,
                b,
                c,
                ..bare(operation.into())
            },
            Instr::Divide {
                part,
                kind,
                a,
                b,
                c,
            } => Row {
                op: part.into(),
                a,
                b,
                c,
                n: kind.into(),
            },
            Instr::Load { width, a, b, n } => Row {
                op: 16,
                a,
                b,
                c: width.into(),
                n,
            },
            Instr::Store { width, a, b, n } => Row {
                op: 17,
                a,
                b,
                c: width.into(),
                n,
            },
            Instr::Bal { n } => Row { n, ..bare(18) },
            Instr::Branch { test, a, b, n } => Row {
                a,
                b,
                n,
                ..bare(test.into())
            },
            Instr::Call { a, b, n } => Row {
                a,
                b,
                n,
                ..bare(22)
            },
            Instr::Ret { a } => Row { a, ..bare(23) },
            Instr::Get { a, c } => Row { a, c, ..bare(24) },
            Instr::Put { b, c } => Row { b, c, ..bare(25) },
            Instr::Tick => bare(26),
        }
    }
}

/// The row of an instruction: decoded it is the instruction again, and no other row is.
pub fn encode(instr: Instr) -> Row
    ensures row { result ≡ encoded instr }
    ensures again { decoded result ≡ Some instr }
    ensures undoes { (x : Row) → decoded x ≡ Some instr → result ≡ x }
{
    Row::from(instr)
}
