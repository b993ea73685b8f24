ghost use Rattle.std.specs.Prelude.{◌≡◌};
ghost use Rattle.isa.specs.declared.row.Row.{Row};
ghost use Rattle.isa.specs.declared.instr.Instr.TheVariants.{Calc, Divide, Branch};
ghost use Rattle.isa.specs.Form.{well_formed, decoded, instruction, is_kind, is_width, kind, width};
ghost use Rattle.isa.specs.Codes.{formed_if};

use crate::instr::{Instr, Kind, Operation, Part, Test, Width};
use crate::row::{Malformed, Row};

impl TryFrom<u32> for Kind {
    type Error = Malformed;

    ghost try_from_gives = { λ n r. r ≡ formed_if (is_kind n) (kind n) };

    #[inline(always)]
    fn try_from(n: u32) -> Result<Kind, Malformed> {
        match n {
            0 => Ok(Kind::Unsigned),
            1 => Ok(Kind::TowardsZero),
            2 => Ok(Kind::Downwards),
            _ => Err(Malformed),
        }
    }
}

impl TryFrom<u8> for Width {
    type Error = Malformed;

    ghost try_from_gives = { λ c r. r ≡ formed_if (is_width c) (width c) };

    #[inline(always)]
    fn try_from(c: u8) -> Result<Width, Malformed> {
        match c {
            1 => Ok(Width::One),
            2 => Ok(Width::Two),
            4 => Ok(Width::Four),
            _ => Err(Malformed),
        }
    }
}

// Whether a row is well formed: one match over opcodes, with guards on widths and kinds, so that the form of a row is read in one
// place.
fn is_formed(row: Row) -> bool
    ensures { result ≡ well_formed row }
{
    let Row { op, a, b, c, n } = row;
    match op {
        0 | 2 | 26 if a == 0 && b == 0 && c == 0 && n == 0 => true,
        1 | 18 if a == 0 && b == 0 && c == 0 => true,
        3..=4 if c == 0 && n == 0 => true,
        5..=7 | 10..=15 if n == 0 => true,
        8..=9 if n <= 2 => true,
        16..=17 if c == 1 || c == 2 || c == 4 => true,
        19..=22 if c == 0 => true,
        23 if b == 0 && c == 0 && n == 0 => true,
        24 if b == 0 && n == 0 => true,
        25 if a == 0 && n == 0 => true,
        _ => false,
    }
}

/// Where the five fields of a row are read: from the row itself, or from the bytes in which it stands.
pub trait Fields {
    // The row whose fields they are.
    ghost whole: { Self → Row };

    fn op(&self) -> u8
        ensures { result ≡ (whole self.now).op };

    fn a(&self) -> u8
        ensures { result ≡ (whole self.now).a };

    fn b(&self) -> u8
        ensures { result ≡ (whole self.now).b };

    fn c(&self) -> u8
        ensures { result ≡ (whole self.now).c };

    fn n(&self) -> u32
        ensures { result ≡ (whole self.now).n };
}

impl Fields for Row {
    ghost whole = { λ r. r };

    #[inline(always)]
    fn op(&self) -> u8 {
        self.op
    }

    #[inline(always)]
    fn a(&self) -> u8 {
        self.a
    }

    #[inline(always)]
    fn b(&self) -> u8 {
        self.b
    }

    #[inline(always)]
    fn c(&self) -> u8 {
        self.c
    }

    #[inline(always)]
    fn n(&self) -> u32 {
        self.n
    }
}

fn calc<F: Fields>(row: &F, operation: Operation) -> Instr
    ensures { result ≡ Calc operation (F.whole row.now).a (F.whole row.now).b (F.whole row.now).c }
{
    Instr::Calc {
        operation,
        a: row.a(),
        b: row.b(),
        c: row.c(),
    }
}

fn divide<F: Fields>(row: &F, part: Part) -> Instr
    ensures { result ≡ Divide part (kind (F.whole row.now).n) (F.whole row.now).a (F.whole row.now).b (F.whole row.now).c }
{
    Instr::Divide {
        part,
        kind: Kind::try_from(row.n()).unwrap_or(Kind::Downwards),
        a: row.a(),
        b: row.b(),
        c: row.c(),
    }
}

fn branch<F: Fields>(row: &F, test: Test) -> Instr
    ensures { result ≡ Branch test (F.whole row.now).a (F.whole row.now).b (F.whole row.now).n }
{
    Instr::Branch {
        test,
        a: row.a(),
        b: row.b(),
        n: row.n(),
    }
}

/// The instruction of a well-formed row. A row that is not well formed reads as one, too: what names nothing as the last of its
/// kind.
// An arm for each opcode, so that a machine finds what to do by one jump.
#[inline(always)]
pub fn instruction<F: Fields>(row: &F) -> Instr
    ensures { result ≡ instruction (F.whole row.now) }
{
    match row.op() {
        0 => Instr::New,
        1 => Instr::Def { n: row.n() },
        2 => Instr::Kill,
        3 => Instr::Mov {
            a: row.a(),
            b: row.b(),
        },
        4 => Instr::Swap {
            a: row.a(),
            b: row.b(),
        },
        5 => calc(row, Operation::Add),
        6 => calc(row, Operation::Sub),
        7 => calc(row, Operation::Mul),
        8 => divide(row, Part::Quotient),
        9 => divide(row, Part::Remainder),
        10 => calc(row, Operation::And),
        11 => calc(row, Operation::Or),
        12 => calc(row, Operation::Xor),
        13 => calc(row, Operation::Sl),
        14 => calc(row, Operation::Srl),
        15 => calc(row, Operation::Sra),
        16 => Instr::Load {
            width: Width::try_from(row.c()).unwrap_or(Width::Four),
            a: row.a(),
            b: row.b(),
            n: row.n(),
        },
        17 => Instr::Store {
            width: Width::try_from(row.c()).unwrap_or(Width::Four),
            a: row.a(),
            b: row.b(),
            n: row.n(),
        },
        18 => Instr::Bal { n: row.n() },
        19 => branch(row, Test::Equal),
        20 => branch(row, Test::Less),
        21 => branch(row, Test::LessSigned),
        22 => Instr::Call {
            a: row.a(),
            b: row.b(),
            n: row.n(),
        },
        23 => Instr::Ret { a: row.a() },
        24 => Instr::Get {
            a: row.a(),
            c: row.c(),
        },
        25 => Instr::Put {
            b: row.b(),
            c: row.c(),
        },
        _ => Instr::Tick,
    }
}

/// The instruction of a row, or none if the row is not well formed.
#[inline(always)]
pub fn decode(row: Row) -> Option<Instr>
    ensures { result ≡ decoded row }
{
    if is_formed(row) {
        Some(instruction(&row))
    } else {
        None
    }
}
