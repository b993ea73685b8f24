ghost use Rattle.std.specs.Prelude.{◌≡◌, ◌<◌, ◌≢◌, int_div};
ghost use Rattle.std.specs.Int.{w32};
ghost use Rattle.std.proofs.Common.{of_z};
ghost use Rattle.words.specs.Words.{word, downwards, read_as, quotient_of, divided, RemainderLaw, DivisionExamples};

use isa::instr::{Kind, Part};

// Rounded towards zero.
fn divide_towards_zero(x: i32, y: i32) -> u32
    requires { 0 < of_z w32 y }
    ensures { result ≡ word (int_div x y) }
{
    x.wrapping_div(y).cast_unsigned()
}

// Rounded downwards: where the signs differ, the quotient of the magnitudes is rounded upwards.
fn divide_downwards(x: i32, y: i32) -> u32
    requires { 0 < of_z w32 y }
    ensures { result ≡ word (downwards x y) }
{
    if (x < 0) == (y < 0) {
        divide_towards_zero(x, y)
    } else {
        x.unsigned_abs().div_ceil(y.unsigned_abs()).wrapping_neg()
    }
}

fn quotient(kind: Kind, b: u32, c: u32) -> u32
    requires { 0 < c }
    ensures { result ≡ word (quotient_of kind (read_as kind b) (read_as kind c)) }
{
    match kind {
        Kind::Unsigned => b / c,
        Kind::TowardsZero => divide_towards_zero(b.cast_signed(), c.cast_signed()),
        Kind::Downwards => divide_downwards(b.cast_signed(), c.cast_signed()),
    }
}

// It answers, and `divide` adds the law and the examples, which so are shown once.
fn part_of(part: Part, kind: Kind, b: u32, c: u32) -> Option<u32>
    ensures { result ≡ divided part kind b c }
{
    if c == 0 {
        return None;
    }
    let q = quotient(kind, b, c);
    match part {
        Part::Quotient => Some(q),
        Part::Remainder => Some(b.wrapping_sub(q.wrapping_mul(c))),
    }
}

/// A part of b divided by c, or none if c is 0.
pub fn divide(part: Part, kind: Kind, b: u32, c: u32) -> Option<u32>
    ensures value { result ≡ divided part kind b c }
    ensures law { (c ≢ 0) → RemainderLaw kind (read_as kind b) (read_as kind c) }
    ensures examples { DivisionExamples }
{
    part_of(part, kind, b, c)
}
