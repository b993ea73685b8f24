ghost use Rattle.std.specs.Prelude.{◌≡◌};
ghost use Rattle.words.specs.Words.{calculated, shifted_right};

use isa::instr::Operation;

// Shifted right, filled with the sign bit. A shift by at most 31 bits, `c.min(31)`, was tried for both tests: that it leaves only
// copies of the sign from 32 on stayed open.
fn shift_signed(b: u32, c: u32) -> u32
    ensures { result ≡ shifted_right b c }
{
    if c < 32 {
        (b.cast_signed() >> c).cast_unsigned()
    } else if b < 0x8000_0000 {
        0
    } else {
        u32::MAX
    }
}

/// The word that an operation makes of two.
pub fn calculate(operation: Operation, b: u32, c: u32) -> u32
    ensures { result ≡ calculated operation b c }
{
    match operation {
        Operation::Add => b.wrapping_add(c),
        Operation::Sub => b.wrapping_sub(c),
        Operation::Mul => b.wrapping_mul(c),
        Operation::And => b & c,
        Operation::Or => b | c,
        Operation::Xor => b ^ c,
        Operation::Sl => b.checked_shl(c).unwrap_or(0),
        Operation::Srl => b.checked_shr(c).unwrap_or(0),
        Operation::Sra => shift_signed(b, c),
    }
}
