ghost use Rattle.std.specs.Prelude.{◌≡◌};
ghost use Rattle.words.specs.Words.{passing};

use isa::instr::Test;

/// Whether two words pass a test.
pub fn passes(test: Test, a: u32, b: u32) -> bool
    ensures { result ≡ passing test a b }
{
    match test {
        Test::Equal => a == b,
        Test::Less => a < b,
        Test::LessSigned => a.cast_signed() < b.cast_signed(),
    }
}
