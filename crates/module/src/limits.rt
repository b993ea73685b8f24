//! The most that there may be of everything.

ghost use Rattle.std.specs.Prelude.{◌≡◌, ℕ, true, List, take, is_ok};
ghost use Rattle.module.specs.Layout.{admitted, opening};

pub const ROUTINES: usize = 64;

pub const INSTRUCTIONS: usize = 4_096;

pub const IMAGE: usize = 4_096;

pub const ARGUMENTS: u8 = 32;

pub const RESULTS: u8 = 8;

pub const REGISTERS: u16 = 32;

/// Whether a module may have so many routines and an image of such a length.
pub fn admit(routines: usize, image: usize) -> bool
    ensures { result ≡ admitted routines image }
{
    (1..=ROUTINES).contains(&routines) && image <= IMAGE
}

// The length of the longest module in bytes.
const LENGTH: usize = 4 + 8 * ROUTINES + 8 * INSTRUCTIONS + IMAGE;

/// How many bytes of an input decide every module: a module that opens has no more, and a longer input is refused as its
/// first bytes are.
pub fn deciding_length() -> usize
    ensures value { result ≡ 37381 }
    ensures decides { (bs : List ℕ) → opening (take result bs) ≡ opening bs }
    ensures whole { (bs : List ℕ) → is_ok (opening bs) ≡ true → take result bs ≡ bs }
{
    LENGTH + 1
}
