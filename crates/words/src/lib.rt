//! What calculations, divisions and tests make of words of 32 bits.

#![tactic(auto)]

pub mod calculation;
pub mod division;
pub mod test;
