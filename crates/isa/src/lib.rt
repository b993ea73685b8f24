//! Instructions: as rows of five fields, and decoded.

#![tactic(auto)]

pub mod access;
pub mod decode;
pub mod encode;
pub mod instr;
pub mod row;
