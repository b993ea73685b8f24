//! The drive: a checked module that runs over a host, and what its callers ask of it.

#![tactic(auto)]

pub mod call;
pub mod drive;
pub mod run;
