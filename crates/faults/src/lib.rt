//! Faults: why a step trips, and the list of the newest sixteen faults with the marks of their power cycles.

#![tactic(auto)]

pub mod cause;
pub mod fault;
pub mod list;
pub mod table;
