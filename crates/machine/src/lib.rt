//! The machine: nested routines with their registers, memory, and runs over any host.

#![tactic(auto)]

mod access;
mod begin;
pub mod frame;
pub mod machine;
pub mod memory;
mod nested;
mod registers;
mod shown;
pub mod stack;
mod step;
mod within;
