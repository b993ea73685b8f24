//! Modules: opened and checked, and what a checked one shows.

#![tactic(auto)]

pub mod body;
mod bytes;
pub mod check;
pub mod checked;
pub mod contents;
pub mod entry;
mod fill;
pub mod limits;
pub mod open;
pub mod opened;
pub mod places;
pub mod refused;
mod routine;
mod rule;
mod rules;
pub mod shape;
pub mod site;
