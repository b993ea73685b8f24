//! Tests of the other crates, by the public calls.

#![tactic(auto)]

#[cfg(test)]
mod answers;
#[cfg(test)]
mod build;
#[cfg(test)]
mod check_tests;
#[cfg(test)]
mod open_tests;
#[cfg(test)]
mod packing_tests;
#[cfg(test)]
mod sheet_tests;
#[cfg(test)]
mod written;
