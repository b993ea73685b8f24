//! Tests of the hosts, by the calls that every host has.

#![tactic(auto)]

#[cfg(test)]
mod axis_tests;
#[cfg(test)]
mod counter_tests;
#[cfg(test)]
mod seen;
#[cfg(test)]
mod table_tests;
