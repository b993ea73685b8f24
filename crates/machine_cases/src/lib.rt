//! Tests of what a run is made of: words, faults, memory and steps.

#![tactic(auto)]

#[cfg(test)]
mod faults_tests;
#[cfg(test)]
mod step_tests;
#[cfg(test)]
mod words_tests;
