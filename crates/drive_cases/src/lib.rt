//! Tests of the drive, by the public calls.

#![tactic(auto)]

#[cfg(test)]
mod calls_tests;
#[cfg(test)]
mod code;
#[cfg(test)]
mod documents_tests;
#[cfg(test)]
mod faults_tests;
#[cfg(test)]
mod hosts_tests;
mod lamp;
#[cfg(test)]
mod memory_tests;
#[cfg(test)]
mod nested_tests;
#[cfg(test)]
mod program;
#[cfg(test)]
mod questions_tests;
#[cfg(test)]
mod runs_tests;
#[cfg(test)]
mod scenario;
#[cfg(test)]
mod seen;
#[cfg(test)]
mod splits_tests;
#[cfg(test)]
mod turns_tests;
