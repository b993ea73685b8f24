use faults::list::FaultList;
use machine::machine::Machine;

mod calls;
mod questions;
mod steps;

/// What runs on a checked module, and the faults of its runs.
#[derive(Drop)]
pub struct Drive<'a> {
    machine: Machine<'a>,
    faults: FaultList,
}
