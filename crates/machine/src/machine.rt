ghost use Rattle.std.specs.Prelude.{◌≡◌, true, []};
ghost use Rattle.module.specs.Told.{bytes_of};
ghost use Rattle.machine.specs.Foretold.{as_foretold};
ghost use Rattle.machine.specs.Parts.{world_from};

use crate::memory::Memory;
use crate::stack::Stack;
use faults::cause::Cause;
use module::checked::Checked;
use refusal::Place;

/// Whether a machine runs.
#[derive(Clone, Copy, PartialEq, Eq, Debug)]
pub enum State {
    Running,
    Ended,
    Tripped { cause: Cause, place: Place },
}

/// What runs on a checked module: its state, the nested routines and memory. It is always as the check foretold.
#[derive(Drop)]
pub struct Machine<'a> {
    pub(crate) checked: Checked<'a>,
    pub state: State,
    pub(crate) stack: Stack,
    pub(crate) memory: Memory,
    // The ports have no part in it, so that it is said over none.
    ghost foretold: { as_foretold (bytes_of checked.opened) (world_from state stack memory []) ≡ true },
}
