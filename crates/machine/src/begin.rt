// Where a run begins.
ghost use Rattle.std.specs.Prelude.{◌≡◌, ◌-◌, ◌≤◌, List, ◌++◌, length, replicate};
ghost use Rattle.host.specs.declared.port.Port.{Port};
ghost use Rattle.module.specs.Told.{bytes_of};
ghost use Rattle.machine.specs.Foretold.{begun, NeverStuck};
ghost use Rattle.machine.specs.View.{module_of, world_of};

use crate::machine::{Machine, State};
use crate::memory::{BYTES, Memory};
use crate::stack::Stack;
use module::checked::Checked;

impl Memory {
    // An image, and then zeros.
    fn holding(image: &[u8]) -> Memory
        requires { length image.now ≤ 4096 }
        ensures { result.bytes ≡ image.now ++ replicate (4096 - length image.now) 0 }
    {
        let mut bytes = [0; BYTES];
        bytes[..image.len()].copy_from_slice(image);
        Memory { bytes }
    }
}

impl<'a> Machine<'a> {
    /// A machine where the run of a module begins. Runs of a checked module never get stuck.
    pub fn begin(checked: Checked<'a>) -> Machine<'a>
        ensures never_stuck { NeverStuck (bytes_of checked.entry.opened) }
        ensures begun { (ports : List Port) → world_of result ports ≡ begun (bytes_of checked.entry.opened) ports }
        ensures bytes { module_of result ≡ bytes_of checked.entry.opened }
    {
        Machine {
            memory: Memory::holding(checked.image()),
            checked,
            state: State::Running,
            stack: Stack::first(),
        }
    }

    /// Begins the run again, in the place of this one.
    pub fn begin_again(&mut self)
        ensures begun { (ports : List Port) → world_of self.new ports ≡ begun (module_of self.old) ports }
        ensures bytes { module_of self.new ≡ module_of self.old }
    {
        self.state = State::Running;
        self.stack = Stack::first();
        self.memory = Memory::holding(self.checked.image());
    }
}
