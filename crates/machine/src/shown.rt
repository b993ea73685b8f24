// What a machine shows of itself.
ghost use Rattle.std.specs.Prelude.{◌≡◌, List, length};
ghost use Rattle.std.specs.Borrow.{Bor};
ghost use Rattle.std.specs.Option.{option_map};
ghost use Rattle.host.specs.declared.port.Port.{Port};
ghost use Rattle.machine.specs.declared.frame.Frame.{Frame as AFrame};
ghost use Rattle.machine.specs.Level.{level_of};
ghost use Rattle.machine.specs.Shown.{running_in, register_at, byte_at};
ghost use Rattle.machine.specs.View.{world_of};

use crate::frame::Frame;
use crate::machine::{Machine, State};

impl Frame {
    /// Which routine it is.
    pub fn routine(&self) -> usize
        ensures { result ≡ (level_of self.now).routine }
    {
        self.routine
    }

    /// The instruction at which it stands.
    pub fn pc(&self) -> usize
        ensures { result ≡ (level_of self.now).pc }
    {
        self.pc
    }

    /// How many registers there are.
    pub fn depth(&self) -> usize
        ensures { result ≡ length (level_of self.now).registers }
    {
        self.depth
    }
}

impl Machine<'_> {
    /// The running routine. After the end there is none.
    pub fn running(&self) -> Option<&Frame>
        ensures { (ports : List Port) → option_map (λ (frame : Bor AFrame). level_of frame.now) result ≡ running_in (world_of self.now ports).levels }
    {
        match self.state {
            State::Ended => None,
            State::Running | State::Tripped { .. } => Some(self.stack.running()),
        }
    }

    /// Register k of the running routine, if there is one. After the end there is none.
    pub fn register(&self, k: usize) -> Option<u32>
        ensures { (ports : List Port) → result ≡ register_at (world_of self.now ports).levels k }
    {
        self.running()?.register(k)
    }

    /// Byte i of memory, if there is one.
    pub fn byte(&self, i: usize) -> Option<u8>
        ensures { (ports : List Port) → result ≡ byte_at (world_of self.now ports).memory i }
    {
        self.memory.bytes.get(i).copied()
    }
}
