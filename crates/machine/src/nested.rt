// What an instruction does to the nested routines.
ghost use Rattle.std.specs.Prelude.{◌≡◌, ◌+◌, ◌^◌, ◌<◌, ◌≤◌, [], ◌∷◌, length, drop};
ghost use Rattle.machine.specs.Level.{level, level_of, Variables, onward, copied, values_from, given};
ghost use Rattle.machine.specs.Nested.{running_routine, waiting, newest_of};

use crate::frame::Frame;
use crate::stack::{MOST_NESTED, Stack, Top};

impl Stack {
    // Routine 0 at its first instruction, with no registers.
    pub(crate) fn first() -> Stack
        ensures running { running_routine result ≡ level 0 0 [] }
        ensures waiting { waiting result ≡ [] }
    {
        Stack {
            frames: [Frame::new(0); MOST_NESTED],
            top: Top { index: 0 },
        }
    }

    // The running routine.
    pub(crate) fn running(&self) -> &Frame
        ensures { level_of result.now ≡ running_routine self.now }
    {
        &self.frames[self.top.index]
    }

    // How many routines wait.
    pub(crate) fn callers(&self) -> usize
        ensures { result ≡ length (waiting self.now) }
    {
        self.top.index
    }

    // The newest of the waiting routines.
    pub(crate) fn caller(&self) -> &Frame
        requires { 0 < length (waiting self.now) }
        ensures { level_of result.now ≡ newest_of (waiting self.now) }
    {
        &self.frames[self.top.index - 1]
    }

    // A routine begins above the running one, with copies of count of its registers from b on.
    pub(crate) fn enter(&mut self, routine: usize, b: u8, count: u8)
        requires room { length (waiting self.old) < 31 }
        requires there { b + count ≤ length (running_routine self.old).registers }
        ensures running { running_routine self.new ≡ level routine 0 (copied (running_routine self.old).registers b count) }
        ensures waiting { waiting self.new ≡ running_routine self.old ∷ waiting self.old }
    {
        let caller = self.top.index;
        let (below, above) = self.frames.split_at_mut(caller + 1);
        above[0].begin(routine, below[caller].span(b, count));
        self.top = Top { index: caller + 1 };
    }

    // The running routine returns count of its registers, from a on, to the newest of those that wait, which takes them from
    // register into on.
    pub(crate) fn leave(&mut self, a: u8, into: u8, count: u8)
        requires some { 0 < length (waiting self.old) }
        requires there { a + count ≤ length (running_routine self.old).registers }
        requires room { into + count ≤ length (newest_of (waiting self.old)).registers }
        requires variables { Variables (newest_of (waiting self.old)) into count }
        requires place { (newest_of (waiting self.old)).pc < 2 ^ 32 }
        ensures running { running_routine self.new ≡ onward (newest_of (waiting self.old)) (given (newest_of (waiting self.old)).registers into (values_from (running_routine self.old).registers a count)) }
        ensures waiting { waiting self.new ≡ drop 1 (waiting self.old) }
    {
        let ended = self.top.index;
        let index = ended - 1;
        let (below, above) = self.frames.split_at_mut(ended);
        let caller = &mut below[index];
        caller.take(into as usize, above[0].span(a, count));
        caller.skip();
        self.top = Top { index };
    }
}
