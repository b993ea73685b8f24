// The steps that a routine makes by itself, while those that wait below it stay as they are.
ghost use Rattle.std.specs.Prelude.{◌≡◌, ◌+◌, ◌-◌, ◌<◌, ◌≤◌, length, Some, IfSome};
ghost use Rattle.std.specs.Option.{IfNone, IsSomeAnd};
ghost use Rattle.machine.specs.declared.within.Stop.TheVariants.{Trip};
ghost use Rattle.module.specs.Told.{bytes_behind, routine_of};
ghost use Rattle.machine.specs.Level.{level_of, value, jumped};
ghost use Rattle.machine.specs.Foretold.{AsForetold};
ghost use Rattle.machine.specs.Nested.{running_routine, waiting};
ghost use Rattle.machine.specs.Within.{Moves, Stops, MakesOwn, StopsWith};

use crate::frame::{Frame, Register};
use crate::memory::Memory;
use crate::stack::Stack;
use faults::cause::Cause;
use host::Host;
use isa::instr::Instr;
use module::body::Body;
use module::site::Site;
use words::calculation::calculate;
use words::division::divide;
use words::test::passes;

/// Why a routine makes no further step by itself: its instruction calls, returns or trips.
#[derive(Clone, Copy)]
pub(crate) enum Stop {
    Call { a: u8, b: u8, n: u32 },
    Return { a: u8 },
    Trip(Cause),
}

// A value to go on with, or the cause of a trip for want of one.
#[inline(always)]
fn or_trip<T: Copy>(value: Option<T>, cause: Cause, stop: &mut Option<Stop>) -> Option<T>
    ensures value { result ≡ value }
    ensures stop { IfNone value (stop.new ≡ Some (Trip cause)) }
{
    if value.is_none() {
        *stop = Some(Stop::Trip(cause));
    }
    value
}

impl Frame {
    // The address that register b and n give, as a whole number.
    fn address(&self, b: u8, n: u32) -> u64
        requires { b < length (level_of self.now).registers }
        ensures { result ≡ value (level_of self.now) b + n }
    {
        u64::from(self.read(b)) + u64::from(n)
    }

    // One step at the instruction pc, and which instruction is next; or none, and why the routine stops. Each arm ends the function,
    // so that each has its own proof. The place is a local of the loop and not the frame's own, so that a processor keeps it in a
    // register; and the reason is not in the answer, which the loop would carry along.
    #[inline(always)]
    fn perform<H: Host>(
        &mut self,
        code: Body<'_>,
        pc: usize,
        memory: &mut Memory,
        host: &mut H,
        stop: &mut Option<Stop>,
    ) -> Option<usize>
        requires routine { routine_of code ≡ (level_of self.old).routine }
        requires foretold { AsForetold (bytes_behind code) (jumped (level_of self.old) pc) }
        ensures moves { IfSome result (λ next. Moves (bytes_behind code.entry) (H.rule (H.base host.old)) (jumped (level_of self.old) pc) memory.old.bytes (H.ports host.old) (jumped (level_of self.new) next) memory.new.bytes (H.ports host.new)) }
        ensures stops { IfNone result (IsSomeAnd stop.new (Stops (bytes_behind code.entry) (H.rule (H.base host.old)) (jumped (level_of self.old) pc) memory.old.bytes (H.ports host.old))) }
        ensures unchanged { IfNone result (self.new ≡ self.old) }
        ensures kept { IfNone result (memory.new ≡ memory.old) }
        ensures rested { IfNone result (H.ports host.new ≡ H.ports host.old) }
        ensures base { H.base host.new ≡ H.base host.old }
    {
        let next = pc + 1;
        let site = Site {
            body: code,
            index: pc,
        };
        match site.instruction() {
            Instr::New => {
                self.push(Register::Variable(0));
                Some(next)
            }
            Instr::Def { n } => {
                self.push(Register::Constant(n));
                Some(next)
            }
            Instr::Kill => {
                self.pop();
                Some(next)
            }
            Instr::Mov { a, b } => {
                self.write(a, self.read(b));
                Some(next)
            }
            Instr::Swap { a, b } => {
                self.swap(a, b);
                Some(next)
            }
            Instr::Calc { operation, a, b, c } => {
                let v = calculate(operation, self.read(b), self.read(c));
                self.write(a, v);
                Some(next)
            }
            Instr::Divide {
                part,
                kind,
                a,
                b,
                c,
            } => {
                let divided = divide(part, kind, self.read(b), self.read(c));
                let v = or_trip(divided, Cause::ZeroDivisor, stop)?;
                self.write(a, v);
                Some(next)
            }
            Instr::Load { width, a, b, n } => {
                let address = self.address(b, n);
                let loaded = memory.load(address, width);
                let v = or_trip(loaded, Cause::MemoryPassed { address }, stop)?;
                self.write(a, v);
                Some(next)
            }
            Instr::Store { width, a, b, n } => {
                let address = self.address(b, n);
                let stored = memory.store(address, width, self.read(a));
                or_trip(stored, Cause::MemoryPassed { address }, stop)?;
                Some(next)
            }
            Instr::Bal { n } => Some(n as usize),
            Instr::Branch { test, a, b, n } => {
                if passes(test, self.read(a), self.read(b)) {
                    Some(n as usize)
                } else {
                    Some(next)
                }
            }
            Instr::Call { a, b, n } => {
                *stop = Some(Stop::Call { a, b, n });
                None
            }
            Instr::Ret { a } => {
                *stop = Some(Stop::Return { a });
                None
            }
            Instr::Get { a, c } => {
                // By `as`, here and in PUT: from u8 it loses nothing, and `usize::from` says it no plainer.
                let port = c as usize;
                match host.read(port) {
                    Ok(v) => {
                        self.write(a, v);
                        Some(next)
                    }
                    Err(refusal) => {
                        *stop = Some(Stop::Trip(Cause::Host { refusal, port }));
                        None
                    }
                }
            }
            Instr::Put { b, c } => {
                let port = c as usize;
                match host.write(port, self.read(b)) {
                    Ok(()) => Some(next),
                    Err(refusal) => {
                        *stop = Some(Stop::Trip(Cause::Host { refusal, port }));
                        None
                    }
                }
            }
            Instr::Tick => {
                host.tick();
                Some(next)
            }
        }
    }

    // Steps while the routine makes them by itself and there is fuel, and answers how much is left, and why it made no more if some
    // is. Fuel is counted down, in one number.
    pub(crate) fn run<H: Host>(
        &mut self,
        code: Body<'_>,
        memory: &mut Memory,
        host: &mut H,
        fuel: u32,
    ) -> (u32, Option<Stop>)
        requires routine { routine_of code ≡ (level_of self.old).routine }
        requires foretold { AsForetold (bytes_behind code) (level_of self.old) }
        ensures few { result.0 ≤ fuel }
        ensures made { MakesOwn (bytes_behind code.entry) (H.rule (H.base host.old)) (fuel - result.0) (level_of self.old) memory.old.bytes (H.ports host.old) (level_of self.new) memory.new.bytes (H.ports host.new) }
        ensures stop { StopsWith (bytes_behind code.entry) (H.rule (H.base host.old)) result.0 (level_of self.new) memory.new.bytes (H.ports host.new) result.1 }
        ensures base { H.base host.new ≡ H.base host.old }
    {
        let mut pc = self.pc;
        let mut left = fuel;
        let mut stop = None;
        while left > 0 {
            let Some(next) = self.perform(code, pc, memory, host, &mut stop) else {
                self.pc = pc;
                return (left, stop);
            };
            pc = next;
            left -= 1;
        }
        self.pc = pc;
        (0, None)
    }
}

impl Stack {
    // The steps that the running routine makes by itself, with those that wait left as they are.
    pub(crate) fn within<H: Host>(
        &mut self,
        code: Body<'_>,
        memory: &mut Memory,
        host: &mut H,
        fuel: u32,
    ) -> (u32, Option<Stop>)
        requires routine { routine_of code ≡ (running_routine self.old).routine }
        requires foretold { AsForetold (bytes_behind code) (running_routine self.old) }
        ensures few { result.0 ≤ fuel }
        ensures made { MakesOwn (bytes_behind code.entry) (H.rule (H.base host.old)) (fuel - result.0) (running_routine self.old) memory.old.bytes (H.ports host.old) (running_routine self.new) memory.new.bytes (H.ports host.new) }
        ensures waiting { waiting self.new ≡ waiting self.old }
        ensures stop { StopsWith (bytes_behind code.entry) (H.rule (H.base host.old)) result.0 (running_routine self.new) memory.new.bytes (H.ports host.new) result.1 }
        ensures base { H.base host.new ≡ H.base host.old }
    {
        let running = &mut self.frames[self.top.index];
        running.run(code, memory, host, fuel)
    }
}
