// The steps that lead from one routine to another, or stop the run.
ghost use Rattle.std.specs.Prelude.{◌≡◌, ◌≢◌, ◌-◌, ◌<◌, ◌≤◌, List, [], Some, OnOk, OnErr, IfOk, IfErr, IfSome, ◌==◌};
ghost use Rattle.std.specs.Option.{IfNone};
ghost use Rattle.host.specs.declared.port.Port.{Port};
ghost use Rattle.faults.specs.Causes.{cause_of};
ghost use Rattle.isa.specs.declared.instr.Instr.TheVariants.{Call, Ret};
ghost use Rattle.module.specs.Told.{bytes_behind};
ghost use Rattle.machine.specs.declared.machine.State.TheVariants.{Running, Ended};
ghost use Rattle.machine.specs.Fuel.{Goes, Spends, steps, advanced};
ghost use Rattle.machine.specs.Nested.{running_routine};
ghost use Rattle.machine.specs.View.{module_of, world_of, Stands, RunsBody, effect_in, PerformedOverAnyHost};
ghost use Rattle.machine.specs.Within.{Stops, StandsAtStop, StopsWith};
ghost use Rattle.machine.specs.World.{after, trips, running, step};

use crate::machine::{Machine, State};
use crate::stack::MOST_NESTED;
use crate::within::Stop;
use faults::cause::Cause;
use host::Host;
use isa::instr::Instr;
use module::body::Body;
use module::site::{Sibling, Site};
use refusal::Place;

impl<'a> Machine<'a> {
    // Trips where it stands.
    fn trip(&mut self, cause: Cause)
        requires running { self.old.state ≡ Running }
        requires routine { (running_routine self.old.stack).routine < 65536 }
        requires instruction { (running_routine self.old.stack).pc < 65536 }
        ensures trips { (ports : List Port) → world_of self.new ports ≡ after (world_of self.old ports) (running_routine self.old.stack) (trips (cause_of cause)) }
        ensures bytes { module_of self.new ≡ module_of self.old }
    {
        let running = self.stack.running();
        let place = Place {
            routine: running.routine as u16,
            instruction: running.pc as u16,
        };
        self.state = State::Tripped { cause, place };
    }

    // Begins routine n, with arguments from register b on, and answers its body.
    fn call(&mut self, code: Body<'a>, a: u8, b: u8, n: u32) -> Result<Body<'a>, Cause>
        requires stands { Stands (bytes_behind code) (Call a b n) self.old }
        requires runs { RunsBody (bytes_behind code) self.old code }
        ensures done { OnOk result (PerformedOverAnyHost (bytes_behind code.entry) (Call a b n) self.old self.new) }
        ensures runs { IfOk result (RunsBody (bytes_behind code.entry) self.new) }
        ensures tripped { IfErr result (λ cause. (rule : List Port → List Port) (ports : List Port) → effect_in (bytes_behind code.entry) rule (Call a b n) self.old ports ≡ trips (cause_of cause)) }
        ensures unchanged { OnErr result (self.new ≡ self.old) }
    {
        if self.stack.callers() == MOST_NESTED - 1 {
            return Err(Cause::TooDeep);
        }
        let named = Sibling {
            body: code,
            routine: n as usize,
        };
        let callee = named.body();
        self.stack
            .enter(n as usize, b, callee.signature().arguments);
        Ok(callee)
    }

    // Whether a RET ends the run: in routine 0, however many routines wait.
    fn ends_run(&self) -> bool
        ensures { result ≡ ((running_routine self.now.stack).routine == 0) }
    {
        self.stack.running().routine == 0
    }

    // Returns the results from register a on and answers the body of the routine that goes on, or ends the run.
    fn give_back(&mut self, code: Body<'a>, a: u8) -> Option<Body<'a>>
        requires stands { Stands (bytes_behind code) (Ret a) self.old }
        requires runs { RunsBody (bytes_behind code) self.old code }
        ensures done { PerformedOverAnyHost (bytes_behind code.entry) (Ret a) self.old self.new }
        ensures runs { IfSome result (RunsBody (bytes_behind code.entry) self.new) }
        ensures ended { IfNone result (self.new.state ≡ Ended) }
        ensures bytes { module_of self.new ≡ module_of self.old }
    {
        if self.ends_run() {
            self.state = State::Ended;
            return None;
        }
        let caller = self.stack.caller();
        let waiting = Sibling {
            body: code,
            routine: caller.routine,
        };
        let below = waiting.body();
        let call = Site {
            body: below,
            index: caller.pc,
        };
        let Instr::Call { a: into, .. } = call.instruction() else {
            unreachable()
        };
        self.stack.leave(a, into, code.signature().results);
        Some(below)
    }

    // The step at which a routine stops: it calls, returns or trips. It answers the body of the routine that runs then, if one does.
    fn pass(&mut self, code: Body<'a>, stop: Stop) -> Option<Body<'a>>
        requires runs { RunsBody (bytes_behind code) self.old code }
        requires stands { StandsAtStop (bytes_behind code) (running_routine self.old.stack) stop }
        ensures step { (rule : List Port → List Port) (ports : List Port) → Stops (bytes_behind code.entry) rule (running_routine self.old.stack) self.old.memory.bytes ports stop → step (bytes_behind code.entry) rule (world_of self.old ports) ≡ Some (world_of self.new ports) }
        ensures runs { IfSome result (RunsBody (bytes_behind code.entry) self.new) }
        ensures stopped { IfNone result ((world_of self.new []).phase ≢ running) }
        ensures bytes { module_of self.new ≡ module_of self.old }
    {
        match stop {
            Stop::Call { a, b, n } => match self.call(code, a, b, n) {
                Ok(callee) => Some(callee),
                Err(cause) => {
                    self.trip(cause);
                    None
                }
            },
            Stop::Return { a } => self.give_back(code, a),
            Stop::Trip(cause) => {
                self.trip(cause);
                None
            }
        }
    }

    // The steps that the running routine makes by itself. It answers how much fuel is left, and why it made no more if some is.
    fn within<H: Host>(&mut self, code: Body<'_>, host: &mut H, fuel: u32) -> (u32, Option<Stop>)
        requires runs { RunsBody (bytes_behind code) self.old code }
        ensures few { result.0 ≤ fuel }
        ensures goes { Goes (bytes_behind code.entry) (H.rule (H.base host.old)) (fuel - result.0) (world_of self.old (H.ports host.old)) (world_of self.new (H.ports host.new)) }
        ensures runs { RunsBody (bytes_behind code.entry) self.new code.entry }
        ensures stop { StopsWith (bytes_behind code.entry) (H.rule (H.base host.old)) result.0 (running_routine self.new.stack) self.new.memory.bytes (H.ports host.new) result.1 }
        ensures base { H.base host.new ≡ H.base host.old }
    {
        self.stack.within(code, &mut self.memory, host, fuel)
    }

    // Steps until the fuel is used, or the running routine calls, returns or trips; this step is made, too. It answers how much fuel
    // is left, and the body of the routine that runs then, if one does.
    fn turn<H: Host>(&mut self, code: Body<'a>, host: &mut H, fuel: u32) -> (u32, Option<Body<'a>>)
        requires fuel { 0 < fuel }
        requires runs { RunsBody (bytes_behind code) self.old code }
        ensures less { result.0 < fuel }
        ensures goes { Goes (bytes_behind code.entry) (H.rule (H.base host.old)) (fuel - result.0) (world_of self.old (H.ports host.old)) (world_of self.new (H.ports host.new)) }
        ensures runs { IfSome result.1 (RunsBody (bytes_behind code.entry) self.new) }
        ensures stopped { IfNone result.1 ((world_of self.new []).phase ≢ running) }
        ensures bytes { module_of self.new ≡ module_of self.old }
        ensures base { H.base host.new ≡ H.base host.old }
    {
        let (left, stop) = self.within(code, host, fuel);
        let Some(stop) = stop else {
            return (left, Some(code));
        };
        let next = self.pass(code, stop);
        (left - 1, next)
    }

    /// Steps until the fuel is used, or the state leaves running, and answers how many steps it made.
    // The body of the routine that runs goes from turn to turn, so that no step looks for it by its number.
    pub fn run<H: Host>(&mut self, host: &mut H, fuel: u32) -> u32
        ensures made { result ≡ steps (module_of self.old) (H.rule (H.base host.old)) fuel (world_of self.old (H.ports host.old)) }
        ensures world { world_of self.new (H.ports host.new) ≡ advanced (module_of self.old) (H.rule (H.base host.old)) result (world_of self.old (H.ports host.old)) }
        ensures spends { Spends (module_of self.old) (H.rule (H.base host.old)) fuel (world_of self.old (H.ports host.old)) result (world_of self.new (H.ports host.new)) }
        ensures bytes { module_of self.new ≡ module_of self.old }
        ensures base { H.base host.new ≡ H.base host.old }
    {
        let State::Running = self.state else {
            return 0;
        };
        let mut code = self.checked.body(self.stack.running().routine).unwrap();
        let mut left = fuel;
        while left > 0 {
            let (rest, next) = self.turn(code, host, left);
            left = rest;
            let Some(next) = next else {
                break;
            };
            code = next;
        }
        fuel - left
    }
}
