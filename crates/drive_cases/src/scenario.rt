//! Scenarios: the calls that a drive takes, line by line, and what is seen of it in between.

use crate::code::{Source, checked, module_of, start};
use crate::seen::{Seen, listed, look};
use drive::call::{Answer, Call, Turn};
use drive::drive::Drive;
use drive::run::run;
use faults::fault::Fault;
use host::Host;
use host::axis::AxisHost;
use host::port::HostRefusal;
use machine::machine::State;
use module::checked::Checked;
use refusal::{Place, Refusal};
use std::process::Abort;
use std::test::Fail;

// The answer to a power cycle, and to a restart that is not refused.
pub(crate) const BEGUN: Answer = Ok((0, State::Running));

// A call, and what it answers.
pub(crate) type Told = (Call, Answer);

// How the calls of a scenario are made.
#[derive(Clone, Copy)]
pub(crate) enum Way {
    // Those that it begins with by `run`, with this in the places for the answers, and the others by `Drive::call`.
    List(Option<Answer>),
    // All by `Drive::call`.
    Call,
    // Each by the method of its own.
    Method,
}

pub(crate) const WAYS: [Way; 5] = [
    Way::List(None),
    Way::List(Some(Err(Refusal::Absent))),
    Way::List(Some(Ok((77, State::Running)))),
    Way::Call,
    Way::Method,
];

// What is done with a drive or its host, or is seen of them.
#[derive(Clone, Copy)]
pub(crate) enum Line<'a> {
    // This call is answered so.
    Made(Call, Answer),
    // These calls are answered so, one after the other, so many times.
    Times(u32, &'a [Told]),
    // A grant makes one step, which trips with this fault. All but the state and the faults is as before it.
    Trips(Fault),
    // The host takes this value at this port.
    Order(usize, u32),
    // The host ticks.
    Tick,
    // The drive has this state.
    Is(State),
    // It stands at this instruction of this routine.
    At(u16, u16),
    // It has no place.
    Nowhere,
    // It has so many registers.
    Depth(usize),
    // It has registers with these values, and no others.
    Registers(&'a [u32]),
    // This register has this value.
    Register(usize, u32),
    // This byte of the memory has this value.
    Byte(usize, u8),
    // The first byte and the last have these values, and past the last there is none.
    Bytes(u8, u8),
    // The memory begins with these bytes, and has zeros after them.
    Memory(&'a [u8]),
    // These are the faults, and no others.
    Faults(&'a [Fault]),
    // The ports have these values, and there are no others.
    Ports(&'a [u32]),
    // All is as at the start, but for these faults and these values of the ports.
    Anew(&'a [Fault], &'a [u32]),
}

// A module, the calls with which a drive of it begins, and what follows.
#[derive(Clone, Copy)]
pub(crate) struct Scenario<'a> {
    pub(crate) name: &'a str,
    pub(crate) module: Source<'a>,
    pub(crate) calls: &'a [Told],
    pub(crate) lines: &'a [Line<'a>],
}

// Makes a call by `Drive::call`, or by the method of its own.
fn make<H: Host>(way: Way, drive: &mut Drive, host: &mut H, call: Call) -> Answer {
    match (way, call) {
        (Way::Method, Call::Grant { fuel }) => drive.grant(host, fuel),
        (Way::Method, Call::Restart) => drive.restart(),
        (Way::Method, Call::PowerCycle) => Ok(drive.power_cycle(host)),
        _ => drive.call(host, call),
    }
}

// Whether a call is answered so. Then the drive has the state that is answered, and a refusal changes nothing.
fn is_answered<H: Host>(way: Way, drive: &mut Drive, host: &mut H, told: Told) -> bool {
    let (call, answer) = told;
    match answer {
        Ok((_, state)) => make(way, drive, host, call) == answer && drive.state() == state,
        Err(_) => {
            let before = look(drive, host);
            make(way, drive, host, call) == answer && look(drive, host) == before
        }
    }
}

fn are_answered<H: Host>(
    way: Way,
    drive: &mut Drive,
    host: &mut H,
    times: u32,
    calls: &[Told],
) -> bool {
    for _ in 0..times {
        for told in calls {
            if !is_answered(way, drive, host, *told) {
                return false;
            }
        }
    }
    true
}

fn trips<H: Host>(way: Way, drive: &mut Drive, host: &mut H, fault: Fault) -> bool {
    let before = look(drive, host);
    let state = State::Tripped {
        cause: fault.cause,
        place: fault.place,
    };
    let grant = Call::Grant { fuel: 10_000 };
    let wanted = Seen {
        state,
        faults: listed(&[fault], Refusal::Absent),
        ..before
    };
    is_answered(way, drive, host, (grant, Ok((1, state)))) && look(drive, host) == wanted
}

fn memory_of(bytes: &[u8]) -> [Result<u8, Refusal>; 4098] {
    let mut memory = [Err(Refusal::Absent); 4098];
    for i in 0..4096 {
        memory[i] = Ok(bytes.get(i).copied().unwrap_or(0));
    }
    memory
}

impl Line<'_> {
    // Does what the line says with a drive and its host, of which this was seen at the start, or sees whether it is so.
    fn holds<H: Host>(self, way: Way, drive: &mut Drive, host: &mut H, start: &Seen) -> bool {
        match self {
            Line::Made(call, answer) => is_answered(way, drive, host, (call, answer)),
            Line::Times(times, calls) => are_answered(way, drive, host, times, calls),
            Line::Trips(fault) => trips(way, drive, host, fault),
            Line::Order(port, value) => host.write(port, value).is_ok(),
            Line::Tick => {
                host.tick();
                true
            }
            _ => self.is_seen(&look(drive, host), start),
        }
    }

    // Whether this is seen, after that at the start.
    fn is_seen(self, seen: &Seen, start: &Seen) -> bool {
        match self {
            Line::Is(state) => seen.state == state,
            Line::At(routine, instruction) => {
                let place = Place {
                    routine,
                    instruction,
                };
                seen.place == Ok(place)
            }
            Line::Nowhere => seen.place == Err(Refusal::Absent),
            Line::Depth(depth) => seen.depth == depth,
            Line::Registers(values) => {
                seen.depth == values.len() && seen.registers == listed(values, Refusal::Absent)
            }
            Line::Register(k, value) => seen.registers.get(k) == Some(&Ok(value)),
            Line::Byte(i, value) => seen.memory.get(i) == Some(&Ok(value)),
            Line::Bytes(first, last) => {
                seen.memory[0] == Ok(first)
                    && seen.memory[4095] == Ok(last)
                    && seen.memory[4096..] == [Err(Refusal::Absent); 2]
            }
            Line::Memory(bytes) => seen.memory == memory_of(bytes),
            Line::Faults(faults) => seen.faults == listed(faults, Refusal::Absent),
            Line::Ports(values) => seen.ports == listed(values, HostRefusal::NoPort),
            Line::Anew(faults, ports) => {
                let wanted = Seen {
                    faults: listed(faults, Refusal::Absent),
                    ports: listed(ports, HostRefusal::NoPort),
                    ..*start
                };
                *seen == wanted
            }
            _ => false,
        }
    }
}

// The number of the first line that does not hold over a drive and its host, of which this was seen at the start.
pub(crate) fn first_wrong<H: Host>(
    way: Way,
    drive: &mut Drive,
    host: &mut H,
    start: &Seen,
    lines: &[Line],
) -> Option<usize> {
    for (i, line) in lines.iter().enumerate() {
        if !line.holds(way, drive, host, start) {
            return Some(i);
        }
    }
    None
}

// Turns of these calls, with this in the places for the answers, and others after them.
fn turns_of(calls: &[Told], earlier: Option<Answer>) -> [Turn; 32] {
    let mut turns = [Turn {
        call: Call::PowerCycle,
        answer: earlier,
    }; 32];
    for (turn, (call, _)) in turns.iter_mut().zip(calls) {
        turn.call = *call;
    }
    turns
}

// Whether the turns are of these calls and have these answers.
pub(crate) fn are_told(turns: &[Turn], calls: &[Told]) -> bool {
    for (turn, (call, answer)) in turns.iter().zip(calls) {
        if turn.call != *call || turn.answer != Some(*answer) {
            return false;
        }
    }
    true
}

// Wants no line to be wrong.
pub(crate) fn none_wrong(rt: &impl Abort, wrong: Option<usize>, name: &str) {
    assert_eq!(rt; wrong, None, "the first wrong line of {name}");
}

// What is seen of a new drive.
fn look_anew<H: Host>(module: &[u8], host: &H) -> Result<Seen, Fail> {
    let drive = start(module)?;
    Ok(look(&drive, host))
}

impl Scenario<'_> {
    // The drive after the calls of the beginning, which `run` makes over these earlier answers.
    fn list<'a, H: Host>(
        &self,
        rt: &impl Abort,
        earlier: Option<Answer>,
        checked: Checked<'a>,
        host: &mut H,
    ) -> Drive<'a> {
        let mut turns = turns_of(self.calls, earlier);
        assert!(rt; self.calls.len() <= 32);
        let turns = &mut turns[..self.calls.len()];
        let drive = run(checked, host, turns);
        let as_told = are_told(turns, self.calls);
        assert!(rt; as_told, "the list of {}", self.name);
        drive
    }

    // The drive after the calls of the beginning.
    fn begin<'a, H: Host>(
        &self,
        rt: &impl Abort,
        way: Way,
        checked: Checked<'a>,
        host: &mut H,
    ) -> Drive<'a> {
        if let Way::List(earlier) = way {
            return self.list(rt, earlier, checked, host);
        }
        let mut drive = Drive::start(checked);
        let as_told = are_answered(way, &mut drive, host, 1, self.calls);
        assert!(rt; as_told, "the calls of {}", self.name);
        drive
    }

    // Plays it over a host, wants each line to hold, and gives what is seen in the end.
    pub(crate) fn play<H: Host>(
        &self,
        rt: &impl Abort,
        way: Way,
        host: &mut H,
    ) -> Result<Seen, Fail> {
        let mut bytes = [0; 4200];
        let module = module_of(rt, self.module, &mut bytes)?;
        let start = look_anew(module, host)?;
        let mut drive = self.begin(rt, way, checked(module)?, host);
        let wrong = first_wrong(way, &mut drive, host, &start, self.lines);
        none_wrong(rt, wrong, self.name);
        Ok(look(&drive, host))
    }

    // Plays it over a new axis in every way, wants the same to be seen in the end each time, and gives that.
    pub(crate) fn play_over_axis(&self, rt: &impl Abort) -> Result<Seen, Fail> {
        let seen = self.play(rt, Way::Call, &mut AxisHost::new())?;
        for way in WAYS {
            let again = self.play(rt, way, &mut AxisHost::new())?;
            assert!(rt; again == seen, "{}", self.name);
        }
        Ok(seen)
    }
}

// Plays scenarios over one host, one after the other.
pub(crate) fn play_all<H: Host>(
    rt: &impl Abort,
    way: Way,
    host: &mut H,
    scenarios: &[Scenario],
) -> Result<(), Fail> {
    for scenario in scenarios {
        scenario.play(rt, way, host)?;
    }
    Ok(())
}

// Plays each over a new axis.
pub(crate) fn play_each(rt: &impl Abort, scenarios: &[Scenario]) -> Result<(), Fail> {
    for scenario in scenarios {
        scenario.play_over_axis(rt)?;
    }
    Ok(())
}

// Plays two over new axes, and wants the same to be seen of both in the end.
pub(crate) fn play_alike(rt: &impl Abort, one: &Scenario, other: &Scenario) -> Result<(), Fail> {
    let seen = one.play_over_axis(rt)?;
    let again = other.play_over_axis(rt)?;
    assert!(rt; again == seen, "{}", other.name);
    Ok(())
}
