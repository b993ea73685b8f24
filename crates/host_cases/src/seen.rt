use host::Host;
use host::port::HostRefusal;
use host::response::{Trial, advance, respond};
use refusal::Layer;
use std::process::Abort;

/// What a test does with a host, and what it then wants.
#[derive(Clone, Copy)]
pub(crate) enum Step {
    /// A write of a value to a port is taken.
    Takes(usize, u32),
    /// It is refused with this number.
    Refuses(usize, u32, u8),
    Tick,
    /// So many ticks.
    Advance(u32),
    Rest,
    /// A port has this value.
    Reads(usize, u32),
    /// The ports have these values, and there is no port after them.
    Shows(&'static [u32]),
    /// A response to this trial: its port, its value, its ticks and the port that it shows.
    Responds(usize, u32, u32, usize, Result<u32, HostRefusal>),
}

use Step::{Advance, Reads, Refuses, Responds, Rest, Shows, Takes, Tick};

// Wants what a port reads.
fn reads<H: Host>(rt: &impl Abort, host: &H, port: usize, wanted: Result<u32, HostRefusal>) {
    assert_eq!(rt; host.read(port), wanted);
}

fn shows<H: Host>(rt: &impl Abort, host: &H, values: &[u32]) {
    for (port, value) in values.iter().enumerate() {
        reads(rt, host, port, Ok(*value));
    }
    reads(rt, host, values.len(), Err(HostRefusal::NoPort));
    reads(rt, host, usize::MAX, Err(HostRefusal::NoPort));
}

fn takes<H: Host>(rt: &impl Abort, host: &mut H, port: usize, value: u32) {
    assert_eq!(rt; host.write(port, value), Ok(()));
}

fn refuses<H: Host>(rt: &impl Abort, host: &mut H, port: usize, value: u32, number: u8) {
    let answer = host
        .write(port, value)
        .map_err(|refusal| (refusal.number(), refusal.layer()));
    assert_eq!(rt; answer, Err((number, Layer::Host)));
}

fn responds<H: Host>(
    rt: &impl Abort,
    host: &mut H,
    trial: Trial,
    wanted: Result<u32, HostRefusal>,
) {
    assert_eq!(rt; respond(host, trial), wanted);
}

/// An order of a value to a port, so many ticks, and a look at the port shown.
pub(crate) fn trial(port: usize, value: u32, ticks: u32, shown: usize) -> Trial {
    Trial {
        port,
        value,
        ticks,
        shown,
    }
}

impl Step {
    fn go<H: Host>(self, rt: &impl Abort, host: &mut H) {
        match self {
            Takes(port, value) => takes(rt, host, port, value),
            Refuses(port, value, number) => refuses(rt, host, port, value, number),
            Tick => host.tick(),
            Advance(ticks) => advance(host, ticks),
            Rest => host.rest(),
            Reads(port, value) => reads(rt, host, port, Ok(value)),
            Shows(values) => shows(rt, host, values),
            Responds(port, value, ticks, shown, wanted) => {
                responds(rt, host, trial(port, value, ticks, shown), wanted);
            }
        }
    }
}

/// Takes these steps, one after the other.
pub(crate) fn go<H: Host>(rt: &impl Abort, host: &mut H, steps: &[Step]) {
    for step in steps {
        step.go(rt, host);
    }
}
