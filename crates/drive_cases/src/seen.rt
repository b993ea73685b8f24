//! What is seen of a drive and its host.

use drive::drive::Drive;
use faults::fault::Fault;
use host::Host;
use host::port::HostRefusal;
use machine::machine::State;
use refusal::{Place, Refusal};

// The answers to all questions. Each list has some that are refused after the last that may be there, and in the end that of the
// highest number. Of the ports there are the first.
#[derive(Clone, Copy, PartialEq, Eq)]
pub(crate) struct Seen {
    pub(crate) state: State,
    pub(crate) place: Result<Place, Refusal>,
    pub(crate) depth: usize,
    pub(crate) registers: [Result<u32, Refusal>; 35],
    pub(crate) memory: [Result<u8, Refusal>; 4098],
    pub(crate) faults: [Result<Fault, Refusal>; 21],
    pub(crate) ports: [Result<u32, HostRefusal>; 5],
}

fn registers(drive: &Drive) -> [Result<u32, Refusal>; 35] {
    let mut registers = [drive.register(usize::MAX); 35];
    for k in 0..34 {
        registers[k] = drive.register(k);
    }
    registers
}

fn memory(drive: &Drive) -> [Result<u8, Refusal>; 4098] {
    let mut memory = [drive.byte(usize::MAX); 4098];
    for i in 0..4097 {
        memory[i] = drive.byte(i);
    }
    memory
}

pub(crate) fn faults(drive: &Drive) -> [Result<Fault, Refusal>; 21] {
    let mut faults = [drive.fault(usize::MAX); 21];
    for i in 0..20 {
        faults[i] = drive.fault(i);
    }
    faults
}

pub(crate) fn ports<H: Host>(host: &H) -> [Result<u32, HostRefusal>; 5] {
    let mut ports = [Err(HostRefusal::NoPort); 5];
    for p in 0..5 {
        ports[p] = host.read(p);
    }
    ports
}

pub(crate) fn look<H: Host>(drive: &Drive, host: &H) -> Seen {
    Seen {
        state: drive.state(),
        place: drive.place(),
        depth: drive.depth(),
        registers: registers(drive),
        memory: memory(drive),
        faults: faults(drive),
        ports: ports(host),
    }
}

// What is answered where there are these values: they come first, and everything after them is refused.
pub(crate) fn listed<T: Copy, E: Copy, const N: usize>(
    values: &[T],
    refusal: E,
) -> [Result<T, E>; N] {
    let mut list = [Err(refusal); N];
    for (answer, value) in list.iter_mut().zip(values) {
        *answer = Ok(*value);
    }
    list
}
