//! conveyor: runs a small module over a counter, and prints what each call answers, and then the ports and the faults.

#![tactic(auto)]

use counter::CounterHost;
use drive::call::Call;
use drive::drive::Drive;
use host::Host;
use host::port::MOST_PORTS;
use machine::machine::State;
use module::check::examine;
use module::shape::ShapeRow;
use std::io;

// How many instructions the module has.
const INSTRUCTIONS: usize = 9;

// One routine, without an image.
#[rattlefmt::skip]
static MODULE: [u8; 84] = [
    0x01, 0, 0, 0,
    0x0C, 0, 0, 0, 0x09, 0, 0, 0,
    0x00, 0, 0, 0, 0, 0, 0, 0,    // 0: NEW, register 0
    0x01, 0, 0, 0, 40, 0, 0, 0,   // 1: DEF, register 1 is 40
    0x19, 0, 1, 0, 0, 0, 0, 0,    // 2: PUT, the pace is register 1
    0x1A, 0, 0, 0, 0, 0, 0, 0,    // 3: TICK
    0x1A, 0, 0, 0, 0, 0, 0, 0,    // 4: TICK
    0x1A, 0, 0, 0, 0, 0, 0, 0,    // 5: TICK
    0x18, 0, 0, 1, 0, 0, 0, 0,    // 6: GET, register 0 is the count
    0x19, 0, 0, 0, 0, 0, 0, 0,    // 7: PUT, the pace is register 0, which trips above 100
    0x17, 0, 0, 0, 0, 0, 0, 0,    // 8: RET
];

// Three steps, the others, a power cycle, and all steps again.
const CALLS: [Call; 4] = [
    Call::Grant { fuel: 3 },
    Call::Grant { fuel: 100 },
    Call::PowerCycle,
    Call::Grant { fuel: 100 },
];

fn print_ports<H: Host>(rt: &impl Print, host: &H) -> io::Result<()> {
    for p in 0..MOST_PORTS {
        let Ok(value) = host.read(p) else {
            break;
        };
        println!(rt; "port {p}: {value}")?;
    }
    Ok(())
}

fn print_faults(rt: &impl Print, drive: &Drive<'_>) -> io::Result<()> {
    for i in 0..drive.fault_count() {
        let Ok(fault) = drive.fault(i) else {
            break;
        };
        let number = fault.cause.number();
        let instruction = fault.place.instruction;
        let mark = fault.mark();
        println!(rt; "fault {number} at {instruction}, mark {mark}")?;
    }
    Ok(())
}

fn word(state: State) -> &'static str {
    match state {
        State::Running => "running",
        State::Ended => "ended",
        State::Tripped { .. } => "tripped",
    }
}

fn main(rt: HostRuntime) -> anyhow::Result<()> {
    let mut sheet = [ShapeRow::BLANK; INSTRUCTIONS];
    let mut drive = Drive::start(examine(&MODULE, &mut sheet)?);
    let mut counter = CounterHost::of_cartons(12);
    for call in CALLS {
        let (steps, state) = drive.call(&mut counter, call)?;
        let word = word(state);
        println!(rt; "{word} after {steps} steps")?;
        print_ports(&rt, &counter)?;
    }
    print_faults(&rt, &drive)?;
    Ok(())
}
