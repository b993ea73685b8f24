use crate::code::{OVER, RET, Source};
use crate::scenario::Line::{Anew, Byte, Made, Memory, Ports};
use crate::scenario::{BEGUN, Scenario, play_each};
use drive::call::Call::{Grant, PowerCycle, Restart};
use faults::fault::Fault;
use isa::instr::{Instr, Width};
use machine::machine::State;
use machine::machine::State::{Ended, Running};
use module::entry::Entry;
use refusal::Place;
use std::test::Fail;

// The ramp that the module orders of the axis. It fits a byte, so that the module stores it too.
const RAMP: u8 = 255;

// Stores the ramp at bytes 0 and 4095 and puts it to port 1; then puts n to port 0, and ticks.
macro_rules! fills {
    ($n:literal, $image:expr) => {
        Source::Module {
            entries: &[Entry {
                count: 9,
                arguments: 0,
                results: 0,
            }],
            instrs: &[
                Instr::Def { n: 0 },
                Instr::Def { n: RAMP as u32 },
                Instr::Store {
                    width: Width::One,
                    a: 1,
                    b: 0,
                    n: 0,
                },
                Instr::Store {
                    width: Width::One,
                    a: 1,
                    b: 0,
                    n: 4095,
                },
                Instr::Put { b: 1, c: 1 },
                Instr::Def { n: $n },
                Instr::Put { b: 2, c: 0 },
                Instr::Tick,
                RET,
            ],
            image: $image,
        }
    };
}

#[test]
fn a_new_drive_has_the_image_and_then_zeros(rt: HostRuntime) -> Result<(), Fail> {
    let mut image = [0; 4096];
    for i in 0..4096 {
        image[i] = (i % 251 + 1) as u8;
    }
    for length in [0, 1, 3, 4095, 4096] {
        let image = &image[..length];
        let scenario = Scenario {
            name: "a new drive has the image and then zeros",
            module: fills!(0, image),
            calls: &[],
            lines: &[Memory(image)],
        };
        scenario.play_over_axis(&rt)?;
    }
    Ok(())
}

// Where the order stands.
const ORDER: Place = Place {
    routine: 0,
    instruction: 6,
};

const TRIPPED: State = State::Tripped {
    cause: OVER,
    place: ORDER,
};

const MARKED: Fault = Fault {
    cause: OVER,
    place: ORDER,
    marked: true,
};

// A restart clears memory and leaves the ports, and a power cycle after it clears memory and rests the ports.
static SCENARIOS: [Scenario; 2] = [
    Scenario {
        name: "memory after the end",
        module: fills!(400, &[30, 40]),
        calls: &[(Grant { fuel: 100 }, Ok((9, Ended)))],
        lines: &[
            Byte(0, RAMP),
            Byte(1, 40),
            Byte(4095, RAMP),
            Ports(&[400, 255, 255, 255]),
            Made(Restart, BEGUN),
            Memory(&[30, 40]),
            Ports(&[400, 255, 255, 255]),
            Made(Grant { fuel: 4 }, Ok((4, Running))),
            Byte(0, RAMP),
            Made(PowerCycle, BEGUN),
            Memory(&[30, 40]),
            Anew(&[], &[0, 50, 255, 255]),
        ],
    },
    Scenario {
        name: "memory after a trip",
        module: fills!(3001, &[30, 40]),
        calls: &[(Grant { fuel: 100 }, Ok((7, TRIPPED)))],
        lines: &[
            Byte(0, RAMP),
            Byte(1, 40),
            Byte(4095, RAMP),
            Ports(&[0, 255, 0, 0]),
            Made(Restart, BEGUN),
            Memory(&[30, 40]),
            Ports(&[0, 255, 0, 0]),
            Made(Grant { fuel: 4 }, Ok((4, Running))),
            Byte(0, RAMP),
            Made(PowerCycle, BEGUN),
            Memory(&[30, 40]),
            Anew(&[MARKED], &[0, 50, 0, 0]),
        ],
    },
];

#[test]
fn a_restart_clears_memory_and_a_power_cycle_rests_the_ports_too(
    rt: HostRuntime,
) -> Result<(), Fail> {
    play_each(&rt, &SCENARIOS)
}
