use crate::code::{MARKED, RET, Source, TRIPPED, module_of, start};
use crate::lamp::LampHost;
use crate::scenario::Line::{At, Faults, Is, Made, Ports, Register};
use crate::scenario::{BEGUN, Line, Scenario, WAYS, Way, first_wrong, none_wrong, play_all};
use crate::seen::{listed, look, ports};
use counter::CounterHost;
use drive::call::Call::{Grant, PowerCycle, Restart};
use faults::cause::Cause;
use host::axis::AxisHost;
use host::port::{Flag, HostRefusal, Port};
use host::table::TableHost;
use isa::instr::Instr;
use machine::machine::State;
use machine::machine::State::{Ended, Running};
use refusal::{Place, Refusal};
use std::test::Fail;

// An order to 120, which rests at 5, and a sense port.
const ROWS: [Port; 2] = [
    Port {
        value: 0,
        low: 0,
        high: 120,
        flag: Flag::Order,
        rest: Some(5),
    },
    Port {
        value: 7,
        low: 0,
        high: u32::MAX,
        flag: Flag::Sense,
        rest: None,
    },
];

// Gives port 0 the value n, ticks twice, and reads port 1 into register 0.
macro_rules! orders {
    ($n:literal) => {
        Source::Routine(&[
            Instr::New,
            Instr::Def { n: $n },
            Instr::Put { b: 1, c: 0 },
            Instr::Tick,
            Instr::Tick,
            Instr::Get { a: 0, c: 1 },
            RET,
        ])
    };
}

// Two runs over a host that takes the order. It reads at last what is shown.
macro_rules! ends {
    ($n:literal, $shown:literal, $ports:expr) => {
        Scenario {
            name: "an order that is taken",
            module: orders!($n),
            calls: &[
                (Grant { fuel: 0 }, Err(Refusal::Fuel)),
                (Restart, Err(Refusal::Running)),
                (Grant { fuel: 10_000 }, Ok((7, Ended))),
                (Grant { fuel: 1 }, Err(Refusal::Ended)),
                (Restart, BEGUN),
                (Restart, Err(Refusal::Running)),
                (Grant { fuel: 6 }, Ok((6, Running))),
            ],
            lines: &[At(0, 6), Register(0, $shown), Register(1, $n), Ports($ports)],
        }
    };
}

// The order trips, and a power cycle rests the host.
macro_rules! trips {
    ($n:literal, $ports:expr) => {
        Scenario {
            name: "an order that trips",
            module: orders!($n),
            calls: &[
                (Grant { fuel: 10_001 }, Err(Refusal::Fuel)),
                (Grant { fuel: 10_000 }, Ok((3, TRIPPED))),
                (Grant { fuel: 1 }, Err(Refusal::Tripped)),
                (Restart, BEGUN),
                (Grant { fuel: 2 }, Ok((2, Running))),
                (Grant { fuel: 2 }, Ok((1, TRIPPED))),
                (PowerCycle, BEGUN),
            ],
            lines: &[Faults(&[MARKED, MARKED]), Ports($ports)],
        }
    };
}

static OVER_A_TABLE: [Scenario; 3] = [
    ends!(30, 7, &[30, 7]),
    ends!(120, 7, &[120, 7]),
    trips!(121, &[5, 7]),
];

#[test]
fn a_module_over_a_table(rt: HostRuntime) -> Result<(), Fail> {
    for way in WAYS {
        let mut rows = ROWS;
        let mut table = TableHost::new(&mut rows);
        play_all(&rt, way, &mut table, &OVER_A_TABLE)?;
    }
    Ok(())
}

static OVER_AN_AXIS: [Scenario; 1] = [ends!(30, 50, &[30, 50, 30, 120])];

static OVER_ANOTHER_AXIS: [Scenario; 2] = [
    ends!(120, 50, &[120, 50, 120, 390]),
    trips!(3001, &[0, 50, 120, 390]),
];

#[test]
fn a_module_over_an_axis(rt: HostRuntime) -> Result<(), Fail> {
    for way in WAYS {
        play_all(&rt, way, &mut AxisHost::new(), &OVER_AN_AXIS)?;
        play_all(&rt, way, &mut AxisHost::new(), &OVER_ANOTHER_AXIS)?;
    }
    Ok(())
}

static OVER_A_COUNTER: [Scenario; 2] = [ends!(30, 120, &[30, 120]), trips!(120, &[1, 120])];

#[test]
fn a_module_over_a_counter(rt: HostRuntime) -> Result<(), Fail> {
    for way in WAYS {
        play_all(&rt, way, &mut CounterHost::new(), &OVER_A_COUNTER)?;
    }
    Ok(())
}

static OVER_A_LAMP: [Scenario; 4] = [
    ends!(30, 30, &[30, 30, 1]),
    ends!(100, 100, &[100, 100, 2]),
    trips!(101, &[0, 100, 2]),
    ends!(0, 0, &[0, 0, 3]),
];

#[test]
fn a_module_over_a_lamp(rt: HostRuntime) -> Result<(), Fail> {
    for way in WAYS {
        play_all(&rt, way, &mut LampHost::new(), &OVER_A_LAMP)?;
    }
    Ok(())
}

const NO_PORT: State = State::Tripped {
    cause: Cause::Host {
        refusal: HostRefusal::NoPort,
        port: 0,
    },
    place: Place {
        routine: 0,
        instruction: 2,
    },
};

static WITHOUT_PORTS: [Scenario; 1] = [Scenario {
    name: "no port of a host without ports",
    module: orders!(30),
    calls: &[
        (Grant { fuel: 10_000 }, Ok((3, NO_PORT))),
        (PowerCycle, BEGUN),
        (Grant { fuel: 10_000 }, Ok((3, NO_PORT))),
    ],
    lines: &[Is(NO_PORT), Ports(&[])],
}];

#[test]
fn no_port_of_a_host_without_ports(rt: HostRuntime) -> Result<(), Fail> {
    for way in WAYS {
        play_all(&rt, way, &mut TableHost::new(&mut []), &WITHOUT_PORTS)?;
    }
    Ok(())
}

static ORDER: [Line; 2] = [
    Made(Grant { fuel: 3 }, Ok((3, Running))),
    Ports(&[30, 50, 0, 0]),
];

static TICKS: [Line; 3] = [
    Made(Grant { fuel: 3 }, Ok((3, Running))),
    Register(0, 2),
    Ports(&[1, 2]),
];

// A host is lent for one call: the order goes to an axis, and the ticks and the read to a counter.
#[test]
fn one_run_over_two_hosts(rt: HostRuntime) -> Result<(), Fail> {
    let mut bytes = [0; 128];
    let module = module_of(&rt, orders!(30), &mut bytes)?;
    let mut axis = AxisHost::new();
    let mut counter = CounterHost::new();
    let mut drive = start(module)?;
    let new = look(&drive, &axis);
    let wrong = first_wrong(Way::Call, &mut drive, &mut axis, &new, &ORDER);
    none_wrong(&rt, wrong, "the order");
    let wrong = first_wrong(Way::Call, &mut drive, &mut counter, &new, &TICKS);
    none_wrong(&rt, wrong, "the ticks");
    assert!(rt; ports(&axis) == listed(&[30, 50, 0, 0], HostRefusal::NoPort));
    Ok(())
}
