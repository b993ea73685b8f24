use crate::seen::Step::{self, Reads, Refuses, Rest, Shows, Takes, Tick};
use crate::seen::{go, trial};
use host::port::{Flag, HostRefusal, Port};
use host::response::respond_on_rows;
use host::table::TableHost;

// Takes 10 to 20, and rests at 12.
const ORDER: Port = Port {
    value: 15,
    low: 10,
    high: 20,
    flag: Flag::Order,
    rest: Some(12),
};

const RESTED: Port = Port { value: 12, ..ORDER };

// Has no rest value.
const SENSE: Port = Port {
    value: 7,
    low: 0,
    high: u32::MAX,
    flag: Flag::Sense,
    rest: None,
};

// Has one.
const RESTING: Port = Port {
    value: 1,
    low: 5,
    high: 4,
    flag: Flag::Sense,
    rest: Some(3),
};

// Rows, what is done with a table of them, and the rows that are then there: those that are ports, and those past the last.
struct Case {
    rows: &'static [Port],
    steps: &'static [Step],
    ports: &'static [Port],
    past: &'static [Port],
}

static TABLE: [Case; 5] = [
    // no rows
    Case {
        rows: &[],
        steps: &[Shows(&[]), Refuses(0, 15, 4), Tick, Rest, Shows(&[])],
        ports: &[],
        past: &[],
    },
    // one row, at, below and above its limits
    Case {
        rows: &[ORDER],
        steps: &[
            Takes(0, 11),
            Takes(0, 10),
            Refuses(0, 9, 6),
            Refuses(0, 0, 6),
            Shows(&[10]),
            Takes(0, 19),
            Takes(0, 20),
            Refuses(0, 21, 6),
            Refuses(0, u32::MAX, 6),
            Refuses(1, 15, 4),
            Tick,
            Shows(&[20]),
            Rest,
            Shows(&[12]),
        ],
        ports: &[RESTED],
        past: &[],
    },
    // sense rows
    Case {
        rows: &[SENSE, RESTING, ORDER],
        steps: &[
            Refuses(0, 7, 5),
            Refuses(1, 4, 5),
            Takes(2, 11),
            Tick,
            Shows(&[7, 1, 11]),
            Rest,
        ],
        ports: &[
            SENSE,
            Port {
                value: 3,
                ..RESTING
            },
            RESTED,
        ],
        past: &[],
    },
    // every row of 256 is a port
    Case {
        rows: &[ORDER; 256],
        steps: &[
            Shows(&[15; 256]),
            Takes(0, 10),
            Takes(255, 20),
            Refuses(256, 15, 4),
            Reads(0, 10),
            Reads(1, 15),
            Reads(254, 15),
            Reads(255, 20),
            Rest,
        ],
        ports: &[RESTED; 256],
        past: &[],
    },
    // rows past the 256th are ignored
    Case {
        rows: &[ORDER; 258],
        steps: &[
            Shows(&[15; 256]),
            Refuses(256, 15, 4),
            Refuses(257, 15, 4),
            Takes(255, 20),
            Rest,
        ],
        ports: &[RESTED; 256],
        past: &[ORDER; 2],
    },
];

#[test]
fn a_table(rt: HostRuntime) {
    for case in &TABLE {
        let mut rows = case.rows.to_vec(rt.alloc()).expect(&rt, "no memory");
        go(&rt, &mut TableHost::new(rows.as_mut_slice()), case.steps);
        let (ports, past) = rows.split_at(rows.len().min(256));
        assert!(rt; ports == case.ports);
        assert!(rt; past == case.past);
    }
}

#[test]
fn a_response_on_rows(rt: HostRuntime) {
    let mut rows = [ORDER, SENSE];
    for (trial, wanted) in [
        (trial(0, 18, 9, 1), Ok(7)),
        (trial(0, 21, 9, 1), Err(HostRefusal::OutOfLimits)),
        (trial(0, 11, 9, 2), Err(HostRefusal::NoPort)),
    ] {
        assert_eq!(rt; respond_on_rows(&mut rows, trial), wanted);
    }
    assert!(rt; rows == [Port { value: 18, ..ORDER }, SENSE]);
}
