use crate::seen::Step::{self, Refuses, Responds, Rest, Shows, Takes, Tick};
use crate::seen::go;
use counter::CounterHost;

static COUNTER: [Step; 11] = [
    Shows(&[1, 0]),
    Responds(0, 100, 3, 1, Ok(300)),
    Refuses(0, 101, 6),
    Refuses(1, 0, 5),
    Refuses(2, 0, 4),
    Rest,
    Tick,
    Shows(&[1, 301]),
    Takes(0, 0),
    Tick,
    Shows(&[0, 301]),
];

static DOZENS: [Step; 5] = [
    Shows(&[1, 0]),
    Responds(0, 40, 3, 1, Ok(1440)),
    Rest,
    Tick,
    Shows(&[1, 1452]),
];

// 2^32 - 1 parcels in a carton: each carton takes one from the count.
static FULLEST: [Step; 4] = [
    Tick,
    Shows(&[1, u32::MAX]),
    Responds(0, 100, 2, 1, Ok(u32::MAX - 200)),
    Refuses(2, 0, 4),
];

#[test]
fn a_counter_counts(rt: HostRuntime) {
    go(&rt, &mut CounterHost::new(), &COUNTER);
}

#[test]
fn a_counter_counts_cartons(rt: HostRuntime) {
    go(&rt, &mut CounterHost::of_cartons(12), &DOZENS);
    go(&rt, &mut CounterHost::of_cartons(u32::MAX), &FULLEST);
}
