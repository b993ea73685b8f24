use crate::seen::Step::{self, Advance, Refuses, Responds, Rest, Shows, Takes, Tick};
use crate::seen::go;
use host::axis::AxisHost;
use host::port::HostRefusal;

// Steps with a new axis.
static AXIS: [&[Step]; 9] = [
    // a new axis stands still
    &[Shows(&[0, 50, 0, 0]), Advance(3), Shows(&[0, 50, 0, 0])],
    // orders at, below and above the limits
    &[
        Takes(0, 2999),
        Takes(0, 3000),
        Refuses(0, 3001, 6),
        Refuses(0, u32::MAX, 6),
        Takes(1, 2),
        Takes(1, 1),
        Refuses(1, 0, 6),
        Shows(&[3000, 1, 0, 0]),
        Takes(1, 499),
        Takes(1, 500),
        Refuses(1, 501, 6),
        Takes(0, 1),
        Takes(0, 0),
        Shows(&[0, 500, 0, 0]),
    ],
    // sense ports, and ports past the last
    &[
        Refuses(2, 0, 5),
        Refuses(3, u32::MAX, 5),
        Refuses(4, 0, 4),
        Refuses(256, 0, 4),
        Refuses(usize::MAX, 0, 4),
        Shows(&[0, 50, 0, 0]),
    ],
    // ordered to 120 at a ramp of 50
    &[
        Takes(0, 120),
        Tick,
        Shows(&[120, 50, 50, 50]),
        Tick,
        Shows(&[120, 50, 100, 150]),
        Tick,
        Shows(&[120, 50, 120, 270]),
        Tick,
        Shows(&[120, 50, 120, 390]),
    ],
    // braking
    &[
        Takes(0, 120),
        Advance(3),
        Takes(0, 30),
        Tick,
        Shows(&[30, 50, 70, 340]),
        Tick,
        Shows(&[30, 50, 30, 370]),
        Takes(0, 0),
        Tick,
        Shows(&[0, 50, 0, 370]),
        Tick,
        Shows(&[0, 50, 0, 370]),
    ],
    // the gentlest and the steepest ramp
    &[
        Takes(1, 1),
        Takes(0, 2),
        Tick,
        Shows(&[2, 1, 1, 1]),
        Tick,
        Shows(&[2, 1, 2, 3]),
        Tick,
        Shows(&[2, 1, 2, 5]),
        Takes(1, 500),
        Takes(0, 3000),
        Tick,
        Shows(&[3000, 500, 502, 507]),
        Advance(5),
        Shows(&[3000, 500, 3000, 10515]),
        Takes(0, 2999),
        Tick,
        Shows(&[2999, 500, 2999, 13514]),
        Takes(0, 2000),
        Tick,
        Shows(&[2000, 500, 2499, 16013]),
        Tick,
        Shows(&[2000, 500, 2000, 18013]),
        Takes(1, 1),
        Takes(0, 1998),
        Tick,
        Shows(&[1998, 1, 1999, 20012]),
        Tick,
        Shows(&[1998, 1, 1998, 22010]),
        Tick,
        Shows(&[1998, 1, 1998, 24008]),
    ],
    // the position wraps
    &[
        Takes(1, 500),
        Takes(0, 3000),
        Advance(1_431_658),
        Shows(&[3000, 500, 3000, 4_294_966_500]),
        Tick,
        Shows(&[3000, 500, 3000, 2204]),
    ],
    // a rest leaves speed and position
    &[
        Takes(1, 500),
        Takes(0, 400),
        Tick,
        Rest,
        Shows(&[0, 50, 400, 400]),
        Tick,
        Shows(&[0, 50, 350, 750]),
    ],
    // a response that is refused changes nothing
    &[
        Responds(0, 120, 2, 2, Ok(100)),
        Shows(&[120, 50, 100, 150]),
        Responds(0, 60, 2, 4, Err(HostRefusal::NoPort)),
        Responds(4, 60, 2, 2, Err(HostRefusal::NoPort)),
        Responds(2, 60, 2, 2, Err(HostRefusal::SensePort)),
        Responds(0, 3001, 2, 2, Err(HostRefusal::OutOfLimits)),
        Shows(&[120, 50, 100, 150]),
        Responds(0, 60, 0, 3, Ok(150)),
        Shows(&[60, 50, 100, 150]),
    ],
];

#[test]
fn an_axis(rt: HostRuntime) {
    for steps in &AXIS {
        go(&rt, &mut AxisHost::new(), steps);
    }
}
