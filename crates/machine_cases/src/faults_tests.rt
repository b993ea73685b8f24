use faults::cause::Cause;
use faults::fault::Fault;
use faults::list::FaultList;
use host::port::HostRefusal;
use refusal::Place;
use std::process::Abort;

const PLACE: Place = Place {
    routine: 3,
    instruction: 40,
};

// The number of a cause, its layer and its detail.
type Numbers = (u8, u8, u64);

fn numbers_of(cause: Cause) -> Numbers {
    (cause.number(), cause.layer().into(), cause.detail())
}

static CAUSES: [(Cause, Numbers); 6] = [
    (Cause::ZeroDivisor, (1, 2, 0)),
    (Cause::MemoryPassed { address: u64::MAX }, (2, 2, u64::MAX)),
    (Cause::TooDeep, (3, 2, 0)),
    (
        Cause::Host {
            refusal: HostRefusal::NoPort,
            port: 9,
        },
        (4, 3, 9),
    ),
    (
        Cause::Host {
            refusal: HostRefusal::SensePort,
            port: 0,
        },
        (5, 3, 0),
    ),
    (
        Cause::Host {
            refusal: HostRefusal::OutOfLimits,
            port: usize::MAX,
        },
        (6, 3, u64::MAX),
    ),
];

#[test]
fn the_numbers_of_every_cause(rt: HostRuntime) {
    for (cause, numbers) in &CAUSES {
        assert_eq!(rt; numbers_of(*cause), *numbers);
    }
}

// Addresses, from the first to before the end.
type Addresses = (u16, u16);

#[derive(Clone, Copy)]
enum Step {
    // Adds a fault for each of these addresses.
    Add(Addresses),
    Cycle,
}

use Step::{Add, Cycle};

// A step, and the addresses of the faults that are then marked and of those that are not, in this order.
type Kept = (Step, Addresses, Addresses);

const NONE: Addresses = (0, 0);

static NO_FAULTS: [Kept; 2] = [(Add(NONE), NONE, NONE), (Cycle, NONE, NONE)];

static SIXTEEN_ARE_ALL_KEPT: [Kept; 2] = [
    (Add((0, 15)), NONE, (0, 15)),
    (Add((15, 16)), NONE, (0, 16)),
];

static A_SEVENTEENTH_PUSHES_OUT_THE_OLDEST: [Kept; 1] = [(Add((0, 17)), NONE, (1, 17))];

static OF_TWENTY_THE_NEWEST_SIXTEEN_ARE_KEPT: [Kept; 3] = [
    (Add((0, 20)), NONE, (4, 20)),
    (Cycle, (4, 20), NONE),
    (Cycle, NONE, NONE),
];

static THREE_CYCLES: [Kept; 5] = [
    (Add((0, 2)), NONE, (0, 2)),
    (Cycle, (0, 2), NONE),
    (Add((5, 6)), (0, 2), (5, 6)),
    (Cycle, (5, 6), NONE),
    (Cycle, NONE, NONE),
];

static A_FAULT_MORE_PUSHES_OUT_A_MARKED_ONE: [Kept; 4] = [
    (Add((0, 16)), NONE, (0, 16)),
    (Cycle, (0, 16), NONE),
    (Add((16, 17)), (1, 16), (16, 17)),
    (Cycle, (16, 17), NONE),
];

fn place_of(address: u16) -> Place {
    Place {
        routine: 1,
        instruction: address,
    }
}

impl Step {
    fn make(self, list: &mut FaultList) {
        match self {
            Add((first, end)) => {
                for address in first..end {
                    let cause = Cause::MemoryPassed {
                        address: u64::from(address),
                    };
                    list.add(cause, place_of(address));
                }
            }
            Cycle => list.cycle(),
        }
    }
}

// Wants the faults that were added for these addresses from the place on, with this mark, and answers how many they are.
fn shows(rt: &impl Abort, list: &FaultList, from: usize, addresses: Addresses, mark: u8) -> usize {
    let mut at = from;
    for address in addresses.0..addresses.1 {
        let fault = list.get(at).expect(rt, "a fault at this place");
        assert_eq!(rt; numbers_of(fault.cause), (2, 2, u64::from(address)));
        assert!(rt; fault.place == place_of(address));
        assert!(rt; fault.mark() == mark);
        at = at.saturating_add(1);
    }
    at
}

fn keeps(rt: &impl Abort, steps: &[Kept]) {
    let mut list = FaultList::new();
    for (step, marked, fresh) in steps {
        step.make(&mut list);
        let count = shows(rt, &list, shows(rt, &list, 0, *marked, 1), *fresh, 0);
        assert!(rt; list.len() == count);
        assert!(rt; list.get(count).is_none());
        assert!(rt; list.get(usize::MAX).is_none());
    }
}

#[test]
fn faults_are_kept_for_two_cycles(rt: HostRuntime) {
    keeps(&rt, &NO_FAULTS);
    keeps(&rt, &SIXTEEN_ARE_ALL_KEPT);
    keeps(&rt, &A_SEVENTEENTH_PUSHES_OUT_THE_OLDEST);
    keeps(&rt, &OF_TWENTY_THE_NEWEST_SIXTEEN_ARE_KEPT);
    keeps(&rt, &THREE_CYCLES);
    keeps(&rt, &A_FAULT_MORE_PUSHES_OUT_A_MARKED_ONE);
}

// Wants this fault and no other, or none.
fn holds(rt: &impl Abort, list: &FaultList, fault: Option<Fault>) {
    assert!(rt; list.len() == usize::from(fault.is_some()));
    assert!(rt; list.get(0) == fault);
    assert!(rt; list.get(1).is_none());
    assert!(rt; list.get(usize::MAX).is_none());
}

#[test]
fn one_fault(rt: HostRuntime) {
    let mut list = FaultList::new();
    let fault = Fault {
        cause: Cause::Host {
            refusal: HostRefusal::SensePort,
            port: 7,
        },
        place: PLACE,
        marked: false,
    };
    list.add(fault.cause, fault.place);
    holds(&rt, &list, Some(fault));
    list.cycle();
    holds(
        &rt,
        &list,
        Some(Fault {
            marked: true,
            ..fault
        }),
    );
    list.cycle();
    holds(&rt, &list, None);
}
