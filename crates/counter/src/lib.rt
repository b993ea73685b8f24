//! The host of one's own that docs/HOSTS.md works through: a counter of parcels.

#![tactic(auto)]

ghost use Rattle.std.specs.Prelude.{◌≡◌, ℕ};
ghost use Rattle.host.specs.Ports.{NamesPort};
ghost use Rattle.counter.specs.Counter.{port_number, ports_with, counter_base, counter_ports, counter_rule, counter_lawful};

use host::Host;
use host::port::HostRefusal;

const QUICKEST: u32 = 100;

const RESTING: u32 = 1;

// The ports of a counter, port 0 first.
#[derive(Clone, Copy, PartialEq, Eq, Debug)]
enum CounterPort {
    Pace,
    Count,
}

impl TryFrom<usize> for CounterPort {
    type Error = HostRefusal;

    ghost try_from_gives = { NamesPort port_number 2 };

    fn try_from(p: usize) -> Result<CounterPort, HostRefusal> {
        match p {
            0 => Ok(CounterPort::Pace),
            1 => Ok(CounterPort::Count),
            _ => Err(HostRefusal::NoPort),
        }
    }
}

/// Counts the parcels that pass, in cartons.
#[derive(Drop)]
pub struct CounterHost {
    /// How many parcels a carton holds. No call changes it.
    parcels: u32,
    /// Port 0: how many cartons pass in a tick.
    pace: u32,
    /// Port 1: how many parcels have passed.
    count: u32,
}

impl CounterHost {
    /// A counter at 0, of cartons with one parcel.
    pub fn new() -> Self
        ensures ports { counter_ports result ≡ ports_with 1 0 }
        ensures base { counter_base result ≡ 1 }
    {
        CounterHost::of_cartons(1)
    }

    /// A counter at 0, of cartons with so many parcels.
    pub fn of_cartons(parcels: u32) -> Self
        ensures ports { counter_ports result ≡ ports_with 1 0 }
        ensures base { counter_base result ≡ parcels }
    {
        CounterHost {
            parcels,
            pace: RESTING,
            count: 0,
        }
    }
}

impl Host for CounterHost {
    ghost Base = { ℕ };

    ghost base = { counter_base };

    ghost ports = { counter_ports };

    ghost rule = { counter_rule };

    fn read(&self, p: usize) -> Result<u32, HostRefusal> {
        match CounterPort::try_from(p)? {
            CounterPort::Pace => Ok(self.pace),
            CounterPort::Count => Ok(self.count),
        }
    }

    fn write(&mut self, p: usize, v: u32) -> Result<(), HostRefusal> {
        match CounterPort::try_from(p)? {
            CounterPort::Pace if v <= QUICKEST => {
                self.pace = v;
                Ok(())
            }
            CounterPort::Pace => Err(HostRefusal::OutOfLimits),
            CounterPort::Count => Err(HostRefusal::SensePort),
        }
    }

    fn tick(&mut self) {
        let passed = self.pace.wrapping_mul(self.parcels);
        self.count = self.count.wrapping_add(passed);
    }

    fn rest(&mut self) {
        self.pace = RESTING;
    }

    ghost lawful = { counter_lawful };
}
