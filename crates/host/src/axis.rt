ghost use Rattle.std.specs.Prelude.{◌≡◌};
ghost use Rattle.host.specs.Axis.{axis_ports, new_axis, towards, axis_rule, axis_lawful, OrderedTo120, port_number};
ghost use Rattle.host.specs.Ports.{NamesPort};

use crate::Host;
use crate::port::HostRefusal;

const TOP_SPEED: u32 = 3_000;

const GENTLEST_RAMP: u32 = 1;

const STEEPEST_RAMP: u32 = 500;

const RESTING_RAMP: u32 = 50;

// The ports of an axis, port 0 first.
#[derive(Clone, Copy, PartialEq, Eq, Debug)]
enum AxisPort {
    Ordered,
    Ramp,
    Speed,
    Position,
}

impl TryFrom<usize> for AxisPort {
    type Error = HostRefusal;

    ghost try_from_gives = { NamesPort port_number 4 };

    fn try_from(p: usize) -> Result<AxisPort, HostRefusal> {
        match p {
            0 => Ok(AxisPort::Ordered),
            1 => Ok(AxisPort::Ramp),
            2 => Ok(AxisPort::Speed),
            3 => Ok(AxisPort::Position),
            _ => Err(HostRefusal::NoPort),
        }
    }
}

/// A motor axis, with the values of its four ports.
#[derive(Drop)]
pub struct AxisHost {
    /// Port 0: the speed that is ordered.
    ordered: u32,
    /// Port 1: by how much the speed changes in a tick, at most.
    ramp: u32,
    /// Port 2.
    speed: u32,
    /// Port 3.
    position: u32,
}

impl AxisHost {
    /// An axis that stands still.
    pub fn new() -> Self
        ensures ports { axis_ports result ≡ new_axis }
        ensures example { OrderedTo120 (axis_ports result) }
    {
        AxisHost {
            ordered: 0,
            ramp: RESTING_RAMP,
            speed: 0,
            position: 0,
        }
    }

    // The speed after a tick.
    fn next_speed(&self) -> u32
        ensures { result ≡ towards self.now.ordered self.now.ramp self.now.speed }
    {
        if self.speed <= self.ordered {
            self.speed + self.ramp.min(self.ordered - self.speed)
        } else {
            self.speed - self.ramp.min(self.speed - self.ordered)
        }
    }
}

impl Host for AxisHost {
    ghost Base = { Unit {0} };

    ghost base = { λ _. tt };

    ghost ports = { axis_ports };

    ghost rule = { λ _. axis_rule };

    fn read(&self, p: usize) -> Result<u32, HostRefusal> {
        match AxisPort::try_from(p)? {
            AxisPort::Ordered => Ok(self.ordered),
            AxisPort::Ramp => Ok(self.ramp),
            AxisPort::Speed => Ok(self.speed),
            AxisPort::Position => Ok(self.position),
        }
    }

    fn write(&mut self, p: usize, v: u32) -> Result<(), HostRefusal> {
        match AxisPort::try_from(p)? {
            AxisPort::Ordered if v <= TOP_SPEED => self.ordered = v,
            AxisPort::Ramp if (GENTLEST_RAMP..=STEEPEST_RAMP).contains(&v) => self.ramp = v,
            AxisPort::Ordered | AxisPort::Ramp => return Err(HostRefusal::OutOfLimits),
            AxisPort::Speed | AxisPort::Position => return Err(HostRefusal::SensePort),
        }
        Ok(())
    }

    fn tick(&mut self) {
        self.speed = self.next_speed();
        self.position = self.position.wrapping_add(self.speed);
    }

    fn rest(&mut self) {
        self.ordered = 0;
        self.ramp = RESTING_RAMP;
    }

    ghost lawful = { axis_lawful };
}
