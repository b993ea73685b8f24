//! A host of the tests' own, with a rule unlike the others': a lamp, which counts how often its light changed.

ghost use Rattle.std.specs.Prelude.{◌≡◌};
ghost use Rattle.host.specs.Ports.{NamesPort};
ghost use Rattle.drive_cases.specs.Lamp.{port_number, lamp_ports, ports_with, lamp_rule, lamp_lawful};

use host::Host;
use host::port::HostRefusal;

const BRIGHTEST: u32 = 100;

// The ports of a lamp, port 0 first.
#[derive(Clone, Copy, PartialEq, Eq, Debug)]
enum LampPort {
    Ordered,
    Light,
    Changes,
}

impl TryFrom<usize> for LampPort {
    type Error = HostRefusal;

    ghost try_from_gives = { NamesPort port_number 3 };

    fn try_from(p: usize) -> Result<LampPort, HostRefusal> {
        match p {
            0 => Ok(LampPort::Ordered),
            1 => Ok(LampPort::Light),
            2 => Ok(LampPort::Changes),
            _ => Err(HostRefusal::NoPort),
        }
    }
}

#[derive(Drop)]
pub(crate) struct LampHost {
    // Port 0: the light that is ordered.
    ordered: u32,
    // Port 1: the light that there is.
    light: u32,
    // Port 2: at how many ticks the light changed.
    changes: u32,
}

impl LampHost {
    // A dark lamp.
    pub(crate) fn new() -> Self
        ensures { lamp_ports result ≡ ports_with 0 0 0 }
    {
        LampHost {
            ordered: 0,
            light: 0,
            changes: 0,
        }
    }
}

impl Host for LampHost {
    ghost Base = { Unit {0} };

    ghost base = { λ _. tt };

    ghost ports = { lamp_ports };

    ghost rule = { λ _. lamp_rule };

    fn read(&self, p: usize) -> Result<u32, HostRefusal> {
        match LampPort::try_from(p)? {
            LampPort::Ordered => Ok(self.ordered),
            LampPort::Light => Ok(self.light),
            LampPort::Changes => Ok(self.changes),
        }
    }

    fn write(&mut self, p: usize, v: u32) -> Result<(), HostRefusal> {
        match LampPort::try_from(p)? {
            LampPort::Ordered if v <= BRIGHTEST => {
                self.ordered = v;
                Ok(())
            }
            LampPort::Ordered => Err(HostRefusal::OutOfLimits),
            LampPort::Light | LampPort::Changes => Err(HostRefusal::SensePort),
        }
    }

    fn tick(&mut self) {
        if self.light != self.ordered {
            self.light = self.ordered;
            self.changes = self.changes.wrapping_add(1);
        }
    }

    fn rest(&mut self) {
        self.ordered = 0;
    }

    ghost lawful = { lamp_lawful };
}
