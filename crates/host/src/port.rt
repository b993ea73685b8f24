ghost use Rattle.std.specs.Prelude.{◌≡◌};
ghost use Rattle.refusal.specs.Values.{layer_number};
ghost use Rattle.host.specs.Refusals.{told, values_of};
ghost use Rattle.host.specs.Ports.{ordering, ordered, at_rest};

use refusal::Layer;

/// The most ports that a host has.
pub const MOST_PORTS: usize = 256;

/// Whether a port takes orders or only senses.
#[derive(Clone, Copy, PartialEq, Eq, Debug)]
pub enum Flag {
    Order,
    Sense,
}

/// A port of a host.
#[derive(Clone, Copy, PartialEq, Eq, Debug)]
pub struct Port {
    pub value: u32,
    /// The lowest value that it takes as an order.
    pub low: u32,
    /// The highest.
    pub high: u32,
    pub flag: Flag,
    /// The value that a rest gives it, if it has one.
    pub rest: Option<u32>,
}

/// Why a host refuses a read or a write.
#[derive(Clone, Copy, PartialEq, Eq, Debug)]
pub enum HostRefusal {
    /// 4: there is no such port.
    NoPort,
    /// 5: a write to a sense port.
    SensePort,
    /// 6: the value is outside the limits of the port.
    OutOfLimits,
}

impl HostRefusal {
    /// The number by which the documents name the refusal.
    // A number, since documents and programs know refusals by it.
    pub fn number(self) -> u8
        ensures { result ≡ (values_of self).number }
    {
        match self {
            HostRefusal::NoPort => 4,
            HostRefusal::SensePort => 5,
            HostRefusal::OutOfLimits => 6,
        }
    }

    /// Who causes it: the host.
    pub fn layer(self) -> Layer
        ensures { layer_number result ≡ (values_of self).layer }
    {
        Layer::Host
    }
}

impl Port {
    /// Takes an order of v, or refuses with 5 or 6.
    pub fn order(&mut self, v: u32) -> Result<(), HostRefusal>
        ensures answer { told result ≡ ordering self.old v }
        ensures port { self.new ≡ ordered self.old v }
    {
        match self.flag {
            Flag::Sense => Err(HostRefusal::SensePort),
            Flag::Order if (self.low..=self.high).contains(&v) => {
                self.value = v;
                Ok(())
            }
            Flag::Order => Err(HostRefusal::OutOfLimits),
        }
    }

    /// Takes its rest value, if it has one.
    pub fn rest(&mut self)
        ensures { self.new ≡ at_rest self.old }
    {
        self.value = self.rest.unwrap_or(self.value);
    }
}
