ghost use Rattle.std.specs.Prelude.{◌≡◌};
ghost use Rattle.refusal.specs.Values.{layer_number};
ghost use Rattle.faults.specs.Causes.{cause_of};

use host::port::HostRefusal;
use refusal::Layer;

/// Why a step trips.
#[derive(Clone, Copy, PartialEq, Eq, Debug)]
pub enum Cause {
    /// 1: a division by zero.
    ZeroDivisor,
    /// 2: an address past the end of the memory.
    MemoryPassed { address: u64 },
    /// 3: a call that would nest a 33rd routine.
    TooDeep,
    /// 4, 5 or 6: the host refused a read or a write of this port.
    Host { refusal: HostRefusal, port: usize },
}

impl Cause {
    /// The number by which the documents name the cause.
    // A number, since documents and published fault lists know causes by it, and so is the detail.
    pub fn number(self) -> u8
        ensures { result ≡ (cause_of self).number }
    {
        match self {
            Cause::ZeroDivisor => 1,
            Cause::MemoryPassed { .. } => 2,
            Cause::TooDeep => 3,
            Cause::Host { refusal, .. } => refusal.number(),
        }
    }

    /// Who causes it: the engine or the host.
    pub fn layer(self) -> Layer
        ensures { layer_number result ≡ (cause_of self).layer }
    {
        match self {
            Cause::ZeroDivisor | Cause::MemoryPassed { .. } | Cause::TooDeep => Layer::Engine,
            Cause::Host { refusal, .. } => refusal.layer(),
        }
    }

    /// The address or the port, or 0 where there is neither.
    pub fn detail(self) -> u64
        ensures { result ≡ (cause_of self).detail }
    {
        match self {
            Cause::ZeroDivisor | Cause::TooDeep => 0,
            Cause::MemoryPassed { address } => address,
            Cause::Host { port, .. } => port as u64,
        }
    }
}
