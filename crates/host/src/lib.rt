//! Hosts: what a drive reads, writes, lets advance and brings to rest. A host is known by its ports and its tick rule.

#![tactic(auto)]

ghost use Rattle.std.specs.Prelude.{◌≡◌, List};
ghost use Rattle.host.specs.declared.port.Port.{Port};
ghost use Rattle.host.specs.Refusals.{told};
ghost use Rattle.host.specs.Ports.{reading, writing, written, rested};
ghost use Rattle.host.specs.Lawful.{LawfulHost};

use port::HostRefusal;

pub mod axis;
pub mod port;
pub mod response;
pub mod table;

/// Anything that has ports and a tick rule, and keeps to them.
///
/// A host is its ports, which a call may change, and its base, which no call does. The tick rule is a function of the base:
/// that no call changes the rule follows from the clause `base`, and no clause says it again.
pub trait Host {
    // Whatever there is of the host that no call changes.
    ghost Base: { Type 0 };

    ghost base: { Self → Base };

    // The ports, port 0 first.
    ghost ports: { Self → List Port };

    // The tick rule of a host with this base: what a tick makes of the ports.
    ghost rule: { Base → List Port → List Port };

    /// The value of port p, or refusal 4. A read changes nothing: the host is not lent for writing.
    fn read(&self, p: usize) -> Result<u32, HostRefusal>
        ensures answer { told result ≡ reading (ports self.now) p };

    /// Gives port p the value v, or refuses with 4, 5 or 6.
    fn write(&mut self, p: usize, v: u32) -> Result<(), HostRefusal>
        ensures answer { told result ≡ writing (ports self.old) p v }
        ensures ports { ports self.new ≡ written (ports self.old) p v }
        ensures base { base self.new ≡ base self.old };

    /// Advances once, by the tick rule.
    fn tick(&mut self)
        ensures ports { ports self.new ≡ rule (base self.old) (ports self.old) }
        ensures base { base self.new ≡ base self.old };

    /// Gives each port that has a rest value that value.
    fn rest(&mut self)
        ensures ports { ports self.new ≡ rested (ports self.old) }
        ensures base { base self.new ≡ base self.old };

    // What each host proves: it has at most 256 ports, and its rule, from these ports with any values, changes only values of
    // sense ports.
    ghost lawful: { LawfulHost base ports rule };
}
