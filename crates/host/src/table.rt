ghost use Rattle.std.specs.Prelude.{◌≡◌, List, take, drop};
ghost use Rattle.std.specs.Borrow.{GName};
ghost use Rattle.host.specs.declared.port.Port.{Port as Row};
ghost use Rattle.host.specs.Ports.{most_ports, rested};
ghost use Rattle.host.specs.Table.{table_ports, table_rule, table_base, table_lawful};

use crate::Host;
use crate::port::{HostRefusal, MOST_PORTS, Port};

/// A host that stands on rows lent by the caller, one port each. Rows after the 256th are ignored.
#[derive(Drop)]
pub struct TableHost<'a> {
    rows: &'a mut [Port],
}

impl<'a> TableHost<'a> {
    /// A table of these rows.
    pub fn new(rows: &'a mut [Port]) -> TableHost<'a>
        ensures ports { table_ports result ≡ take most_ports rows.old }
        ensures base { table_base result ≡ (rows.entry.ghost_name, drop most_ports rows.old) }
    {
        TableHost { rows }
    }

    // The rows that are ports.
    fn ports(&self) -> &[Port]
        ensures { result.now ≡ table_ports self.now }
    {
        &self.rows[..MOST_PORTS.min(self.rows.len())]
    }
}

// Gives each row that is a port its rest value. A free function over the slice: after a loop over a part of a slice that a struct
// holds, a proof knows no element of it.
fn rest_ports(rows: &mut [Port])
    ensures ports { take most_ports rows.new ≡ rested (take most_ports rows.old) }
    ensures past { drop most_ports rows.new ≡ drop most_ports rows.old }
{
    let count = MOST_PORTS.min(rows.len());
    for port in &mut rows[..count] {
        port.rest();
    }
}

impl Host for TableHost<'_> {
    ghost Base = { GName × List Row };

    ghost base = { table_base };

    ghost ports = { table_ports };

    ghost rule = { λ _. table_rule };

    fn read(&self, p: usize) -> Result<u32, HostRefusal> {
        let port = self.ports().get(p).ok_or(HostRefusal::NoPort)?;
        Ok(port.value)
    }

    fn write(&mut self, p: usize, v: u32) -> Result<(), HostRefusal> {
        if p >= self.ports().len() {
            return Err(HostRefusal::NoPort);
        }
        // By index: once a row that `get_mut` lent is given back, a proof knows no element of the rows.
        self.rows[p].order(v)
    }

    fn tick(&mut self) {}

    fn rest(&mut self) {
        rest_ports(self.rows);
    }

    ghost lawful = { table_lawful };
}
