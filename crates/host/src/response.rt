// Measurements over any host, by its ports and its tick rule alone.
ghost use Rattle.std.specs.Prelude.{◌≡◌, ◌++◌, take, drop};
ghost use Rattle.std.specs.List.{AllZip};
ghost use Rattle.host.specs.Lawful.{Sensed};
ghost use Rattle.host.specs.Ports.{most_ports};
ghost use Rattle.host.specs.Refusals.{told};
ghost use Rattle.host.specs.Response.{ticked, responding, responded};
ghost use Rattle.host.specs.Table.{table_rule};

use crate::Host;
use crate::port::{HostRefusal, Port};
use crate::table::TableHost;

/// Lets a host advance so many times. Only values of sense ports change.
pub fn advance<H: Host>(host: &mut H, ticks: u32)
    ensures ports { H.ports host.new ≡ ticked ticks (H.rule (H.base host.old)) (H.ports host.old) }
    ensures senses { AllZip Sensed (H.ports host.old) (H.ports host.new) }
    ensures base { H.base host.new ≡ H.base host.old }
{
    for _tick in 0..ticks {
        host.tick();
    }
}

/// A trial of a host: an order, some ticks, and a look at a port.
#[derive(Clone, Copy, PartialEq, Eq, Debug)]
pub struct Trial {
    /// The port that is ordered.
    pub port: usize,
    /// The value that it is given.
    pub value: u32,
    pub ticks: u32,
    /// The port that is read at last.
    pub shown: usize,
}

/// What a host shows in a trial: gives the port its value, lets the host advance, and reads the port shown.
/// A port that is absent, or an order that is refused, is refused before anything changes.
pub fn respond<H: Host>(host: &mut H, trial: Trial) -> Result<u32, HostRefusal>
    ensures answer { told result ≡ responding (H.rule (H.base host.old)) (H.ports host.old) trial }
    ensures ports { H.ports host.new ≡ responded (H.rule (H.base host.old)) (H.ports host.old) trial }
    ensures base { H.base host.new ≡ H.base host.old }
{
    host.read(trial.shown)?;
    host.write(trial.port, trial.value)?;
    advance(host, trial.ticks);
    host.read(trial.shown)
}

/// The same over a table of the caller's rows. Afterwards the first 256 rows are the ports, and the others as they were.
pub fn respond_on_rows(rows: &mut [Port], trial: Trial) -> Result<u32, HostRefusal>
    ensures answer { told result ≡ responding table_rule (take most_ports rows.old) trial }
    ensures rows { rows.new ≡ responded table_rule (take most_ports rows.old) trial ++ drop most_ports rows.old }
{
    let mut table = TableHost::new(rows);
    respond(&mut table, trial)
}
