ghost use Rattle.std.specs.Prelude.{◌≡◌, map};
ghost use Rattle.module.specs.Told.{bytes_of};
ghost use Rattle.drive.specs.Law.{Ran, Law, EveryRun, EveryGrant};
ghost use Rattle.drive.specs.View.{call_of, said_of};

use crate::call::Turn;
use crate::drive::Drive;
use host::Host;
use module::checked::Checked;

/// Starts a drive of a checked module, makes the calls of the turns one after the other, and fills in what they answer.
pub fn run<'a, H: Host>(checked: Checked<'a>, host: &mut H, turns: &mut [Turn]) -> Drive<'a>
    ensures ran { Ran (bytes_of checked.entry.opened) (H.rule (H.base host.old)) (H.ports host.old) (map call_of turns.old) (map said_of turns.new) result (H.ports host.new) }
    ensures law { Law (bytes_of checked.entry.opened) (H.rule (H.base host.old)) (H.ports host.old) (map call_of turns.old) (map said_of turns.new) result (H.ports host.new) }
    ensures every_run { EveryRun }
    ensures every_grant { EveryGrant }
    ensures calls { map call_of turns.new ≡ map call_of turns.old }
    ensures base { H.base host.new ≡ H.base host.old }
{
    let mut drive = Drive::start(checked);
    for turn in turns {
        turn.answer = Some(drive.call(host, turn.call));
    }
    drive
}
