//! The program of docs/DRIVE.md.

use drive::call::{Call, Turn};
use drive::drive::Drive;
use drive::run::run;
use host::axis::AxisHost;
use machine::machine::State;
use module::checked::Checked;
use module::open::open;
use module::shape::ShapeRow;
use refusal::Refusal;

// Opens and checks a module, starts a drive, and grants it 10,000 steps over a new axis.
pub(crate) fn ramp(bytes: &[u8], sheet: &mut [ShapeRow]) -> Result<(u32, State), Refusal> {
    let checked = open(bytes)?.check(sheet)?;
    let mut axis = AxisHost::new();
    let mut drive = Drive::start(checked);
    drive.grant(&mut axis, 10_000)
}

// The same with a list of calls, which restarts the drive and makes one step more.
pub(crate) fn twice<'a>(checked: Checked<'a>, axis: &mut AxisHost) -> (Drive<'a>, [Turn; 3]) {
    let mut turns = [
        Turn {
            call: Call::Grant { fuel: 10_000 },
            answer: None,
        },
        Turn {
            call: Call::Restart,
            answer: None,
        },
        Turn {
            call: Call::Grant { fuel: 1 },
            answer: None,
        },
    ];
    let drive = run(checked, axis, &mut turns);
    (drive, turns)
}
