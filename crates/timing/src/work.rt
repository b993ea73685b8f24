// What is timed of each kernel.
use crate::kernels::Kernel;
use crate::rounds::{Round, best_round};
use anyhow::ensure;
use drive::call::MOST_FUEL;
use drive::drive::Drive;
use host::Host;
use host::axis::AxisHost;
use isa::row::Row;
use machine::machine::State;
use module::check::examine;
use module::entry::Entry;
use module::limits;
use module::shape::ShapeRow;
use packing::repack::repack;
use std::alloc::Global;
use std::time::Clock;

// Measures a kernel, of which this is the module, and prints how fast it is.
pub(crate) fn measure(
    rt: &(impl Clock + Print),
    heap: Global,
    name: &str,
    kernel: Kernel,
    bytes: &[u8],
) -> anyhow::Result<()> {
    let mut sheet = vec![in heap; ShapeRow::BLANK; limits::INSTRUCTIONS]?;
    let sheet = sheet.as_mut_slice();
    let (round, each, unit) = match kernel {
        Kernel::Check { .. } => (checks(rt, bytes, sheet)?, 1, "module"),
        Kernel::Repack { .. } => (repacks(rt, heap, bytes, sheet)?, 1, "module"),
        _ => (grants(rt, bytes, sheet)?, MOST_FUEL, "step"),
    };
    round.print(rt, name, each, unit)
}

fn grants(rt: &impl Clock, bytes: &[u8], sheet: &mut [ShapeRow]) -> anyhow::Result<Round> {
    let mut drive = Drive::start(examine(bytes, sheet)?);
    let mut axis = AxisHost::new();
    best_round(rt, || grant(&mut drive, &mut axis))
}

// A drive that did not make all steps would tell nothing of their time.
fn grant<H: Host>(drive: &mut Drive<'_>, host: &mut H) -> anyhow::Result<()> {
    let answer = drive.grant(host, MOST_FUEL)?;
    ensure!(
        answer == (MOST_FUEL, State::Running),
        "a grant answered {answer:?}"
    );
    Ok(())
}

fn checks(rt: &impl Clock, bytes: &[u8], sheet: &mut [ShapeRow]) -> anyhow::Result<Round> {
    best_round(rt, || {
        examine(bytes, sheet)?;
        Ok(())
    })
}

fn repacks(
    rt: &impl Clock,
    heap: Global,
    bytes: &[u8],
    sheet: &mut [ShapeRow],
) -> anyhow::Result<Round> {
    let mut rows = vec![in heap; Row::default(); limits::INSTRUCTIONS]?;
    let mut output = vec![in heap; 0; limits::deciding_length()]?;
    let module = examine(bytes, sheet)?;
    best_round(rt, || {
        repack(
            &module,
            &mut [Entry::default()],
            rows.as_mut_slice(),
            output.as_mut_slice(),
        )?;
        Ok(())
    })
}
