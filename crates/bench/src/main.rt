//! bench: measures the module on standard input by one grant over a new axis, or says why the module is refused.

#![tactic(auto)]

ghost use Rattle.std.specs.Prelude.{◌≡◌, ◌≤◌, [], ◌∷◌, ◌++◌, length, IfOk, IfSome, string_bytes};
ghost use Rattle.module.specs.Told.{bytes_of};
ghost use Rattle.bench.specs.Measured.{run_text, module_text, printed, DecidedBy};

use drive::call::{Call, Turn};
use drive::run::run;
use host::Host;
use host::axis::AxisHost;
use lines::{Answered, add_faults, add_ports};
use module::check::examine;
use module::checked::Checked;
use module::limits;
use module::shape::ShapeRow;
use std::alloc::{AllocError, Global};
use std::env::{Env, FillError};
use std::io;
use std::io::Read;
use std::process::ExitCode;

mod lines;

// The fuel of the one grant.
const FUEL: u32 = 10_000;

// Makes a call to a new drive of a checked module, and adds the lines of its run.
fn measure<H: Host>(
    checked: Checked<'_>,
    host: &mut H,
    call: Call,
    text: &mut String,
) -> Result<(), AllocError>
    ensures { IfOk result (λ _. string_bytes text.new ≡ string_bytes text.old ++ run_text (bytes_of checked.entry.opened) (H.rule (H.base host.old)) (H.ports host.old) (call ∷ [])) }
{
    let mut turns = [Turn { call, answer: None }];
    let drive = run(checked, host, &mut turns);
    let answered = Answered(turns[0].answer.unwrap());
    writeln!(text, "{answered}")?;
    add_ports(text, host)?;
    add_faults(text, &drive)
}

// The text of a module over any host: the lines of one call, or of its refusal.
fn report<H: Host>(
    heap: Global,
    bytes: &[u8],
    sheet: &mut [ShapeRow],
    host: &mut H,
    call: Call,
) -> Result<String, AllocError>
    ensures { IfOk result (λ s. string_bytes s ≡ module_text bytes.now (length sheet.old) (H.rule (H.base host.old)) (H.ports host.old) (call ∷ [])) }
{
    let mut text = String::new(heap);
    match examine(bytes, sheet) {
        Ok(checked) => measure(checked, host, call, &mut text)?,
        Err(refusal) => writeln!(text, "{refusal}")?,
    }
    Ok(text)
}

// What bench prints of what it read, which decides where it is 37,381 bytes.
fn bench(heap: Global, bytes: &[u8]) -> Result<String, AllocError>
    ensures text { IfOk result (λ s. string_bytes s ≡ printed bytes.now) }
    ensures decided { 37381 ≤ length bytes.now → DecidedBy bytes.now }
{
    let mut sheet = vec![in heap; ShapeRow::BLANK; limits::INSTRUCTIONS]?;
    let mut axis = AxisHost::new();
    report(
        heap,
        bytes,
        sheet.as_mut_slice(),
        &mut axis,
        Call::Grant { fuel: FUEL },
    )
}

// Reads an input as far as it decides what is printed of it.
fn read_deciding<R: Read + Drop>(heap: Global, input: R) -> io::Result<Vec<u8>>
    ensures { IfOk result (λ bytes. IfSome (R.remaining input) (λ all. printed bytes.items ≡ printed all)) }
{
    let mut bytes = Vec::new(heap);
    let most = limits::deciding_length() as u64;
    input.take(most).read_to_end(&mut bytes)?;
    Ok(bytes)
}

// Whether there is an argument besides the program's name.
fn has_argument<R: Env>(rt: &R) -> bool {
    !matches!(rt.arg(1, &mut []), Err(FillError::NotPresent))
}

fn main(rt: HostRuntime) -> io::Result<ExitCode> {
    if has_argument(&rt) {
        eprintln!(rt; "usage: bench < MODULE")?;
        return Ok(ExitCode::FAILURE);
    }
    let heap = rt.alloc();
    let bytes = read_deciding(heap, rt.stdin())?;
    let text = bench(heap, bytes.as_slice())?;
    print!(rt; "{text}")?;
    Ok(ExitCode::SUCCESS)
}
