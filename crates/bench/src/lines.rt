// The lines of a run.
ghost use Rattle.std.specs.Prelude.{◌≡◌, ◌++◌, Some, IfOk, string_bytes};
ghost use Rattle.faults.specs.Faults.{values_of};
ghost use Rattle.drive.specs.View.{by_values, faults_in};
ghost use Rattle.bench.specs.Text.{answer_text, port_lines, fault_text, fault_lines};

use drive::call::Answer;
use drive::drive::Drive;
use faults::fault::Fault;
use faults::table::MOST_FAULTS;
use host::Host;
use host::port::MOST_PORTS;
use machine::machine::State;
use std::alloc::AllocError;
use std::fmt;

// What a grant answered.
#[derive(Clone, Copy)]
pub struct Answered(pub Answer);

impl fmt::Display for Answered {
    ghost output = { λ answered. Some (answer_text (by_values answered.0)) };

    fn fmt<W: fmt::Write>(&self, f: &mut fmt::Formatter<W>) -> fmt::Result {
        match self.0 {
            Ok((steps, State::Running)) => write!(f, "running {steps}"),
            Ok((steps, State::Ended)) => write!(f, "ended {steps}"),
            Ok((steps, State::Tripped { .. })) => write!(f, "tripped {steps}"),
            Err(refusal) => write!(f, "{refusal}"),
        }
    }
}

// A fault, by its six numbers.
#[derive(Clone, Copy)]
struct Numbers(Fault);

impl fmt::Display for Numbers {
    ghost output = { λ numbers. Some (fault_text (values_of numbers.0)) };

    fn fmt<W: fmt::Write>(&self, f: &mut fmt::Formatter<W>) -> fmt::Result {
        let Numbers(fault) = *self;
        let cause = fault.cause.number();
        let layer = u8::from(fault.cause.layer());
        let routine = fault.place.routine;
        let instruction = fault.place.instruction;
        let detail = fault.cause.detail();
        let mark = fault.mark();
        write!(
            f,
            "fault {cause} {layer} {routine} {instruction} {detail} {mark}"
        )
    }
}

// Adds a line for each port.
pub fn add_ports<H: Host>(text: &mut String, host: &H) -> Result<(), AllocError>
    ensures { IfOk result (λ _. string_bytes text.new ≡ string_bytes text.old ++ port_lines 0 (H.ports host.now)) }
{
    for p in 0..MOST_PORTS {
        let Ok(value) = host.read(p) else {
            break;
        };
        writeln!(text, "port {p} {value}")?;
    }
    Ok(())
}

// Adds a line for each fault, the oldest first.
pub fn add_faults(text: &mut String, drive: &Drive<'_>) -> Result<(), AllocError>
    ensures { IfOk result (λ _. string_bytes text.new ≡ string_bytes text.old ++ fault_lines (faults_in drive.now)) }
{
    for i in 0..MOST_FAULTS {
        let Ok(fault) = drive.fault(i) else {
            break;
        };
        let numbers = Numbers(fault);
        writeln!(text, "{numbers}")?;
    }
    Ok(())
}
