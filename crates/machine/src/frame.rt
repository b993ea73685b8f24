ghost use Rattle.std.specs.Prelude.{◌≤◌};

use module::limits;

/// The most registers of a routine.
pub const REGISTERS: usize = limits::REGISTERS as usize;

/// A register: a variable, or a constant that DEF made.
#[derive(Clone, Copy)]
pub enum Register {
    Variable(u32),
    Constant(u32),
}

/// A nested routine: which one, the instruction that it stands at, and its registers, of which the first depth are there.
#[derive(Clone, Copy)]
pub struct Frame {
    pub(crate) routine: usize,
    pub(crate) pc: usize,
    // Fixed memory and a depth: nothing on the drive allocates.
    pub(crate) depth: usize,
    pub(crate) registers: [Register; REGISTERS],
    ghost few: { depth ≤ 32 },
}
