use machine::machine::State;
use refusal::Refusal;

/// The most fuel of a grant.
pub const MOST_FUEL: u32 = 10_000;

/// A call that may change a drive.
#[derive(Clone, Copy, PartialEq, Eq, Debug)]
pub enum Call {
    /// Makes so many steps, or fewer if the drive stops running.
    Grant { fuel: u32 },
    /// Begins the run again, after it has ended or tripped.
    Restart,
    /// Begins the run again, rests the host, and ages the faults.
    PowerCycle,
}

/// What a call answers: how many steps it made, and the state after them.
pub type Answer = Result<(u32, State), Refusal>;

/// A call, with a place for its answer.
#[derive(Clone, Copy)]
pub struct Turn {
    pub call: Call,
    pub answer: Option<Answer>,
}
