ghost use Rattle.std.specs.Prelude.{◌≡◌};
ghost use Rattle.isa.specs.Access.{access, callee, target, ends, span, one, touches};

use crate::instr::Instr;

/// What a routine takes and gives.
#[derive(Clone, Copy, PartialEq, Eq, Debug, Default)]
pub struct Signature {
    pub arguments: u8,
    pub results: u8,
}

/// Registers that stand together: len of them from first on.
#[derive(Clone, Copy, PartialEq, Eq, Debug)]
pub struct Span {
    pub first: u8,
    pub len: u8,
}

/// The registers that an instruction reads, and those that it writes.
// Pairs: the definitions read the two of a pair by name, where of an array they would read places of a list.
#[derive(Clone, Copy, PartialEq, Eq, Debug)]
pub struct Access {
    pub reads: (Span, Span),
    pub writes: (Span, Span),
}

// No register is a span like any other: a CALL without arguments reads one, and an Option would say it a second way.
const NONE: Span = Span { first: 0, len: 0 };

const NOTHING: (Span, Span) = (NONE, NONE);

fn several(first: u8, len: u8) -> Span
    ensures { result ≡ span first len }
{
    Span { first, len }
}

fn single(first: u8) -> Span
    ensures { result ≡ one first }
{
    several(first, 1)
}

fn touching(reads: (Span, Span), writes: (Span, Span)) -> Access
    ensures { result ≡ touches reads writes }
{
    Access { reads, writes }
}

impl Instr {
    /// The registers that it touches, where called is the signature of the routine that it calls, and own that of the
    /// routine that it stands in.
    pub fn access(self, called: Signature, own: Signature) -> Access
        ensures { result ≡ access self called own }
    {
        match self {
            Instr::New | Instr::Def { .. } | Instr::Kill => touching(NOTHING, NOTHING),
            Instr::Mov { a, b } => touching((single(b), NONE), (single(a), NONE)),
            Instr::Swap { a, b } => touching((single(a), single(b)), (single(a), single(b))),
            Instr::Calc { a, b, c, .. } | Instr::Divide { a, b, c, .. } => touching(
                (single(b), single(c)),
                (single(a), NONE),
            ),
            Instr::Load { a, b, .. } => touching((single(b), NONE), (single(a), NONE)),
            Instr::Store { a, b, .. } | Instr::Branch { a, b, .. } => touching(
                (single(a), single(b)),
                NOTHING,
            ),
            Instr::Call { a, b, .. } => touching(
                (several(b, called.arguments), NONE),
                (several(a, called.results), NONE),
            ),
            Instr::Ret { a } => touching((several(a, own.results), NONE), NOTHING),
            Instr::Get { a, .. } => touching(NOTHING, (single(a), NONE)),
            Instr::Put { b, .. } => touching((single(b), NONE), NOTHING),
            Instr::Bal { .. } | Instr::Tick => touching(NOTHING, NOTHING),
        }
    }

    /// The routine that it calls.
    pub fn callee(self) -> Option<u32>
        ensures { result ≡ callee self }
    {
        match self {
            Instr::Call { n, .. } => Some(n),
            _ => None,
        }
    }

    /// The instruction that it may go to.
    pub fn target(self) -> Option<u32>
        ensures { result ≡ target self }
    {
        match self {
            Instr::Bal { n } | Instr::Branch { n, .. } => Some(n),
            _ => None,
        }
    }

    /// Whether it never goes on to the next instruction.
    pub fn ends(self) -> bool
        ensures { result ≡ ends self }
    {
        matches!(self, Instr::Bal { .. } | Instr::Ret { .. })
    }
}
