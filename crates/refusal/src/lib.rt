//! Why a call was refused, and whose doing it was.

#![tactic(auto)]

ghost use Rattle.std.specs.Prelude.{◌≡◌, Some};
ghost use Rattle.refusal.specs.Values.{values_of, layer_number, placed};
ghost use Rattle.refusal.specs.Text.{refused};

use std::error::Error;
use std::fmt;

/// Where an instruction stands: its routine, and its number within the routine.
#[derive(Clone, Copy, PartialEq, Eq, Debug, Default)]
pub struct Place {
    pub routine: u16,
    pub instruction: u16,
}

/// Whose doing a refusal or a trip is.
#[derive(Clone, Copy, PartialEq, Eq, Debug)]
pub enum Layer {
    /// 0: whoever makes the call.
    Caller,
    /// 1: the module's author.
    Author,
    /// 2: the engine.
    Engine,
    /// 3: the host.
    Host,
}

impl From<Layer> for u8 {
    ghost from_gives = { λ layer n. n ≡ layer_number layer };

    fn from(layer: Layer) -> u8 {
        match layer {
            Layer::Caller => 0,
            Layer::Author => 1,
            Layer::Engine => 2,
            Layer::Host => 3,
        }
    }
}

/// One case for each refusal, with the place where it has one.
#[derive(Clone, Copy, PartialEq, Eq, Debug)]
pub enum Refusal {
    /// 1: the bytes end before the contents do.
    Truncated,
    /// 2: the number of routines or the length of the image is out of range.
    Counts,
    /// 3: the entry of this routine is wrong.
    Entry(u16),
    /// 4: the length is not the one that the entries give.
    Length,
    /// 5: no well-formed instruction.
    Form(Place),
    /// 6: a register is added to 32 others, or removed from none.
    Stack(Place),
    /// 7: the called routine is absent.
    Callee(Place),
    /// 8: a register is absent.
    Register(Place),
    /// 9: a constant is written.
    Constant(Place),
    /// 10: a branch leaves its routine, or goes to another shape.
    Target(Place),
    /// 11: a routine could run on past its last instruction.
    Ending(Place),
    /// 12: the sheet has too few rows.
    Sheet,
    /// 13: entries, rows or output are too short.
    Room,
    /// 14: the fuel is out of range.
    Fuel,
    /// 15: a grant to an ended drive.
    Ended,
    /// 16: a grant to a tripped drive.
    Tripped,
    /// 17: a restart of a running drive.
    Running,
    /// 18: a question about what is absent.
    Absent,
}

impl Refusal {
    /// The number by which the documents name the refusal.
    // A number, since documents, programs and the modules' authors know refusals by it.
    pub fn number(self) -> u8
        ensures { result ≡ (values_of self).number }
    {
        match self {
            Refusal::Truncated => 1,
            Refusal::Counts => 2,
            Refusal::Entry(_) => 3,
            Refusal::Length => 4,
            Refusal::Form(_) => 5,
            Refusal::Stack(_) => 6,
            Refusal::Callee(_) => 7,
            Refusal::Register(_) => 8,
            Refusal::Constant(_) => 9,
            Refusal::Target(_) => 10,
            Refusal::Ending(_) => 11,
            Refusal::Sheet => 12,
            Refusal::Room => 13,
            Refusal::Fuel => 14,
            Refusal::Ended => 15,
            Refusal::Tripped => 16,
            Refusal::Running => 17,
            Refusal::Absent => 18,
        }
    }

    /// Who causes it: the module's author or the caller.
    pub fn layer(self) -> Layer
        ensures { layer_number result ≡ (values_of self).layer }
    {
        match self {
            Refusal::Room
            | Refusal::Sheet
            | Refusal::Fuel
            | Refusal::Ended
            | Refusal::Tripped
            | Refusal::Running
            | Refusal::Absent => Layer::Caller,
            _ => Layer::Author,
        }
    }

    /// The place, if it has one. A wrong entry has its routine, and instruction 0.
    fn place(self) -> Option<Place>
        ensures routine { (placed result).routine ≡ (values_of self).routine }
        ensures instruction { (placed result).instruction ≡ (values_of self).instruction }
    {
        match self {
            Refusal::Entry(routine) => Some(Place {
                routine,
                ..Place::default()
            }),
            Refusal::Form(place)
            | Refusal::Stack(place)
            | Refusal::Callee(place)
            | Refusal::Register(place)
            | Refusal::Constant(place)
            | Refusal::Target(place)
            | Refusal::Ending(place) => Some(place),
            _ => None,
        }
    }

    /// The routine of its place, or 0.
    pub fn routine(self) -> u16
        ensures { result ≡ (values_of self).routine }
    {
        self.place().unwrap_or_default().routine
    }

    /// The instruction of its place, or 0.
    pub fn instruction(self) -> u16
        ensures { result ≡ (values_of self).instruction }
    {
        self.place().unwrap_or_default().instruction
    }
}

/// As bench prints it: `refused`, the number, the routine and the instruction.
impl fmt::Display for Refusal {
    ghost output = { λ refusal. Some (refused (values_of refusal)) };

    fn fmt<W: fmt::Write>(&self, f: &mut fmt::Formatter<W>) -> fmt::Result {
        let number = self.number();
        let routine = self.routine();
        let instruction = self.instruction();
        write!(f, "refused {number} {routine} {instruction}")
    }
}

impl Error for Refusal {}
