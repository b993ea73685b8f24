ghost use Rattle.std.specs.Prelude.{◌≡◌, ◌-◌, ◌<◌, Bool, List, [], ◌∷◌, ◌++◌, length, take};
ghost use Rattle.module.specs.Shape.{after, row_of};

use crate::limits;
use isa::instr::Instr;

/// A row of the sheet: the shape at one instruction.
#[derive(Clone, Copy, PartialEq, Eq, Debug)]
pub struct ShapeRow {
    /// How many registers there are.
    pub depth: u16,
    /// Which of them are constants: bit k stands for register k.
    pub mask: u32,
}

impl ShapeRow {
    /// No registers.
    pub const BLANK: ShapeRow = ShapeRow { depth: 0, mask: 0 };

    // With one more register, a constant or a variable.
    fn with_register(self, constant: bool) -> ShapeRow
        requires { self.depth < 65535 }
        ensures { (s : List Bool) → self ≡ row_of s → result ≡ row_of (s ++ (constant ∷ [])) }
    {
        let depth = self.depth + 1;
        if constant && self.depth < limits::REGISTERS {
            return ShapeRow {
                depth,
                mask: self.mask | 1 << self.depth,
            };
        }
        ShapeRow { depth, ..self }
    }

    // Without its top register, if it has one.
    fn without_top(self) -> ShapeRow
        ensures { (s : List Bool) → self ≡ row_of s → result ≡ row_of (take (length s - 1) s) }
    {
        let depth = self.depth.saturating_sub(1);
        if depth >= limits::REGISTERS {
            return ShapeRow { depth, ..self };
        }
        ShapeRow {
            depth,
            mask: self.mask % (1 << depth),
        }
    }

    // The row after an instruction.
    pub(crate) fn after(self, instr: Option<Instr>) -> ShapeRow
        requires { self.depth < 65535 }
        ensures { (s : List Bool) → self ≡ row_of s → result ≡ row_of (after instr s) }
    {
        match instr {
            Some(Instr::New) => self.with_register(false),
            Some(Instr::Def { .. }) => self.with_register(true),
            Some(Instr::Kill) => self.without_top(),
            _ => self,
        }
    }
}
