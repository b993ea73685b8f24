ghost use Rattle.std.specs.Prelude.{◌≡◌};

use refusal::Refusal;

/// A refusal, with the module that was refused.
#[derive(Drop)]
pub struct Refused<M> {
    pub module: M,
    pub refusal: Refusal,
}

impl<M: Drop> From<Refused<M>> for Refusal {
    ghost from_gives = { λ refused refusal. refusal ≡ refused.refusal };

    fn from(refused: Refused<M>) -> Refusal {
        refused.refusal
    }
}
