ghost use Rattle.std.specs.Prelude.{◌≡◌};
ghost use Rattle.refusal.specs.Values.{author, values_of};
ghost use Rattle.module.specs.Rules.{rule_number};

use refusal::{Place, Refusal};

/// The rules of check.
#[derive(Clone, Copy, PartialEq, Eq, Debug)]
pub enum Rule {
    Form,
    Stack,
    Callee,
    Registers,
    Constants,
    Target,
    Ending,
}

impl Rule {
    /// All of them, in the order in which check tries them.
    pub(crate) const ALL: [Rule; 7] = [
        Rule::Form,
        Rule::Stack,
        Rule::Callee,
        Rule::Registers,
        Rule::Constants,
        Rule::Target,
        Rule::Ending,
    ];

    // The refusal of a module that breaks the rule at a place.
    pub(crate) fn broken(self, place: Place) -> Refusal
        ensures { values_of result ≡ author (rule_number self) place.routine place.instruction }
    {
        match self {
            Rule::Form => Refusal::Form(place),
            Rule::Stack => Refusal::Stack(place),
            Rule::Callee => Refusal::Callee(place),
            Rule::Registers => Refusal::Register(place),
            Rule::Constants => Refusal::Constant(place),
            Rule::Target => Refusal::Target(place),
            Rule::Ending => Refusal::Ending(place),
        }
    }
}
