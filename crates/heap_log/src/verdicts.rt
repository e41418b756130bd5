ghost use Rattle.std.specs.Prelude.{◌≡◌, [], IsOk, IfOk, IfErr};

use crate::Outcome;
use keybytes::Fault;
use std::marker::Model;

/// The verdicts on the indexes of a build, in their order. Contracts see the list.
#[derive(Drop)]
pub struct Verdicts {
    outcomes: Vec<Outcome>,
}

impl Model for Verdicts {
    ghost use Rattle.std.specs.Prelude.{List};
    ghost use Rattle.heap_log.specs.declared.outcome.Outcome.{Outcome};

    ghost Value = { List Outcome };

    ghost view = { λ verdicts. verdicts.outcomes.items };
}

impl Verdicts {
    /// Takes the list over as it is; takes no memory.
    pub fn new(outcomes: Vec<Outcome>) -> Verdicts
        ensures { result ≡ outcomes.items }
    {
        Verdicts { outcomes }
    }

    /// The verdicts, that on the first index first.
    pub fn as_slice(&self) -> &[Outcome]
        ensures { result.now ≡ self.now }
    {
        self.outcomes.as_slice()
    }

    /// A copy; an empty list takes no memory for it.
    pub fn clone(&self) -> Result<Verdicts, Fault>
        ensures same { IfOk result (λ verdicts. verdicts ≡ self.now) }
        ensures memory { IfErr result (λ fault. fault ≡ Fault.Memory) }
        ensures empty { self.now ≡ [] → IsOk result }
    {
        let mut outcomes = Vec::with_capacity(*self.outcomes.allocator(), self.outcomes.len())?;
        for outcome in &self.outcomes {
            outcomes.push(outcome.clone()?)?;
        }
        Ok(Verdicts { outcomes })
    }
}
