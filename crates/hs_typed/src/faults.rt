// The faults of a statement, of which the one that comes before all others is kept.
ghost use Rattle.std.specs.Prelude.{◌≡◌, ◌≢◌, ◌∷◌, [], None, Err, IfOk, IfErr, OnOk};
ghost use Rattle.std.specs.Option.{option_map};
ghost use Rattle.std.specs.Result.{result_ok};
ghost use Rattle.hs_plan.specs.Fault.{fault_of};
ghost use Rattle.hs_typed.specs.Faults as spec;
ghost use Rattle.hs_typed.specs.Rules.{Outcome, Gives};

use crate::typed::{RuleFault, Typed};
use hs_base::NoMemory;
use hs_plan::{BindFault, Cause, PlacedFault};
use std::marker::Model;

/// The faults of a statement. Contracts see the one that comes before all others, if there is one.
#[derive(Drop)]
pub struct Faults {
    least: Option<PlacedFault>,
}

impl Model for Faults {
    ghost use Rattle.std.specs.Prelude.{Option};
    ghost use Rattle.std.specs.Coded.{codes};
    ghost use Rattle.hs_plan.specs.declared.fault.PlacedFault.{PlacedFault};

    ghost Value = { Option PlacedFault };

    ghost coded = { Prim.hlevel codes };

    ghost view = { λ f. f.least };
}

impl Faults {
    pub fn new() -> Faults
        ensures { result ≡ None }
    {
        Faults { least: None }
    }

    /// Notes one more.
    pub fn push(&mut self, fault: PlacedFault)
        ensures { self.new ≡ spec.noted self.old (fault ∷ []) }
    {
        let is_kept = match &self.least {
            Some(least) => !fault.is_before(least),
            None => false,
        };
        if !is_kept {
            self.least = Some(fault);
        }
    }

    /// Notes what an expression at a place breaks by itself, and gives the expression if it breaks nothing. An `Err` is
    /// want of memory, and then nothing is noted.
    pub fn judge(
        &mut self,
        at: u32,
        outcome: Result<Typed, RuleFault>,
    ) -> Result<Option<Typed>, NoMemory>
        ensures part { (means : Outcome) → Gives outcome means → IfOk result (λ part. part ≡ result_ok means) }
        ensures noted { (means : Outcome) → Gives outcome means → OnOk result (self.new ≡ spec.noted self.old (spec.broken_by at means)) }
        ensures memory { IfErr result (λ _. (outcome ≡ Err RuleFault.NoMemory) × (self.new ≡ self.old)) }
        ensures enough { IfOk result (λ _. outcome ≢ Err RuleFault.NoMemory) }
    {
        match outcome {
            Ok(part) => Ok(Some(part)),
            Err(RuleFault::NoMemory) => Err(NoMemory),
            Err(RuleFault::Types) => {
                self.push(PlacedFault {
                    at,
                    cause: Cause::Types,
                });
                Ok(None)
            }
            Err(RuleFault::Count) => {
                self.push(PlacedFault {
                    at,
                    cause: Cause::Count,
                });
                Ok(None)
            }
        }
    }

    /// The answer that they stand for, if there are some.
    pub fn into_answer(self) -> Option<BindFault>
        ensures { result ≡ option_map fault_of self }
    {
        match self.least {
            Some(fault) => Some(fault.into_fault()),
            None => None,
        }
    }
}
