// Rules of constraints, one behind another.
ghost use Rattle.std.specs.Prelude.{◌≡◌, [], Some, IfOk, OnOk};
ghost use Rattle.std.specs.Option.{option_map};
ghost use Rattle.hs_meaning.specs.Parts.{with_part};
ghost use Rattle.hs_tables.specs.Additions.{named};

use hs_base::NoMemory;
use hs_plan::{Constraint, Rule};
use hs_values::Name;
use sqlite_items::Items;
use std::alloc::Global;
use std::marker::Model;

/// The rules of constraints. Contracts see their list, where all are known.
#[derive(Drop)]
pub struct Rules {
    known: Option<Vec<Rule>>,
}

impl Model for Rules {
    ghost use Rattle.std.specs.Prelude.{List, Option};
    ghost use Rattle.std.specs.Option.{option_map};
    ghost use Rattle.std.specs.Coded.{codes};
    ghost use Rattle.hs_plan.specs.declared.definition.Rule.{Rule as OneRule};
    ghost use Rattle.hs_plan.specs.contracts.expression.Expr as expression;

    ghost Value = { Option (List OneRule) };

    ghost coded = { Prim.hlevel (codes, expression.the_row.coded) };

    ghost view = { λ r. option_map (λ l. l.items) r.known };
}

// Constraints of rules with their names.
fn constraints_of(
    names: &[Name],
    rules: Vec<Rule>,
    alloc: Global,
) -> Result<Items<Constraint>, NoMemory>
    ensures { IfOk result (λ made. made ≡ named names.now rules.items) }
{
    let mut made = Items::new(alloc);
    let mut rules = rules.into_iter();
    for name in names {
        match rules.next() {
            Some(rule) => made.push(Constraint {
                name: name.copy()?,
                rule,
            })?,
            None => return Ok(made),
        }
    }
    Ok(made)
}

impl Rules {
    /// None yet. Takes no memory.
    pub fn new(alloc: Global) -> Rules
        ensures { result ≡ Some [] }
    {
        Rules {
            known: Some(Vec::new(alloc)),
        }
    }

    /// Puts a rule behind the others, or one that isn't known. An `Err` is want of memory.
    pub fn add(&mut self, rule: Option<Rule>) -> Result<(), NoMemory>
        ensures { OnOk result (self.new ≡ with_part self.old rule) }
    {
        let Some(mut known) = self.known.take() else {
            return Ok(());
        };
        let Some(rule) = rule else {
            return Ok(());
        };
        known.push(rule)?;
        self.known = Some(known);
        Ok(())
    }

    /// The constraints that have these rules and these names, one beside the other. An `Err` is want of memory.
    pub fn into_constraints(
        self,
        names: &[Name],
        alloc: Global,
    ) -> Result<Option<Items<Constraint>>, NoMemory>
        ensures { IfOk result (λ made. made ≡ option_map (named names.now) self) }
    {
        match self.known {
            Some(rules) => Ok(Some(constraints_of(names, rules, alloc)?)),
            None => Ok(None),
        }
    }
}
