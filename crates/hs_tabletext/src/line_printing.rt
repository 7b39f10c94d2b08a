// Constraints as they are written.
ghost use Rattle.std.specs.Prelude.{◌≡◌, ◌++◌, OnOk};
ghost use Rattle.hs_keytext.specs.Owners.{seen};
ghost use Rattle.hs_tabletext.specs.Rules.{IsPrintable};
ghost use Rattle.hs_tabletext.specs.Constraints.{constraint_text, constraint_lines, ArePrintable};
ghost use Rattle.hs_parttext.specs.Lines.{lines_text};

use crate::front::front_of;
use crate::{Conditions, print_rule};
use hs_base::NoMemory;
use hs_keytext::Owner;
use hs_nametext::print_name;
use hs_plan::Constraint;
use hs_values::Chars;
use std::alloc::Global;

/// Adds the name of a constraint of this owner and its rule, with a space between. The condition of a CHECK has a text. An
/// `Err` is want of memory, and then a part of the text may be there.
pub fn print_constraint<C: Conditions>(
    alloc: Global,
    constraint: &Constraint,
    owner: &Owner<'_>,
    conditions: &C,
    out: &mut Chars,
) -> Result<(), NoMemory>
    requires { IsPrintable (C.wording conditions.now) (seen owner.now).columns constraint.now.rule }
    ensures { OnOk result (out.new ≡ out.old ++ constraint_text (C.wording conditions.now) (seen owner.now) constraint.now) }
{
    print_name(constraint.name.as_str(), out)?;
    out.push_text(" ")?;
    print_rule(alloc, &constraint.rule, owner, conditions, out)
}

/// Adds constraints, each behind this front.
fn print_lines<C: Conditions>(
    alloc: Global,
    constraints: &[Constraint],
    front: &str,
    owner: &Owner<'_>,
    conditions: &C,
    out: &mut Chars,
) -> Result<(), NoMemory>
    requires { ArePrintable (C.wording conditions.now) (seen owner.now).columns constraints.now }
    ensures { OnOk result (out.new ≡ out.old ++ lines_text front.now (constraint_text (C.wording conditions.now) (seen owner.now)) constraints.now) }
{
    for constraint in constraints {
        out.push_text(front)?;
        print_constraint(alloc, constraint, owner, conditions, out)?;
    }
    Ok(())
}

/// Adds the lines of constraints of this owner, `ALTER TABLE T ADD CONSTRAINT N` and the rule, each behind a line feed. The
/// conditions of their CHECKs have texts. An `Err` is want of memory, and then a part of the text may be there.
pub fn print_constraint_lines<C: Conditions>(
    alloc: Global,
    constraints: &[Constraint],
    owner: &Owner<'_>,
    conditions: &C,
    out: &mut Chars,
) -> Result<(), NoMemory>
    requires { ArePrintable (C.wording conditions.now) (seen owner.now).columns constraints.now }
    ensures { OnOk result (out.new ≡ out.old ++ constraint_lines (C.wording conditions.now) (seen owner.now) constraints.now) }
{
    let front = front_of(alloc, owner.name)?;
    print_lines(alloc, constraints, front.as_str(), owner, conditions, out)
}
