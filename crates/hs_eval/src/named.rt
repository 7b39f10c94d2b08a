// The tables that an expression names to be read.
ghost use Rattle.std.specs.Prelude.{◌≡◌, ◌++◌, map, IfOk, OnOk};
ghost use Rattle.hs_plan.specs.Named as spec;
ghost use Rattle.hs_rel.specs.Outcome.{IsMemoryAlone};

use hs_base::{NoMemory, Tables};
use hs_plan::{CaseArm, Expr, ListItem, Query, named_in_query};
use hs_rel::EvalStop;
use hs_values::EvalFault;
use std::alloc::Global;

/// The numbers of the tables that the FROMs of an expression's queries name, as often as they do. An `Err` is want of memory.
pub(crate) fn expression_tables(alloc: Global, e: &Expr) -> Result<Tables, EvalStop>
    ensures tables { IfOk result (λ tables. tables ≡ spec.named e.now) }
    ensures err { IsMemoryAlone result }
{
    let mut tables = Tables::new(alloc);
    match in_expression(e, &mut tables) {
        Ok(()) => Ok(tables),
        Err(NoMemory) => Err(EvalStop::Fault(EvalFault::NoMemory)),
    }
}

/// The same of a query.
pub(crate) fn query_tables(alloc: Global, query: &Query) -> Result<Tables, EvalStop>
    ensures tables { IfOk result (λ tables. tables ≡ spec.named_in_query query.now) }
    ensures err { IsMemoryAlone result }
{
    let mut tables = Tables::new(alloc);
    match named_in_query(query, &mut tables) {
        Ok(()) => Ok(tables),
        Err(NoMemory) => Err(EvalStop::Fault(EvalFault::NoMemory)),
    }
}

#[cycle(named)]
fn in_expression(e: &Expr, out: &mut Tables) -> Result<(), NoMemory>
    ensures { OnOk result (out.new ≡ out.old ++ spec.named e.now) }
{
    match e {
        Expr::Literal(_)
        | Expr::ReadText { .. }
        | Expr::BadMoment { .. }
        | Expr::Column { .. }
        | Expr::CountRows => Ok(()),
        Expr::Unary(_, a) => in_expression(a.get(), out),
        Expr::Binary(_, a, b) => {
            in_expression(a.get(), out)?;
            in_expression(b.get(), out)
        }
        Expr::Ternary(_, a, b, c) => {
            in_expression(a.get(), out)?;
            in_expression(b.get(), out)?;
            in_expression(c.get(), out)
        }
        Expr::InList { operand, list, .. } => {
            in_expression(operand.get(), out)?;
            in_list(list.as_slice(), out)
        }
        Expr::InQuery { operand, query, .. } => {
            in_expression(operand.get(), out)?;
            named_in_query(query.get(), out)
        }
        Expr::Exists(query) => named_in_query(query.get(), out),
        Expr::Subquery(query) => named_in_query(query.get(), out),
        Expr::Case {
            arms,
            otherwise,
            ..
        } => {
            in_arms(arms.as_slice(), out)?;
            match otherwise {
                Some(e) => in_expression(e.get(), out),
                None => Ok(()),
            }
        }
        Expr::Coalesce { operands, .. } => in_expressions(operands.as_slice(), out),
        Expr::Aggregate { operand, .. } => in_expression(operand.get(), out),
    }
}

#[cycle(named)]
fn in_expressions(all: &[Expr], out: &mut Tables) -> Result<(), NoMemory>
    ensures { OnOk result (out.new ≡ out.old ++ spec.concat (map spec.named all.now)) }
{
    for e in all {
        in_expression(e, out)?;
    }
    Ok(())
}

#[cycle(named)]
fn in_list(all: &[ListItem], out: &mut Tables) -> Result<(), NoMemory>
    ensures { OnOk result (out.new ≡ out.old ++ spec.concat (map spec.named_in_item all.now)) }
{
    for one in all {
        in_expression(&one.value, out)?;
    }
    Ok(())
}

#[cycle(named)]
fn in_arms(arms: &[CaseArm], out: &mut Tables) -> Result<(), NoMemory>
    ensures { OnOk result (out.new ≡ out.old ++ spec.concat (map spec.named_in_arm arms.now)) }
{
    for arm in arms {
        in_expression(&arm.test, out)?;
        in_expression(&arm.value, out)?;
    }
    Ok(())
}
