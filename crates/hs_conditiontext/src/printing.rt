// Conditions as they are written.
ghost use Rattle.std.specs.Prelude.{◌≡◌, ◌++◌, codes, map, option_map, OnOk};
ghost use Rattle.hs_conditiontext.specs.Conditions as spec;
ghost use Rattle.hs_conditiontext.specs.Operators.{in_text};

use crate::literals::{push_bad_moment, push_chars, push_column, push_literal};
use crate::operators::{
    before_three, first_of_three, push_before_item, push_before_one, push_before_operand,
    push_before_two, push_behind_one, push_behind_two, push_between_two, second_of_three,
};
use hs_base::NoMemory;
use hs_plan::{CaseArm, Column, Expr, ListItem};
use hs_values::Chars;
use sqlite_items::Boxed;
use std::alloc::Global;

/// Adds the text of a condition over these columns. Queries, aggregates and literals that are no value have the empty text, and a place
/// that no column has the empty name; no condition of a CHECK has these. An `Err` is want of memory, and then a part of the text may be
/// there.
#[cycle(printing)]
pub fn print_condition(
    alloc: Global,
    e: &Expr,
    columns: &[Column],
    out: &mut Chars,
) -> Result<(), NoMemory>
    ensures { OnOk result (out.new ≡ out.old ++ spec.condition_text columns.now e.now) }
{
    match e {
        Expr::Literal(value) => push_literal(alloc, value, out),
        Expr::ReadText { text, .. } => push_chars(alloc, text, out),
        Expr::BadMoment { timestamp, text } => push_bad_moment(alloc, *timestamp, text, out),
        Expr::Column { at, .. } => push_column(*at, columns, out),
        Expr::Unary(operator, a) => {
            push_before_one(*operator, out)?;
            print_condition(alloc, a.get(), columns, out)?;
            push_behind_one(*operator, out)
        }
        Expr::Binary(operator, a, b) => {
            push_before_two(*operator, out)?;
            print_condition(alloc, a.get(), columns, out)?;
            push_between_two(*operator, out)?;
            print_condition(alloc, b.get(), columns, out)?;
            push_behind_two(alloc, *operator, out)
        }
        Expr::Ternary(operator, a, b, c) => {
            print_behind(alloc, before_three(*operator), a.get(), columns, out)?;
            print_behind(alloc, first_of_three(*operator), b.get(), columns, out)?;
            print_behind(alloc, second_of_three(*operator), c.get(), columns, out)?;
            Ok(out.push_text(")")?)
        }
        Expr::InList {
            operand,
            negated,
            list,
        } => {
            print_behind(alloc, "(", operand.get(), columns, out)?;
            print_list(alloc, *negated, list.as_slice(), columns, out)
        }
        Expr::Case {
            arms,
            otherwise,
            ..
        } => {
            print_arms(alloc, arms.as_slice(), columns, out)?;
            print_otherwise(alloc, otherwise, columns, out)
        }
        Expr::Coalesce { operands, .. } => {
            print_coalesce(alloc, operands.as_slice(), columns, out)
        }
        Expr::InQuery { .. }
        | Expr::Exists(_)
        | Expr::Subquery(_)
        | Expr::CountRows
        | Expr::Aggregate { .. } => Ok(()),
    }
}

/// Adds a front, and a condition behind it.
#[cycle(printing)]
fn print_behind(
    alloc: Global,
    front: &str,
    e: &Expr,
    columns: &[Column],
    out: &mut Chars,
) -> Result<(), NoMemory>
    ensures { OnOk result (out.new ≡ out.old ++ (front.now ++ spec.condition_text columns.now e.now)) }
{
    out.push_text(front)?;
    print_condition(alloc, e, columns, out)
}

/// Adds operands, the first behind COALESCE and each other one behind a comma.
#[cycle(printing)]
fn print_operands(
    alloc: Global,
    all: &[Expr],
    columns: &[Column],
    out: &mut Chars,
) -> Result<(), NoMemory>
    ensures { OnOk result (out.new ≡ out.old ++ spec.listed (codes "COALESCE(") (map (spec.condition_text columns.now) all.now)) }
{
    let mut is_first = true;
    for e in all {
        push_before_operand(is_first, out)?;
        print_condition(alloc, e, columns, out)?;
        is_first = false;
    }
    Ok(())
}

/// Adds COALESCE with its operands.
#[cycle(printing)]
fn print_coalesce(
    alloc: Global,
    all: &[Expr],
    columns: &[Column],
    out: &mut Chars,
) -> Result<(), NoMemory>
    ensures { OnOk result (out.new ≡ out.old ++ (spec.listed (codes "COALESCE(") (map (spec.condition_text columns.now) all.now) ++ codes ")")) }
{
    print_operands(alloc, all, columns, out)?;
    Ok(out.push_text(")")?)
}

/// Adds values of IN, the first behind its word and each other one behind a comma.
#[cycle(printing)]
fn print_items(
    alloc: Global,
    negated: bool,
    list: &[ListItem],
    columns: &[Column],
    out: &mut Chars,
) -> Result<(), NoMemory>
    ensures { OnOk result (out.new ≡ out.old ++ spec.listed (in_text negated) (map (spec.item_text columns.now) list.now)) }
{
    let mut is_first = true;
    for item in list {
        push_before_item(negated, is_first, out)?;
        print_condition(alloc, &item.value, columns, out)?;
        is_first = false;
    }
    Ok(())
}

/// Adds IN with its values, and the end of the predicate.
#[cycle(printing)]
fn print_list(
    alloc: Global,
    negated: bool,
    list: &[ListItem],
    columns: &[Column],
    out: &mut Chars,
) -> Result<(), NoMemory>
    ensures { OnOk result (out.new ≡ out.old ++ (spec.listed (in_text negated) (map (spec.item_text columns.now) list.now) ++ codes "))")) }
{
    print_items(alloc, negated, list, columns, out)?;
    Ok(out.push_text("))")?)
}

/// Adds CASE with its arms.
#[cycle(printing)]
fn print_arms(
    alloc: Global,
    arms: &[CaseArm],
    columns: &[Column],
    out: &mut Chars,
) -> Result<(), NoMemory>
    ensures { OnOk result (out.new ≡ out.old ++ (codes "CASE" ++ spec.concat (map (spec.arm_text columns.now) arms.now))) }
{
    out.push_text("CASE")?;
    print_each_arm(alloc, arms, columns, out)
}

/// Adds arms of CASE.
#[cycle(printing)]
fn print_each_arm(
    alloc: Global,
    arms: &[CaseArm],
    columns: &[Column],
    out: &mut Chars,
) -> Result<(), NoMemory>
    ensures { OnOk result (out.new ≡ out.old ++ spec.concat (map (spec.arm_text columns.now) arms.now)) }
{
    for arm in arms {
        print_behind(alloc, " WHEN ", &arm.test, columns, out)?;
        print_behind(alloc, " THEN ", &arm.value, columns, out)?;
    }
    Ok(())
}

/// Adds ELSE with its value, where it is written, and the end of CASE.
#[cycle(printing)]
fn print_otherwise(
    alloc: Global,
    otherwise: &Option<Boxed<Expr>>,
    columns: &[Column],
    out: &mut Chars,
) -> Result<(), NoMemory>
    ensures { OnOk result (out.new ≡ out.old ++ (spec.otherwise_text (option_map (spec.condition_text columns.now) otherwise.now) ++ codes " END")) }
{
    match otherwise {
        Some(e) => {
            print_behind(alloc, " ELSE ", e.get(), columns, out)?;
            Ok(out.push_text(" END")?)
        }
        None => Ok(out.push_text(" END")?),
    }
}
