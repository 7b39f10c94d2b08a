// What stands in front of the operands of operators, predicates and functions, between them and behind them.
ghost use Rattle.std.specs.Prelude.{◌≡◌, ◌++◌, OnOk, decimal};
ghost use Rattle.hs_conditiontext.specs.Operators as spec;

use crate::literals::push_character;
use crate::words::{
    between_text, field_text, in_text, like_text, sign_text, symbol_text, trimmed_text,
    trimming_text, unit_text,
};
use hs_base::NoMemory;
use hs_plan::{Binary, DateField, IntervalUnit, Sign, Ternary, Unary};
use hs_values::{Chars, SqlType};
use hs_valuetext::print_type;
use itoa::Buffer;
use std::alloc::Global;

// ---- with one operand

fn push_extract(field: DateField, out: &mut Chars) -> Result<(), NoMemory>
    ensures { OnOk result (out.new ≡ out.old ++ spec.before_one (Unary.Extract field)) }
{
    out.push_text("EXTRACT(")?;
    out.push_text(field_text(field))?;
    Ok(out.push_text(" FROM ")?)
}

pub(crate) fn push_before_one(operator: Unary, out: &mut Chars) -> Result<(), NoMemory>
    ensures { OnOk result (out.new ≡ out.old ++ spec.before_one operator) }
{
    match operator {
        Unary::Plus => Ok(out.push_text("(+ ")?),
        Unary::Minus => Ok(out.push_text("(- ")?),
        Unary::Not => Ok(out.push_text("(NOT ")?),
        Unary::IsNull | Unary::IsNotNull | Unary::Interval { .. } => Ok(out.push_text("(")?),
        Unary::Cast(_) => Ok(out.push_text("CAST(")?),
        Unary::Abs => Ok(out.push_text("ABS(")?),
        Unary::Upper => Ok(out.push_text("UPPER(")?),
        Unary::Lower => Ok(out.push_text("LOWER(")?),
        Unary::CharLength => Ok(out.push_text("CHAR_LENGTH(")?),
        Unary::Trim(form) => Ok(out.push_text(trimmed_text(form))?),
        Unary::Extract(field) => push_extract(field, out),
    }
}

fn push_type(sql_type: SqlType, out: &mut Chars) -> Result<(), NoMemory>
    ensures { OnOk result (out.new ≡ out.old ++ spec.behind_one (Unary.Cast sql_type)) }
{
    out.push_text(" AS ")?;
    print_type(&sql_type, out)?;
    Ok(out.push_text(")")?)
}

fn push_digits(count: u64, out: &mut Chars) -> Result<(), NoMemory>
    ensures { OnOk result (out.new ≡ out.old ++ decimal count) }
{
    Ok(out.push_text(Buffer::new().format(count))?)
}

fn push_interval(
    sign: Sign,
    count: u64,
    unit: IntervalUnit,
    out: &mut Chars,
) -> Result<(), NoMemory>
    ensures { OnOk result (out.new ≡ out.old ++ spec.behind_one (Unary.Interval sign count unit)) }
{
    out.push_text(sign_text(sign))?;
    out.push_text("INTERVAL '")?;
    push_digits(count, out)?;
    out.push_text("' ")?;
    out.push_text(unit_text(unit))?;
    Ok(out.push_text(")")?)
}

pub(crate) fn push_behind_one(operator: Unary, out: &mut Chars) -> Result<(), NoMemory>
    ensures { OnOk result (out.new ≡ out.old ++ spec.behind_one operator) }
{
    match operator {
        Unary::IsNull => Ok(out.push_text(" IS NULL)")?),
        Unary::IsNotNull => Ok(out.push_text(" IS NOT NULL)")?),
        Unary::Cast(sql_type) => push_type(sql_type, out),
        Unary::Interval { sign, count, unit } => push_interval(sign, count, unit, out),
        Unary::Plus
        | Unary::Minus
        | Unary::Not
        | Unary::Abs
        | Unary::Upper
        | Unary::Lower
        | Unary::CharLength
        | Unary::Trim(_)
        | Unary::Extract(_) => Ok(out.push_text(")")?),
    }
}

// ---- with two operands

pub(crate) fn push_before_two(operator: Binary, out: &mut Chars) -> Result<(), NoMemory>
    ensures { OnOk result (out.new ≡ out.old ++ spec.before_two operator) }
{
    match operator {
        Binary::Operator(_) | Binary::Like { .. } => Ok(out.push_text("(")?),
        Binary::Mod => Ok(out.push_text("MOD(")?),
        Binary::NullIf { .. } => Ok(out.push_text("NULLIF(")?),
        Binary::TrimOf(form) => Ok(out.push_text(trimming_text(form))?),
        Binary::SubstringFrom => Ok(out.push_text("SUBSTRING(")?),
    }
}

pub(crate) fn push_between_two(operator: Binary, out: &mut Chars) -> Result<(), NoMemory>
    ensures { OnOk result (out.new ≡ out.old ++ spec.between_two operator) }
{
    match operator {
        Binary::Operator(operator) => Ok(out.push_text(symbol_text(operator))?),
        Binary::Mod | Binary::NullIf { .. } => Ok(out.push_text(",")?),
        Binary::Like { negated, .. } => Ok(out.push_text(like_text(negated))?),
        Binary::TrimOf(_) | Binary::SubstringFrom => Ok(out.push_text(" FROM ")?),
    }
}

fn push_escape(alloc: Global, escape: Option<char>, out: &mut Chars) -> Result<(), NoMemory>
    ensures { OnOk result (out.new ≡ out.old ++ spec.escape_text escape) }
{
    match escape {
        Some(c) => {
            out.push_text(" ESCAPE ")?;
            push_character(alloc, c, out)?;
            Ok(out.push_text(")")?)
        }
        None => Ok(out.push_text(")")?),
    }
}

pub(crate) fn push_behind_two(
    alloc: Global,
    operator: Binary,
    out: &mut Chars,
) -> Result<(), NoMemory>
    ensures { OnOk result (out.new ≡ out.old ++ spec.behind_two operator) }
{
    match operator {
        Binary::Like { escape, .. } => push_escape(alloc, escape, out),
        Binary::Operator(_)
        | Binary::Mod
        | Binary::NullIf { .. }
        | Binary::TrimOf(_)
        | Binary::SubstringFrom => Ok(out.push_text(")")?),
    }
}

// ---- with three operands

pub(crate) fn before_three(operator: Ternary) -> &'static str
    ensures { result.now ≡ spec.before_three operator }
{
    match operator {
        Ternary::Between { .. } => "(",
        Ternary::SubstringFor => "SUBSTRING(",
    }
}

/// Between the first and the second.
pub(crate) fn first_of_three(operator: Ternary) -> &'static str
    ensures { result.now ≡ spec.first_of_three operator }
{
    match operator {
        Ternary::Between { negated, .. } => between_text(negated),
        Ternary::SubstringFor => " FROM ",
    }
}

/// Between the second and the third.
pub(crate) fn second_of_three(operator: Ternary) -> &'static str
    ensures { result.now ≡ spec.second_of_three operator }
{
    match operator {
        Ternary::Between { .. } => " AND ",
        Ternary::SubstringFor => " FOR ",
    }
}

// ---- with a list of operands

/// Adds what stands before an operand of COALESCE.
pub(crate) fn push_before_operand(is_first: bool, out: &mut Chars) -> Result<(), NoMemory>
    ensures { OnOk result (out.new ≡ out.old ++ spec.before_operand is_first) }
{
    if is_first {
        Ok(out.push_text("COALESCE(")?)
    } else {
        Ok(out.push_text(",")?)
    }
}

/// Adds what stands before a value of IN.
pub(crate) fn push_before_item(
    negated: bool,
    is_first: bool,
    out: &mut Chars,
) -> Result<(), NoMemory>
    ensures { OnOk result (out.new ≡ out.old ++ spec.before_item negated is_first) }
{
    if is_first {
        Ok(out.push_text(in_text(negated))?)
    } else {
        Ok(out.push_text(",")?)
    }
}
