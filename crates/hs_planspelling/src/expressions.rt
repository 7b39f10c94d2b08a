// Expressions.
use crate::operators::{
    in_word, spell_aggregate, spell_bad_moment, spell_binary, spell_column, spell_read_text,
    spell_ternary, spell_unary,
};
use crate::queries::spell_query;
use crate::values::{spell_kind, spell_reading, spell_value};
use hs_plan::{CaseArm, Expr, ListItem};
use std::alloc::AllocError;

/// Adds an expression.
#[cycle(spelling)]
pub(crate) fn spell_expression(e: &Expr, out: &mut String) -> Result<(), AllocError> {
    match e {
        Expr::Literal(value) => return spell_value(value, out),
        Expr::ReadText { text, reading } => return spell_read_text(text.as_str(), *reading, out),
        Expr::BadMoment { timestamp, text } => {
            return spell_bad_moment(*timestamp, text.as_str(), out);
        }
        Expr::Column { outward, at } => return spell_column(*outward, *at, out),
        Expr::CountRows => return out.push_str("(count-rows)"),
        Expr::Unary(operator, a) => {
            spell_unary(*operator, out)?;
            spell_expression(a.get(), out)?;
        }
        Expr::Binary(operator, a, b) => {
            spell_binary(*operator, out)?;
            spell_expression(a.get(), out)?;
            out.push(' ')?;
            spell_expression(b.get(), out)?;
        }
        Expr::Ternary(operator, a, b, c) => {
            spell_ternary(*operator, out)?;
            spell_expression(a.get(), out)?;
            out.push(' ')?;
            spell_expression(b.get(), out)?;
            out.push(' ')?;
            spell_expression(c.get(), out)?;
        }
        Expr::InList {
            operand,
            negated,
            list,
        } => {
            out.push_str(in_word(*negated))?;
            spell_expression(operand.get(), out)?;
            spell_list(list.as_slice(), out)?;
        }
        Expr::InQuery {
            operand,
            negated,
            query,
        } => {
            out.push_str(in_word(*negated))?;
            spell_expression(operand.get(), out)?;
            out.push(' ')?;
            spell_query(query.get(), out)?;
        }
        Expr::Exists(query) => {
            out.push_str("(exists ")?;
            spell_query(query.get(), out)?;
        }
        Expr::Subquery(query) => {
            out.push_str("(value ")?;
            spell_query(query.get(), out)?;
        }
        Expr::Case {
            kind,
            arms,
            otherwise,
        } => {
            out.push_str("(case ")?;
            spell_kind(*kind, out)?;
            spell_arms(arms.as_slice(), out)?;
            if let Some(e) = otherwise {
                out.push_str(" (else ")?;
                spell_expression(e.get(), out)?;
                out.push(')')?;
            }
        }
        Expr::Coalesce { kind, operands } => {
            out.push_str("(coalesce ")?;
            spell_kind(*kind, out)?;
            spell_all(operands.as_slice(), out)?;
        }
        Expr::Aggregate {
            function,
            distinct,
            operand,
        } => {
            spell_aggregate(*function, *distinct, out)?;
            spell_expression(operand.get(), out)?;
        }
    }
    out.push(')')
}

/// Adds expressions, each behind a space.
#[cycle(spelling)]
pub(crate) fn spell_all(all: &[Expr], out: &mut String) -> Result<(), AllocError> {
    for e in all {
        out.push(' ')?;
        spell_expression(e, out)?;
    }
    Ok(())
}

/// Adds the values of IN, each behind a space, and around one what the operand is read as beside it.
#[cycle(spelling)]
fn spell_list(all: &[ListItem], out: &mut String) -> Result<(), AllocError> {
    for one in all {
        out.push(' ')?;
        if let Some(reading) = one.reading {
            out.push_str("(operand-as ")?;
            spell_reading(reading, out)?;
            out.push(' ')?;
        }
        spell_expression(&one.value, out)?;
        if one.reading.is_some() {
            out.push(')')?;
        }
    }
    Ok(())
}

#[cycle(spelling)]
fn spell_arms(arms: &[CaseArm], out: &mut String) -> Result<(), AllocError> {
    for arm in arms {
        out.push_str(" (when ")?;
        spell_expression(&arm.test, out)?;
        out.push(' ')?;
        spell_expression(&arm.value, out)?;
        out.push(')')?;
    }
    Ok(())
}
