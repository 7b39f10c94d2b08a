// Operators, predicates and functions: how their nodes begin, up to the space before the first operand.
use crate::values::{spell_reading, spell_text, spell_type};
use hs_plan::{
    Aggregate, Binary, BinaryOperator, DateField, IntervalUnit, Reading, Sign, Ternary, TrimForm,
    Unary,
};
use std::alloc::AllocError;

fn operator_word(operator: BinaryOperator) -> &'static str {
    match operator {
        BinaryOperator::Or => "(or ",
        BinaryOperator::And => "(and ",
        BinaryOperator::Equal => "(= ",
        BinaryOperator::NotEqual => "(<> ",
        BinaryOperator::Less => "(< ",
        BinaryOperator::LessOrEqual => "(<= ",
        BinaryOperator::Greater => "(> ",
        BinaryOperator::GreaterOrEqual => "(>= ",
        BinaryOperator::Add => "(+ ",
        BinaryOperator::Subtract => "(- ",
        BinaryOperator::Concatenate => "(|| ",
        BinaryOperator::Multiply => "(* ",
        BinaryOperator::Divide => "(/ ",
    }
}

fn aggregate_word(function: Aggregate) -> &'static str {
    match function {
        Aggregate::Count => "(count ",
        Aggregate::Sum => "(sum ",
        Aggregate::Avg => "(avg ",
        Aggregate::Min => "(min ",
        Aggregate::Max => "(max ",
    }
}

fn trim_word(form: TrimForm) -> &'static str {
    match form {
        TrimForm::Bare => "(trim ",
        TrimForm::From => "(trim-from ",
        TrimForm::Leading => "(trim-leading ",
        TrimForm::Trailing => "(trim-trailing ",
        TrimForm::Both => "(trim-both ",
    }
}

fn field_word(field: DateField) -> &'static str {
    match field {
        DateField::Year => "(year ",
        DateField::Month => "(month ",
        DateField::Day => "(day-of ",
        DateField::Hour => "(hour ",
        DateField::Minute => "(minute ",
        DateField::Second => "(second ",
    }
}

fn spell_interval(
    sign: Sign,
    count: u64,
    unit: IntervalUnit,
    out: &mut String,
) -> Result<(), AllocError> {
    out.push_str(match sign {
        Sign::Plus => "(later",
        Sign::Minus => "(earlier",
    })?;
    write!(out, " {count}")?;
    out.push_str(match unit {
        IntervalUnit::Day => " days ",
        IntervalUnit::Month => " months ",
    })
}

/// Adds an operator of one operand.
pub(crate) fn spell_unary(operator: Unary, out: &mut String) -> Result<(), AllocError> {
    match operator {
        Unary::Plus => out.push_str("(+ "),
        Unary::Minus => out.push_str("(- "),
        Unary::Not => out.push_str("(not "),
        Unary::IsNull => out.push_str("(is-null "),
        Unary::IsNotNull => out.push_str("(is-not-null "),
        Unary::Cast(sql_type) => {
            out.push_str("(cast ")?;
            spell_type(&sql_type, out)?;
            out.push(' ')
        }
        Unary::Abs => out.push_str("(abs "),
        Unary::Upper => out.push_str("(upper "),
        Unary::Lower => out.push_str("(lower "),
        Unary::CharLength => out.push_str("(char-length "),
        Unary::Trim(form) => out.push_str(trim_word(form)),
        Unary::Extract(field) => out.push_str(field_word(field)),
        Unary::Interval { sign, count, unit } => spell_interval(sign, count, unit, out),
    }
}

/// Adds a word and what an operand is read as, where it is read.
fn spell_read(word: &str, reading: Option<Reading>, out: &mut String) -> Result<(), AllocError> {
    match reading {
        Some(reading) => {
            out.push_str(word)?;
            spell_reading(reading, out)?;
            out.push_str(") ")
        }
        None => Ok(()),
    }
}

fn spell_like(negated: bool, escape: Option<char>, out: &mut String) -> Result<(), AllocError> {
    out.push_str(if negated { "(not-like " } else { "(like " })?;
    match escape {
        Some(c) => write!(out, "(escape {c}) "),
        None => Ok(()),
    }
}

/// Adds an operator of two operands.
pub(crate) fn spell_binary(operator: Binary, out: &mut String) -> Result<(), AllocError> {
    match operator {
        Binary::Operator(operator) => out.push_str(operator_word(operator)),
        Binary::Mod => out.push_str("(mod "),
        Binary::NullIf { reading } => {
            out.push_str("(nullif ")?;
            spell_read("(as ", reading, out)
        }
        Binary::Like { negated, escape } => spell_like(negated, escape, out),
        Binary::TrimOf(form) => out.push_str(trim_word(form)),
        Binary::SubstringFrom => out.push_str("(substring "),
    }
}

/// Adds an operator of three operands.
pub(crate) fn spell_ternary(operator: Ternary, out: &mut String) -> Result<(), AllocError> {
    match operator {
        Ternary::Between { negated, low, high } => {
            out.push_str(if negated {
                "(not-between "
            } else {
                "(between "
            })?;
            spell_read("(low-as ", low, out)?;
            spell_read("(high-as ", high, out)
        }
        Ternary::SubstringFor => out.push_str("(substring "),
    }
}

/// The word of IN.
pub(crate) fn in_word(negated: bool) -> &'static str {
    if negated { "(not-in " } else { "(in " }
}

/// Adds a text that is read as a date or a timestamp.
pub(crate) fn spell_read_text(
    text: &str,
    reading: Reading,
    out: &mut String,
) -> Result<(), AllocError> {
    out.push_str("(as ")?;
    spell_reading(reading, out)?;
    out.push(' ')?;
    spell_text(text, out)?;
    out.push(')')
}

/// Adds DATE or TIMESTAMP with a text that is none.
pub(crate) fn spell_bad_moment(
    timestamp: bool,
    text: &str,
    out: &mut String,
) -> Result<(), AllocError> {
    out.push_str(if timestamp {
        "(bad-timestamp "
    } else {
        "(bad-date "
    })?;
    spell_text(text, out)?;
    out.push(')')
}

/// Adds a column.
pub(crate) fn spell_column(outward: u32, at: u32, out: &mut String) -> Result<(), AllocError> {
    write!(out, "(column {outward} {at})")
}

/// Adds the word of an aggregate.
pub(crate) fn spell_aggregate(
    function: Aggregate,
    distinct: bool,
    out: &mut String,
) -> Result<(), AllocError> {
    out.push_str(aggregate_word(function))?;
    if distinct {
        out.push_str("distinct ")?;
    }
    Ok(())
}
