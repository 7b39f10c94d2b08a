// Words and symbols in conditions.
ghost use Rattle.std.specs.Prelude.{◌≡◌};
ghost use Rattle.hs_conditiontext.specs.Operators as spec;

use hs_plan::{BinaryOperator, DateField, IntervalUnit, Sign, TrimForm};

pub(crate) fn symbol_text(operator: BinaryOperator) -> &'static str
    ensures { result.now ≡ spec.symbol_text operator }
{
    match operator {
        BinaryOperator::Or => " OR ",
        BinaryOperator::And => " AND ",
        BinaryOperator::Equal => " = ",
        BinaryOperator::NotEqual => " <> ",
        BinaryOperator::Less => " < ",
        BinaryOperator::LessOrEqual => " <= ",
        BinaryOperator::Greater => " > ",
        BinaryOperator::GreaterOrEqual => " >= ",
        BinaryOperator::Add => " + ",
        BinaryOperator::Subtract => " - ",
        BinaryOperator::Concatenate => " || ",
        BinaryOperator::Multiply => " * ",
        BinaryOperator::Divide => " / ",
    }
}

pub(crate) fn sign_text(sign: Sign) -> &'static str
    ensures { result.now ≡ spec.sign_text sign }
{
    match sign {
        Sign::Plus => " + ",
        Sign::Minus => " - ",
    }
}

pub(crate) fn unit_text(unit: IntervalUnit) -> &'static str
    ensures { result.now ≡ spec.unit_text unit }
{
    match unit {
        IntervalUnit::Day => "DAY",
        IntervalUnit::Month => "MONTH",
    }
}

pub(crate) fn field_text(field: DateField) -> &'static str
    ensures { result.now ≡ spec.field_text field }
{
    match field {
        DateField::Year => "YEAR",
        DateField::Month => "MONTH",
        DateField::Day => "DAY",
        DateField::Hour => "HOUR",
        DateField::Minute => "MINUTE",
        DateField::Second => "SECOND",
    }
}

/// What stands in front of a text that is trimmed of spaces.
pub(crate) fn trimmed_text(form: TrimForm) -> &'static str
    ensures { result.now ≡ spec.trimmed_text form }
{
    match form {
        TrimForm::Bare => "TRIM(",
        TrimForm::From => "TRIM(FROM ",
        TrimForm::Leading => "TRIM(LEADING FROM ",
        TrimForm::Trailing => "TRIM(TRAILING FROM ",
        TrimForm::Both => "TRIM(BOTH FROM ",
    }
}

/// What stands in front of a character that is trimmed off.
pub(crate) fn trimming_text(form: TrimForm) -> &'static str
    ensures { result.now ≡ spec.trimming_text form }
{
    match form {
        TrimForm::Bare | TrimForm::From => "TRIM(",
        TrimForm::Leading => "TRIM(LEADING ",
        TrimForm::Trailing => "TRIM(TRAILING ",
        TrimForm::Both => "TRIM(BOTH ",
    }
}

pub(crate) fn in_text(negated: bool) -> &'static str
    ensures { result.now ≡ spec.in_text negated }
{
    if negated { " NOT IN (" } else { " IN (" }
}

pub(crate) fn between_text(negated: bool) -> &'static str
    ensures { result.now ≡ spec.between_text negated }
{
    if negated {
        " NOT BETWEEN "
    } else {
        " BETWEEN "
    }
}

pub(crate) fn like_text(negated: bool) -> &'static str
    ensures { result.now ≡ spec.like_text negated }
{
    if negated { " NOT LIKE " } else { " LIKE " }
}
