// The words of operators and functions in a shape.
use hs_ast::{Aggregate, BinaryOperator, DateField, Function, SetOperator, Sign, TrimForm};

pub fn signed(sign: Sign) -> &'static str {
    match sign {
        Sign::Plus => "(+",
        Sign::Minus => "(-",
    }
}

pub fn operation(operator: BinaryOperator) -> &'static str {
    match operator {
        BinaryOperator::Or => "(OR",
        BinaryOperator::And => "(AND",
        BinaryOperator::Equal => "(=",
        BinaryOperator::NotEqual => "(<>",
        BinaryOperator::Less => "(<",
        BinaryOperator::LessOrEqual => "(<=",
        BinaryOperator::Greater => "(>",
        BinaryOperator::GreaterOrEqual => "(>=",
        BinaryOperator::Add => "(+",
        BinaryOperator::Subtract => "(-",
        BinaryOperator::Concatenate => "(||",
        BinaryOperator::Multiply => "(*",
        BinaryOperator::Divide => "(/",
    }
}

pub fn called(function: Function) -> &'static str {
    match function {
        Function::Coalesce => "(COALESCE",
        Function::NullIf => "(NULLIF",
        Function::Abs => "(ABS",
        Function::Mod => "(MOD",
        Function::Upper => "(UPPER",
        Function::Lower => "(LOWER",
        Function::CharLength => "(CHAR_LENGTH",
    }
}

pub fn trimmed(form: TrimForm) -> &'static str {
    match form {
        TrimForm::Bare => "(TRIM",
        TrimForm::From => "(TRIM FROM",
        TrimForm::Leading => "(TRIM LEADING",
        TrimForm::Trailing => "(TRIM TRAILING",
        TrimForm::Both => "(TRIM BOTH",
    }
}

pub fn extracted(field: DateField) -> &'static str {
    match field {
        DateField::Year => "(YEAR",
        DateField::Month => "(MONTH",
        DateField::Day => "(DAY",
        DateField::Hour => "(HOUR",
        DateField::Minute => "(MINUTE",
        DateField::Second => "(SECOND",
    }
}

pub fn aggregated(function: Aggregate) -> &'static str {
    match function {
        Aggregate::Count => "(COUNT",
        Aggregate::Sum => "(SUM",
        Aggregate::Avg => "(AVG",
        Aggregate::Min => "(MIN",
        Aggregate::Max => "(MAX",
    }
}

pub fn combined(operator: SetOperator) -> &'static str {
    match operator {
        SetOperator::Union => " UNION ",
        SetOperator::UnionAll => " UNION-ALL ",
        SetOperator::Except => " EXCEPT ",
        SetOperator::Intersect => " INTERSECT ",
    }
}
