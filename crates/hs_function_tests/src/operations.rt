// Operations by short names.
use hs_plan::{
    Binary, BinaryOperator, DateField, IntervalUnit, Reading, Sign, Ternary, TrimForm, Unary,
};
use hs_values::SqlType;

#[derive(Clone, Copy)]
pub enum Operation {
    One(Unary),
    Two(Binary),
    Three(Ternary),
}

use Operation::{One, Three, Two};

pub const MINUS: Operation = One(Unary::Minus);

pub const PLUS: Operation = One(Unary::Plus);

pub const NOT: Operation = One(Unary::Not);

pub const IS_NULL: Operation = One(Unary::IsNull);

pub const IS_NOT_NULL: Operation = One(Unary::IsNotNull);

pub const ABS: Operation = One(Unary::Abs);

pub const UPPER: Operation = One(Unary::Upper);

pub const LOWER: Operation = One(Unary::Lower);

pub const CHAR_LENGTH: Operation = One(Unary::CharLength);

pub const TRIM: Operation = One(Unary::Trim(TrimForm::Bare));

pub const TRIM_LEADING: Operation = One(Unary::Trim(TrimForm::Leading));

pub const TRIM_TRAILING: Operation = One(Unary::Trim(TrimForm::Trailing));

pub const YEAR: Operation = One(Unary::Extract(DateField::Year));

pub const MONTH: Operation = One(Unary::Extract(DateField::Month));

pub const DAY: Operation = One(Unary::Extract(DateField::Day));

pub const HOUR: Operation = One(Unary::Extract(DateField::Hour));

pub const MINUTE: Operation = One(Unary::Extract(DateField::Minute));

pub const SECOND: Operation = One(Unary::Extract(DateField::Second));

pub const NEXT_DAY: Operation = One(Unary::Interval {
    sign: Sign::Plus,
    count: 1,
    unit: IntervalUnit::Day,
});

pub const DAY_BEFORE: Operation = One(Unary::Interval {
    sign: Sign::Minus,
    count: 1,
    unit: IntervalUnit::Day,
});

pub const NEXT_MONTH: Operation = One(Unary::Interval {
    sign: Sign::Plus,
    count: 1,
    unit: IntervalUnit::Month,
});

pub const MONTH_BEFORE: Operation = One(Unary::Interval {
    sign: Sign::Minus,
    count: 1,
    unit: IntervalUnit::Month,
});

pub const FAR_DAYS: Operation = One(Unary::Interval {
    sign: Sign::Minus,
    count: 999_999_999_999_999_999,
    unit: IntervalUnit::Day,
});

pub const TO_SMALL: Operation = One(Unary::Cast(SqlType::Small));

pub const TO_BIG: Operation = One(Unary::Cast(SqlType::Big));

pub const TO_DECIMAL: Operation = One(Unary::Cast(SqlType::Decimal {
    precision: 12,
    scale: 2,
}));

pub const TO_TEXT: Operation = One(Unary::Cast(SqlType::Varchar { max: 26 }));

pub const TO_SHORT_TEXT: Operation = One(Unary::Cast(SqlType::Varchar { max: 4 }));

pub const TO_BOOLEAN: Operation = One(Unary::Cast(SqlType::Bool));

pub const TO_DATE: Operation = One(Unary::Cast(SqlType::Date));

pub const TO_TIMESTAMP: Operation = One(Unary::Cast(SqlType::Stamp));

pub const ADD: Operation = Two(Binary::Operator(BinaryOperator::Add));

pub const SUBTRACT: Operation = Two(Binary::Operator(BinaryOperator::Subtract));

pub const MULTIPLY: Operation = Two(Binary::Operator(BinaryOperator::Multiply));

pub const DIVIDE: Operation = Two(Binary::Operator(BinaryOperator::Divide));

pub const CONCATENATE: Operation = Two(Binary::Operator(BinaryOperator::Concatenate));

pub const AND: Operation = Two(Binary::Operator(BinaryOperator::And));

pub const OR: Operation = Two(Binary::Operator(BinaryOperator::Or));

pub const EQUAL: Operation = Two(Binary::Operator(BinaryOperator::Equal));

pub const NOT_EQUAL: Operation = Two(Binary::Operator(BinaryOperator::NotEqual));

pub const LESS: Operation = Two(Binary::Operator(BinaryOperator::Less));

pub const LESS_OR_EQUAL: Operation = Two(Binary::Operator(BinaryOperator::LessOrEqual));

pub const GREATER: Operation = Two(Binary::Operator(BinaryOperator::Greater));

pub const GREATER_OR_EQUAL: Operation = Two(Binary::Operator(BinaryOperator::GreaterOrEqual));

pub const MOD: Operation = Two(Binary::Mod);

pub const NULL_IF: Operation = Two(Binary::NullIf { reading: None });

/// 2024-02-29
pub const NULL_IF_DAY: Operation = Two(Binary::NullIf {
    reading: Some(Reading::Day(19_782)),
});

pub const NULL_IF_NO_DAY: Operation = Two(Binary::NullIf {
    reading: Some(Reading::BadDate),
});

pub const LIKE: Operation = Two(Binary::Like {
    negated: false,
    escape: None,
});

pub const NOT_LIKE: Operation = Two(Binary::Like {
    negated: true,
    escape: None,
});

pub const LIKE_ESCAPE: Operation = Two(Binary::Like {
    negated: false,
    escape: Some('!'),
});

pub const TRIM_OF: Operation = Two(Binary::TrimOf(TrimForm::Both));

pub const TRIM_LEADING_OF: Operation = Two(Binary::TrimOf(TrimForm::Leading));

pub const SUBSTRING: Operation = Two(Binary::SubstringFrom);

pub const SUBSTRING_FOR: Operation = Three(Ternary::SubstringFor);

pub const BETWEEN: Operation = Three(Ternary::Between {
    negated: false,
    low: None,
    high: None,
});

pub const NOT_BETWEEN: Operation = Three(Ternary::Between {
    negated: true,
    low: None,
    high: None,
});

/// 2024-02-29 is compared with the least, and no timestamp with the greatest.
pub const BETWEEN_READ: Operation = Three(Ternary::Between {
    negated: false,
    low: Some(Reading::Day(19_782)),
    high: Some(Reading::BadTimestamp),
});
