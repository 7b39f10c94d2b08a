// Operators, predicates and functions by the number of their operands.
use crate::reading::Reading;
use hs_ast::{BinaryOperator, DateField, IntervalUnit, Sign, TrimForm};
use hs_values::SqlType;

/// What takes one operand: signs (`unary`), NOT and IS NULL (`pred`), CAST, EXTRACT, functions and an interval
/// (`primary`).
#[derive(Clone, Copy)]
pub enum Unary {
    Plus,
    Minus,
    Not,
    IsNull,
    IsNotNull,
    Cast(SqlType),
    Abs,
    Upper,
    Lower,
    CharLength,
    /// TRIM of spaces.
    Trim(TrimForm),
    Extract(DateField),
    /// An interval that is added or, with a minus, taken away.
    Interval {
        sign: Sign,
        count: u64,
        unit: IntervalUnit,
    },
}

/// What takes two operands: OR, AND, comparisons, sums and products (`e`, `pred`, `sum`, `product`), LIKE (`pred`)
/// and functions (`primary`).
#[derive(Clone, Copy)]
pub enum Binary {
    Operator(BinaryOperator),
    Mod,
    /// `reading` is what the first operand is read as where the two are compared. None where it isn't read.
    NullIf { reading: Option<Reading> },
    /// A text and its pattern.
    Like { negated: bool, escape: Option<char> },
    /// TRIM of a character, which is the first operand, from a text.
    TrimOf(TrimForm),
    /// A text and the place of the first character.
    SubstringFrom,
}

/// What takes three operands: BETWEEN (`pred`) and SUBSTRING with FOR (`primary`).
#[derive(Clone, Copy)]
pub enum Ternary {
    /// A value, its least and its greatest. `low` and `high` are what the value is read as where it is compared with
    /// each. None where it isn't read.
    Between {
        negated: bool,
        low: Option<Reading>,
        high: Option<Reading>,
    },
    /// A text, the place of the first character, and how many.
    SubstringFor,
}
