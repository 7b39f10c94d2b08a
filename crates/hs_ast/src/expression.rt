// Expressions and predicates.
use crate::definition::DataType;
use crate::literal::Literal;
use crate::query::Query;
use crate::word::Word;
use sqlite_items::{Boxed, Items};

#[derive(Clone, Copy, Debug, PartialEq, Eq)]
pub enum Sign {
    Plus,
    Minus,
}

#[derive(Clone, Copy, Debug, PartialEq, Eq)]
pub enum BinaryOperator {
    Or,
    And,
    Equal,
    NotEqual,
    Less,
    LessOrEqual,
    Greater,
    GreaterOrEqual,
    Add,
    Subtract,
    Concatenate,
    Multiply,
    Divide,
}

/// The functions that are written as a word and its arguments.
#[derive(Clone, Copy, Debug, PartialEq, Eq)]
pub enum Function {
    Coalesce,
    NullIf,
    Abs,
    Mod,
    Upper,
    Lower,
    CharLength,
}

#[derive(Clone, Copy, Debug, PartialEq, Eq)]
pub enum Aggregate {
    Count,
    Sum,
    Avg,
    Min,
    Max,
}

/// What stands before the text in TRIM: nothing, FROM alone, or a side and FROM.
#[derive(Clone, Copy, Debug, PartialEq, Eq)]
pub enum TrimForm {
    Bare,
    From,
    Leading,
    Trailing,
    Both,
}

#[derive(Clone, Copy, Debug, PartialEq, Eq)]
pub enum DateField {
    Year,
    Month,
    Day,
    Hour,
    Minute,
    Second,
}

#[derive(Clone, Copy, Debug, PartialEq, Eq)]
pub enum IntervalUnit {
    Day,
    Month,
}

/// A column, with its table where that is written.
#[derive(Debug, Drop)]
pub struct ColumnName {
    pub table: Option<Word>,
    pub column: Word,
}

/// The expression of a CHECK.
pub type Condition = Expression;

/// An expression and the place of its first byte. Its own parentheses are no part of it, but those of its
/// left operand are.
#[cycle(tree)]
#[derive(Drop)]
pub struct Expression {
    pub at: u32,
    pub kind: ExpressionKind,
}

#[cycle(tree)]
#[derive(Drop)]
pub enum ExpressionKind {
    Literal(Literal),
    Column(ColumnName),
    Signed(Sign, Boxed<Expression>),
    Not(Boxed<Expression>),
    Binary(BinaryOperator, Boxed<Expression>, Boxed<Expression>),
    IsNull {
        operand: Boxed<Expression>,
        negated: bool,
    },
    Between {
        operand: Boxed<Expression>,
        negated: bool,
        low: Boxed<Expression>,
        high: Boxed<Expression>,
    },
    InList {
        operand: Boxed<Expression>,
        negated: bool,
        list: Items<Expression>,
    },
    InQuery {
        operand: Boxed<Expression>,
        negated: bool,
        query: Boxed<Query>,
    },
    Like {
        operand: Boxed<Expression>,
        negated: bool,
        pattern: Boxed<Expression>,
        escape: Option<Word>,
    },
    Exists(Boxed<Query>),
    /// It begins at its parenthesis.
    Subquery(Boxed<Query>),
    Cast(Boxed<Expression>, DataType),
    Case {
        arms: Items<CaseArm>,
        otherwise: Option<Boxed<Expression>>,
    },
    Call(Function, Items<Expression>),
    Substring {
        text: Boxed<Expression>,
        start: Boxed<Expression>,
        count: Option<Boxed<Expression>>,
    },
    Trim {
        form: TrimForm,
        character: Option<Boxed<Expression>>,
        text: Boxed<Expression>,
    },
    Extract(DateField, Boxed<Expression>),
    /// An interval that is added or, with a minus, taken away.
    Interval {
        operand: Boxed<Expression>,
        sign: Sign,
        count: u64,
        unit: IntervalUnit,
    },
    /// `COUNT(*)`
    CountRows,
    Aggregate {
        function: Aggregate,
        distinct: bool,
        operand: Boxed<Expression>,
    },
}

/// `WHEN test THEN value`
#[cycle(tree)]
#[derive(Drop)]
pub struct CaseArm {
    pub test: Expression,
    pub value: Expression,
}
