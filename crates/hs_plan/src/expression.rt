// Bound expressions.
use crate::kind::Kind;
use crate::operator::{Binary, Ternary, Unary};
use crate::query::Query;
use crate::reading::Reading;
use hs_ast::Aggregate;
use hs_values::{Chars, Value};
use sqlite_items::{Boxed, Items};

/// An expression (`e`) whose columns are places. It keeps what the canonical line of a CHECK shows of its text, and
/// nothing else.
#[cycle(tree)]
#[derive(Drop)]
pub enum Expr {
    /// NULL, a truth value, a number, a text, or DATE or TIMESTAMP with a text that is one.
    Literal(Value),
    /// A text that is read as a date or a timestamp.
    ReadText {
        text: Chars,
        reading: Reading,
    },
    /// DATE, or TIMESTAMP, with a text that is none: its evaluation is the fault `bad date`.
    BadMoment {
        timestamp: bool,
        text: Chars,
    },
    /// The column at this place, from 0, of the row of the SELECT that is so many SELECTs outward.
    Column {
        outward: u32,
        at: u32,
    },
    Unary(Unary, Boxed<Expr>),
    Binary(Binary, Boxed<Expr>, Boxed<Expr>),
    Ternary(Ternary, Boxed<Expr>, Boxed<Expr>, Boxed<Expr>),
    InList {
        operand: Boxed<Expr>,
        negated: bool,
        list: Items<ListItem>,
    },
    /// The query has one column.
    InQuery {
        operand: Boxed<Expr>,
        negated: bool,
        query: Boxed<Query>,
    },
    Exists(Boxed<Query>),
    /// The query has one column, and stands for the value of its one row.
    Subquery(Boxed<Query>),
    /// A number that is chosen is given at this kind.
    Case {
        kind: Kind,
        arms: Items<CaseArm>,
        otherwise: Option<Boxed<Expr>>,
    },
    /// A number that is chosen is given at this kind. There is one operand or more.
    Coalesce {
        kind: Kind,
        operands: Items<Expr>,
    },
    /// `COUNT(*)` of the group of the innermost SELECT.
    CountRows,
    /// An aggregate of the group of the innermost SELECT.
    Aggregate {
        function: Aggregate,
        distinct: bool,
        operand: Boxed<Expr>,
    },
}

/// A value of IN with a list (`pred`).
#[cycle(tree)]
#[derive(Drop)]
pub struct ListItem {
    /// What the operand is read as where it is compared with this value. None where it isn't read.
    pub reading: Option<Reading>,
    pub value: Expr,
}

/// `WHEN test THEN value` of CASE (`primary`).
#[cycle(tree)]
#[derive(Drop)]
pub struct CaseArm {
    pub test: Expr,
    pub value: Expr,
}
