// Queries.
use crate::expression::Expression;
use crate::word::Identifier;
use sqlite_items::{Boxed, Items};

#[derive(Clone, Copy, Debug, PartialEq, Eq)]
pub enum SetOperator {
    Union,
    UnionAll,
    Except,
    Intersect,
}

/// `LIMIT count OFFSET offset`
#[derive(Clone, Copy, Debug, PartialEq, Eq)]
pub struct Limit {
    pub count: u128,
    pub offset: Option<u128>,
}

#[cycle(tree)]
#[derive(Drop)]
pub struct Query {
    /// The place of its first word, `SELECT` or `VALUES`: parentheses before it are passed over.
    pub at: u32,
    pub body: QueryBody,
    /// Empty without ORDER BY.
    pub order_by: Items<SortKey>,
    pub limit: Option<Limit>,
}

#[cycle(tree)]
#[derive(Drop)]
pub enum QueryBody {
    Select(Boxed<Select>),
    Values(Items<ValuesRow>),
    SetOperation(SetOperator, Boxed<QueryBody>, Boxed<QueryBody>),
}

/// A row of VALUES.
#[cycle(tree)]
#[derive(Drop)]
pub struct ValuesRow {
    pub values: Items<Expression>,
}

#[cycle(tree)]
#[derive(Drop)]
pub struct Select {
    pub distinct: bool,
    pub items: Items<SelectItem>,
    pub from: Items<FromItem>,
    pub filter: Option<Boxed<Expression>>,
    /// Empty without GROUP BY.
    pub group_by: Items<Expression>,
    pub having: Option<Boxed<Expression>>,
}

#[cycle(tree)]
#[derive(Drop)]
pub enum SelectItem {
    /// `*`, which is the only item, and its place.
    Every(u32),
    One {
        /// The place of its first byte, parentheses included.
        at: u32,
        value: Expression,
        alias: Option<Identifier>,
    },
}

/// A table and what is joined to it, from the left.
#[cycle(tree)]
#[derive(Drop)]
pub struct FromItem {
    pub table: TableReference,
    pub joins: Items<Join>,
}

#[cycle(tree)]
#[derive(Drop)]
pub enum TableReference {
    Named {
        name: Identifier,
        alias: Option<Identifier>,
    },
    Derived {
        query: Boxed<Query>,
        alias: Identifier,
    },
}

#[cycle(tree)]
#[derive(Drop)]
pub enum Join {
    Inner(TableReference, Expression),
    Left(TableReference, Expression),
    Cross(TableReference),
}

#[cycle(tree)]
#[derive(Drop)]
pub struct SortKey {
    /// The place of its first byte, parentheses included.
    pub at: u32,
    pub value: Expression,
    pub descending: bool,
}
