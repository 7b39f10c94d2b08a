// Bound queries.
use crate::expression::Expr;
use crate::kind::Kind;
use hs_ast::{Limit, SetOperator};
use hs_base::TableNo;
use sqlite_items::{Boxed, Items};

/// A query (`query`): its body, the keys of ORDER BY, and LIMIT.
#[cycle(tree)]
#[derive(Drop)]
pub struct Query {
    pub body: QueryBody,
    /// Empty without ORDER BY.
    pub order_by: Items<SortKey>,
    pub limit: Option<Limit>,
}

/// The body of a query: SELECT or VALUES (`core`), or a set operation (`body`, `term`).
#[cycle(tree)]
#[derive(Drop)]
pub enum QueryBody {
    Select(Boxed<Select>),
    /// Numbers are given at the kinds of their columns.
    Values {
        kinds: Items<Kind>,
        rows: Items<ValuesRow>,
    },
    /// Numbers of both sides are given at the kinds of their columns.
    SetOperation {
        operator: SetOperator,
        kinds: Items<Kind>,
        left: Boxed<QueryBody>,
        right: Boxed<QueryBody>,
    },
}

/// A row of VALUES (`core`).
#[cycle(tree)]
#[derive(Drop)]
pub struct ValuesRow {
    pub values: Items<Expr>,
}

/// A SELECT (`core`).
#[cycle(tree)]
#[derive(Drop)]
pub struct Select {
    pub distinct: bool,
    /// The output columns, `*` written out.
    pub items: Items<Expr>,
    /// The elements of FROM, of which there is one or more. The row is that of the first, then that of the next.
    pub from: Items<FromItem>,
    pub filter: Option<Boxed<Expr>>,
    /// Whether rows are grouped: there is GROUP BY, HAVING, or an aggregate among the items.
    pub grouped: bool,
    /// Empty without GROUP BY.
    pub group_by: Items<Expr>,
    pub having: Option<Boxed<Expr>>,
}

/// An element of FROM (`from`): a table and what is joined to it, from the left.
#[cycle(tree)]
#[derive(Drop)]
pub struct FromItem {
    pub source: Source,
    pub joins: Items<Join>,
}

/// Rows of a table or of a query (`one`), and how many columns they have.
#[cycle(tree)]
#[derive(Drop)]
pub enum Source {
    Table { table: TableNo, width: u32 },
    Derived { query: Boxed<Query>, width: u32 },
}

/// A join (`from`). The columns of ON are places in the row of its own element of FROM, up to the source that is joined.
#[cycle(tree)]
#[derive(Drop)]
pub enum Join {
    Inner(Source, Expr),
    Left(Source, Expr),
    Cross(Source),
}

/// A key of ORDER BY (`key`).
#[cycle(tree)]
#[derive(Drop)]
pub struct SortKey {
    pub key: Key,
    pub descending: bool,
}

/// What a key of ORDER BY orders by.
#[cycle(tree)]
#[derive(Drop)]
pub enum Key {
    /// The output column at this place, from 0.
    Output(u32),
    /// An expression over the row of FROM.
    Value(Expr),
}
