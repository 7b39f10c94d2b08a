// The parts of a tree that is being built. A depth is that of all trees in the part, and a place is a byte of the text.
use crate::stack::Stack;
use hs_ast::{
    CaseArm, ColumnDefinition, CreateTable, DataType, DateField, Delete, Expression, ForeignKey,
    FromItem, Identifier, Join, Limit, Literal, LockedTable, Modes, NewValue, Number, QueryBody,
    ReferentialAction, SelectItem, SortKey, Stmt, TableConstraint, TableReference, TrimForm,
    Update, ValuesRow, Word,
};
use sqlite_items::{Boxed, Items};
use std::alloc::Global;

#[derive(Clone, Copy)]
pub struct PlacedNumber {
    pub number: Number,
    pub at: u32,
}

#[derive(Drop)]
pub struct PlacedText {
    pub text: Word,
    pub at: u32,
}

#[derive(Drop)]
pub struct PlacedLiteral {
    pub literal: Literal,
    pub at: u32,
}

/// An expression, and the place where it begins with its parentheses.
#[derive(Drop)]
pub struct Built {
    pub tree: Boxed<Expression>,
    pub depth: u32,
    pub start: u32,
}

#[derive(Drop)]
pub struct BuiltList {
    pub trees: Items<Expression>,
    pub depth: u32,
}

/// What may be left out: the condition of WHERE or HAVING, the value of ELSE.
#[derive(Drop)]
pub struct BuiltOptional {
    pub tree: Option<Boxed<Expression>>,
    pub depth: u32,
}

/// A CASE as far as it is read, without ELSE.
#[derive(Drop)]
pub struct BuiltCase {
    pub arms: Items<CaseArm>,
    pub depth: u32,
    pub at: u32,
}

/// A SELECT as far as it is read, without WHERE, HAVING, ORDER BY and LIMIT.
#[derive(Drop)]
pub struct BuiltSelect {
    pub distinct: bool,
    pub items: Items<SelectItem>,
    pub from: Items<FromItem>,
    pub group_by: Items<Expression>,
    pub depth: u32,
    pub at: u32,
}

#[derive(Drop)]
pub struct BuiltTable {
    pub table: TableReference,
    pub depth: u32,
}

/// A table and what is joined to it so far.
#[derive(Drop)]
pub struct BuiltFrom {
    pub table: TableReference,
    pub joins: Items<Join>,
    pub depth: u32,
}

/// Rows of VALUES, which stands at the place.
#[derive(Drop)]
pub struct BuiltRows {
    pub rows: Items<ValuesRow>,
    pub depth: u32,
    pub at: u32,
}

/// A body, the place of its first word, and the innermost parenthesis that holds all of it.
#[derive(Drop)]
pub struct BuiltBody {
    pub tree: Boxed<QueryBody>,
    pub depth: u32,
    pub at: u32,
    pub bracket: Option<u32>,
}

/// A query as far as it is read, and its depth as a query.
#[derive(Drop)]
pub struct BuiltQuery {
    pub body: Boxed<QueryBody>,
    pub order_by: Items<SortKey>,
    pub limit: Option<Limit>,
    pub depth: u32,
    pub at: u32,
}

/// The table of an INSERT, and its columns.
#[derive(Drop)]
pub struct InsertTarget {
    pub table: Identifier,
    pub columns: Items<Identifier>,
}

/// A row of VALUES in an INSERT.
#[derive(Drop)]
pub struct BuiltTuple {
    pub values: Items<NewValue>,
    pub depth: u32,
}

/// The rows of VALUES in an INSERT. VALUES stands at the place.
#[derive(Drop)]
pub struct BuiltTuples {
    pub tuples: Items<Items<NewValue>>,
    pub depth: u32,
    pub at: u32,
}

/// The place of a constraint, and its name.
#[derive(Drop)]
pub struct ConstraintHeader {
    pub at: u32,
    pub name: Option<Identifier>,
}

/// Words, names, numbers and texts.
#[derive(Drop)]
pub struct Leaves {
    pub places: Stack<u32>,
    pub names: Stack<Identifier>,
    pub name_lists: Stack<Items<Identifier>>,
    pub aliases: Stack<Option<Identifier>>,
    pub flags: Stack<bool>,
    pub numbers: Stack<PlacedNumber>,
    pub texts: Stack<PlacedText>,
    pub literals: Stack<PlacedLiteral>,
    pub types: Stack<DataType>,
}

#[derive(Drop)]
pub struct Expressions {
    pub whole: Stack<Built>,
    pub lists: Stack<BuiltList>,
    pub cases: Stack<BuiltCase>,
    pub forms: Stack<TrimForm>,
    pub fields: Stack<DateField>,
    pub counts: Stack<u64>,
    pub optional: Stack<BuiltOptional>,
}

#[derive(Drop)]
pub struct Queries {
    pub selects: Stack<BuiltSelect>,
    pub tables: Stack<BuiltTable>,
    pub froms: Stack<BuiltFrom>,
    pub rows: Stack<BuiltRows>,
    pub bodies: Stack<BuiltBody>,
    pub whole: Stack<BuiltQuery>,
}

#[derive(Drop)]
pub struct Changes {
    pub targets: Stack<InsertTarget>,
    pub tuples: Stack<BuiltTuple>,
    pub tuple_lists: Stack<BuiltTuples>,
    pub updates: Stack<Update>,
    pub deletes: Stack<Delete>,
    pub locks: Stack<Items<LockedTable>>,
}

#[derive(Drop)]
pub struct Definitions {
    pub tables: Stack<CreateTable>,
    pub columns: Stack<ColumnDefinition>,
    pub headers: Stack<ConstraintHeader>,
    pub keys: Stack<ForeignKey>,
    pub actions: Stack<ReferentialAction>,
    pub constraints: Stack<TableConstraint>,
}

/// The parts that wait to be built into greater ones, each kind on a stack of its own.
#[derive(Drop)]
pub struct Parts {
    pub leaves: Leaves,
    pub expressions: Expressions,
    pub queries: Queries,
    pub changes: Changes,
    pub definitions: Definitions,
    pub modes: Stack<Modes>,
    pub statements: Stack<Stmt>,
}
