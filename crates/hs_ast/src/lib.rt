//! The trees of SQL statements, as they are written. Parentheses, quotes and escapes are gone, and names
//! have their meaning's spelling. A place is the number of a byte of the statement's text, from 0.
#![tactic(auto)]

mod change;
mod copies;
mod copies_of_statements;
mod definition;
mod expression;
mod laws;
mod literal;
mod query;
mod session;
mod statement;
mod word;

pub use change::{Assignment, Delete, Insert, InsertSource, LockedTable, NewValue, Update};
pub use definition::{
    AlterAction, AlterTable, ColumnConstraint, ColumnDefinition, ColumnRule, CreateIndex,
    CreateTable, DataType, DefaultValue, ForeignKey, ReferentialAction, Storage, TableConstraint,
    TableElement, TableRule,
};
pub use expression::{
    Aggregate, BinaryOperator, CaseArm, ColumnName, Condition, DateField, Expression,
    ExpressionKind, Function, IntervalUnit, Sign, TrimForm,
};
pub use laws::{
    alike_trees_differ_in_places_alone, places_are_set_anew, places_make_no_depth_and_break_no_law,
};
pub use literal::{Literal, Number};
pub use query::{
    FromItem, Join, Limit, Query, QueryBody, Select, SelectItem, SetOperator, SortKey,
    TableReference, ValuesRow,
};
pub use session::{Access, Isolation, Modes, TransactionControl};
pub use statement::Stmt;
pub use word::{Identifier, Word};
