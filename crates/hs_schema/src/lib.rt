//! The catalogue: the list of its things in the order of creation, the look-ups by names and numbers, and what a
//! definition makes of it.
#![tactic(auto)]

mod catalog;
mod children;
mod copies;
pub mod laws;
mod making;
mod removal;
mod table;
mod thing;

pub use catalog::Catalog;
pub use hs_plan::{
    Aggregate, Assignment, Binary, BinaryOperator, BindFault, CaseArm, Cause, Change, Changes,
    Column, Constraint, DateField, Definition, Delete, Expr, ForeignKey, FromItem, Insert,
    InsertSource, IntervalUnit, Isolation, Join, Key, Kind, Limit, ListItem, LockedTable, Modes,
    NewValue, PlacedFault, Plan, Query, QueryBody, Reading, ReferentialAction, Rule, Select,
    SessionStatement, SetOperator, Sign, SortKey, Source, Storage, Ternary, TransactionControl,
    TrimForm, Unary, Update, ValuesRow, Which, aggregate_kind, are_comparable, is_assignable,
    is_condition, kind_of_type, widest,
};
pub use table::{Child, Place, Table};
pub use thing::{Part, Thing};
