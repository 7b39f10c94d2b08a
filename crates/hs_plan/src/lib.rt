//! What a statement means once its names are bound: plans, queries and expressions whose columns are places, the
//! definitions of tables and their constraints, the changes of a commit, the faults of binding, and the rules
//! that say which operands an operator takes and what it gives. Bound trees have no places of their text.
#![tactic(auto)]

mod change;
mod changes;
mod copies;
mod copies_of_definitions;
mod definition;
mod expression;
mod fault;
mod kind;
mod named;
mod operator;
mod plan;
mod query;
mod reading;
mod typing;

pub use change::Change;
pub use changes::Changes;
pub use definition::{Column, Constraint, Definition, ForeignKey, Rule};
pub use expression::{CaseArm, Expr, ListItem};
pub use fault::{BindFault, Cause, PlacedFault, Which};
pub use hs_ast::{
    Aggregate, BinaryOperator, DateField, IntervalUnit, Isolation, Limit, Modes, ReferentialAction,
    SetOperator, Sign, Storage, TransactionControl, TrimForm,
};
pub use kind::Kind;
pub use named::{named_in_plan, named_in_query};
pub use operator::{Binary, Ternary, Unary};
pub use plan::{
    Assignment, Delete, Insert, InsertSource, LockedTable, NewValue, Plan, SessionStatement, Update,
};
pub use query::{FromItem, Join, Key, Query, QueryBody, Select, SortKey, Source, ValuesRow};
pub use reading::Reading;
pub use typing::{
    aggregate_kind, are_comparable, is_assignable, is_condition, kind_of_type, widest,
};
