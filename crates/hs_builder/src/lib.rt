//! Trees by steps: parts of a statement's tree wait on stacks, and a step takes some and puts a greater one.
//!
//! A mark names a step. `Parts` has the stacks, one for each kind of part, and `apply` does the step with a mark, which
//! `specs/MarkSteps.antt` defines. A step after which a tree would be deeper than 256 isn't done.
#![tactic(auto)]

mod build_fault;
mod changes;
mod definitions;
mod depth;
mod expression_steps;
mod expressions;
mod functions;
mod leaves;
mod mark;
mod mark_steps;
mod natural;
mod part;
mod queries;
mod sessions;
mod stack;
mod statement_steps;

pub use build_fault::BuildFault;
pub use mark::{
    ChangeMark, DefinitionMark, ExpressionMark, FunctionMark, LeafMark, Mark, QueryMark,
    SessionMark,
};
pub use part::Parts;
pub use stack::Stack;
