// Where an expression stands.
use crate::around::Around;
use hs_values::Row;
use std::alloc::Global;

/// What stands around an expression: rows, and for its aggregates the rows of a group.
#[derive(Clone, Copy)]
pub struct Place<'a> {
    pub alloc: Global,
    pub around: &'a Around<'a>,
    /// The rows of the group of the innermost SELECT.
    pub group: &'a [Row],
}
