// The steps that build statements which read or change rows, or lock tables.
ghost use Rattle.std.specs.Prelude.{◌≡◌, MatchResult};
ghost use Rattle.hs_builder.specs.Steps.{Gives};
ghost use Rattle.hs_builder.specs.Changes as spec;
ghost use Rattle.hs_builder.specs.declared.build_fault.BuildFault.TheVariants.{NoMemory};

use crate::build_fault::BuildFault;
use crate::depth::deepest;
use crate::expressions::pop_query;
use crate::part::{
    Built, BuiltBody, BuiltOptional, BuiltQuery, BuiltTuple, BuiltTuples, InsertTarget,
};
use crate::queries::put_body;
use crate::stack::Stack;
use hs_ast::{
    Assignment, Delete, Expression, Identifier, Insert, InsertSource, LockedTable, NewValue,
    QueryBody, Stmt, Update, ValuesRow,
};
use hs_lexer::Token;
use sqlite_items::{Boxed, Items};
use std::alloc::Global;

pub fn query_statement(
    alloc: Global,
    queries: &mut Stack<BuiltQuery>,
    statements: &mut Stack<Stmt>,
) -> Result<(), BuildFault>
    ensures { Gives (spec.query_statement (queries.old, statements.old)) result (queries.new, statements.new) }
{
    let (query, _) = pop_query(alloc, queries)?;
    statements.push(Stmt::Query(query.into_inner()))
}

// ---- INSERT

pub fn begin_insert(
    alloc: Global,
    names: &mut Stack<Identifier>,
    targets: &mut Stack<InsertTarget>,
) -> Result<(), BuildFault>
    ensures { Gives (spec.begin_insert (names.old, targets.old)) result (names.new, targets.new) }
{
    let table = names.pop()?;
    targets.push(InsertTarget {
        table,
        columns: Items::new(alloc),
    })
}

pub fn insert_columns(
    places: &mut Stack<u32>,
    lists: &mut Stack<Items<Identifier>>,
    targets: &mut Stack<InsertTarget>,
) -> Result<(), BuildFault>
    ensures { Gives (spec.insert_columns (places.old, lists.old, targets.old)) result (places.new, lists.new, targets.new) }
{
    let columns = lists.pop()?;
    let _place = places.pop()?;
    let target = targets.pop()?;
    targets.push(InsertTarget {
        table: target.table,
        columns,
    })
}

pub fn begin_tuples(
    alloc: Global,
    token: Token,
    lists: &mut Stack<BuiltTuples>,
) -> Result<(), BuildFault>
    ensures { Gives (spec.begin_tuples token lists.old) result lists.new }
{
    lists.push(BuiltTuples {
        tuples: Items::new(alloc),
        depth: 0,
        at: token.start,
    })
}

pub fn begin_tuple(alloc: Global, tuples: &mut Stack<BuiltTuple>) -> Result<(), BuildFault>
    ensures { Gives (spec.begin_tuple tuples.old) result tuples.new }
{
    tuples.push(BuiltTuple {
        values: Items::new(alloc),
        depth: 0,
    })
}

pub fn tuple_value(
    expressions: &mut Stack<Built>,
    tuples: &mut Stack<BuiltTuple>,
) -> Result<(), BuildFault>
    ensures { Gives (spec.tuple_value (expressions.old, tuples.old)) result (expressions.new, tuples.new) }
{
    let e = expressions.pop()?;
    let mut tuple = tuples.pop()?;
    tuple.depth = deepest(tuple.depth, e.depth);
    tuple
        .values
        .push(NewValue::Expression(e.tree.into_inner()))?;
    tuples.push(tuple)
}

pub fn tuple_default(token: Token, tuples: &mut Stack<BuiltTuple>) -> Result<(), BuildFault>
    ensures { Gives (spec.tuple_default token tuples.old) result tuples.new }
{
    let mut tuple = tuples.pop()?;
    tuple.values.push(NewValue::Default(token.start))?;
    tuples.push(tuple)
}

pub fn add_tuple(
    tuples: &mut Stack<BuiltTuple>,
    lists: &mut Stack<BuiltTuples>,
) -> Result<(), BuildFault>
    ensures { Gives (spec.add_tuple (tuples.old, lists.old)) result (tuples.new, lists.new) }
{
    let tuple = tuples.pop()?;
    let mut list = lists.pop()?;
    list.depth = deepest(list.depth, tuple.depth);
    list.tuples.push(tuple.values)?;
    lists.push(list)
}

/// The expressions of a tuple. A DEFAULT is left out.
fn expressions_in(alloc: Global, values: &[NewValue]) -> Result<Items<Expression>, BuildFault>
    ensures { MatchResult result (λ all. all ≡ spec.expressions_in values.now) (λ e. e ≡ NoMemory) }
{
    let mut all = Items::new(alloc);
    for value in values {
        match value {
            NewValue::Expression(e) => all.push(e.copy(alloc)?)?,
            NewValue::Default(_) => (),
        }
    }
    Ok(all)
}

fn rows_in(alloc: Global, tuples: &[Items<NewValue>]) -> Result<Items<ValuesRow>, BuildFault>
    ensures { MatchResult result (λ rows. rows ≡ spec.rows_in tuples.now) (λ e. e ≡ NoMemory) }
{
    let mut rows = Items::new(alloc);
    for tuple in tuples {
        let values = expressions_in(alloc, tuple.as_slice())?;
        rows.push(ValuesRow { values })?;
    }
    Ok(rows)
}

/// The tuples turn out to be the rows of a query.
pub fn tuples_body(
    alloc: Global,
    lists: &mut Stack<BuiltTuples>,
    bodies: &mut Stack<BuiltBody>,
) -> Result<(), BuildFault>
    ensures { Gives (spec.tuples_body (lists.old, bodies.old)) result (lists.new, bodies.new) }
{
    let list = lists.pop()?;
    let rows = rows_in(alloc, list.tuples.as_slice())?;
    put_body(alloc, bodies, QueryBody::Values(rows), list.depth, list.at)
}

pub fn insert_tuples(
    targets: &mut Stack<InsertTarget>,
    lists: &mut Stack<BuiltTuples>,
    statements: &mut Stack<Stmt>,
) -> Result<(), BuildFault>
    ensures { Gives (spec.insert_tuples (targets.old, lists.old, statements.old)) result (targets.new, lists.new, statements.new) }
{
    let list = lists.pop()?;
    let target = targets.pop()?;
    statements.push(Stmt::Insert(Insert {
        table: target.table,
        columns: target.columns,
        source: InsertSource::Tuples(list.tuples),
    }))
}

pub fn insert_query(
    alloc: Global,
    targets: &mut Stack<InsertTarget>,
    queries: &mut Stack<BuiltQuery>,
    statements: &mut Stack<Stmt>,
) -> Result<(), BuildFault>
    ensures { Gives (spec.insert_query (targets.old, queries.old, statements.old)) result (targets.new, queries.new, statements.new) }
{
    let (query, _) = pop_query(alloc, queries)?;
    let target = targets.pop()?;
    statements.push(Stmt::Insert(Insert {
        table: target.table,
        columns: target.columns,
        source: InsertSource::Query(query.into_inner()),
    }))
}

// ---- UPDATE

pub fn begin_update(
    alloc: Global,
    names: &mut Stack<Identifier>,
    aliases: &mut Stack<Option<Identifier>>,
    updates: &mut Stack<Update>,
) -> Result<(), BuildFault>
    ensures { Gives (spec.begin_update (names.old, aliases.old, updates.old)) result (names.new, aliases.new, updates.new) }
{
    let alias = aliases.pop()?;
    let table = names.pop()?;
    updates.push(Update {
        table,
        alias,
        assignments: Items::new(alloc),
        filter: None,
    })
}

pub fn assign(
    names: &mut Stack<Identifier>,
    expressions: &mut Stack<Built>,
    updates: &mut Stack<Update>,
) -> Result<(), BuildFault>
    ensures { Gives (spec.assign (names.old, expressions.old, updates.old)) result (names.new, expressions.new, updates.new) }
{
    let e = expressions.pop()?;
    let column = names.pop()?;
    let mut update = updates.pop()?;
    update.assignments.push(Assignment {
        column,
        value: NewValue::Expression(e.tree.into_inner()),
    })?;
    updates.push(update)
}

pub fn assign_default(
    token: Token,
    names: &mut Stack<Identifier>,
    updates: &mut Stack<Update>,
) -> Result<(), BuildFault>
    ensures { Gives (spec.assign_default token (names.old, updates.old)) result (names.new, updates.new) }
{
    let column = names.pop()?;
    let mut update = updates.pop()?;
    update.assignments.push(Assignment {
        column,
        value: NewValue::Default(token.start),
    })?;
    updates.push(update)
}

pub fn update_statement(
    optional: &mut Stack<BuiltOptional>,
    updates: &mut Stack<Update>,
    statements: &mut Stack<Stmt>,
) -> Result<(), BuildFault>
    ensures { Gives (spec.update_statement (optional.old, updates.old, statements.old)) result (optional.new, updates.new, statements.new) }
{
    let filter = optional.pop()?;
    let update = updates.pop()?;
    statements.push(Stmt::Update(Update {
        table: update.table,
        alias: update.alias,
        assignments: update.assignments,
        filter: unboxed(filter.tree),
    }))
}

/// An expression without its box.
fn unboxed(tree: Option<Boxed<Expression>>) -> Option<Expression>
    ensures { result ≡ tree }
{
    match tree {
        Some(tree) => Some(tree.into_inner()),
        None => None,
    }
}

// ---- DELETE

pub fn begin_delete(
    names: &mut Stack<Identifier>,
    aliases: &mut Stack<Option<Identifier>>,
    deletes: &mut Stack<Delete>,
) -> Result<(), BuildFault>
    ensures { Gives (spec.begin_delete (names.old, aliases.old, deletes.old)) result (names.new, aliases.new, deletes.new) }
{
    let alias = aliases.pop()?;
    let table = names.pop()?;
    deletes.push(Delete {
        table,
        alias,
        filter: None,
    })
}

pub fn delete_statement(
    optional: &mut Stack<BuiltOptional>,
    deletes: &mut Stack<Delete>,
    statements: &mut Stack<Stmt>,
) -> Result<(), BuildFault>
    ensures { Gives (spec.delete_statement (optional.old, deletes.old, statements.old)) result (optional.new, deletes.new, statements.new) }
{
    let filter = optional.pop()?;
    let delete = deletes.pop()?;
    statements.push(Stmt::Delete(Delete {
        table: delete.table,
        alias: delete.alias,
        filter: unboxed(filter.tree),
    }))
}

// ---- LOCK TABLE

pub fn begin_lock(alloc: Global, locks: &mut Stack<Items<LockedTable>>) -> Result<(), BuildFault>
    ensures { Gives (spec.begin_lock locks.old) result locks.new }
{
    locks.push(Items::new(alloc))
}

pub fn locked(
    names: &mut Stack<Identifier>,
    locks: &mut Stack<Items<LockedTable>>,
    write: bool,
) -> Result<(), BuildFault>
    ensures { Gives (spec.locked write (names.old, locks.old)) result (names.new, locks.new) }
{
    let table = names.pop()?;
    let mut all = locks.pop()?;
    all.push(LockedTable { table, write })?;
    locks.push(all)
}

pub fn lock_statement(
    locks: &mut Stack<Items<LockedTable>>,
    statements: &mut Stack<Stmt>,
) -> Result<(), BuildFault>
    ensures { Gives (spec.lock_statement (locks.old, statements.old)) result (locks.new, statements.new) }
{
    let all = locks.pop()?;
    statements.push(Stmt::LockTable(all))
}
