// The steps of queries and of each family of statements, each by its mark.
ghost use Rattle.std.specs.Prelude.{◌≡◌, ◌+◌, ◌-◌, ◌<◌, ◌≤◌, MatchResult, MatchOption, length, slice_get, Some, None};
ghost use Rattle.hs_builder.specs.MarkSteps.{query_step, change_step, definition_step, session_step};
ghost use Rattle.hs_builder.specs.Steps.{Gives};

use crate::build_fault::BuildFault;
use crate::mark::{ChangeMark, DefinitionMark, QueryMark, SessionMark};
use crate::part::{Changes, Definitions, Expressions, Leaves, Parts, Queries};
use crate::{changes, definitions, expressions, leaves, queries, sessions};
use hs_ast::Stmt;
use hs_lexer::Token;
use std::alloc::Global;

#[tactic(auto, using(crate::proofs::Lifting::lifted))]
pub fn apply_query(
    alloc: Global,
    token: Token,
    mark: QueryMark,
    leaves: &mut Leaves,
    expressions: &mut Expressions,
    queries: &mut Queries,
) -> Result<(), BuildFault>
    ensures { Gives (query_step token mark (leaves.old, expressions.old, queries.old)) result (leaves.new, expressions.new, queries.new) }
{
    match mark {
        QueryMark::Select => queries::begin_select(
            alloc,
            &mut leaves.places,
            &mut leaves.flags,
            &mut queries.selects,
        ),
        QueryMark::Every => queries::every(token, &mut queries.selects),
        QueryMark::Item => queries::item(
            &mut leaves.aliases,
            &mut expressions.whole,
            &mut queries.selects,
        ),
        QueryMark::Table => queries::named_table(
            &mut leaves.names,
            &mut leaves.aliases,
            &mut queries.tables,
        ),
        QueryMark::Derived => queries::derived_table(
            alloc,
            &mut leaves.names,
            &mut queries.whole,
            &mut queries.tables,
        ),
        QueryMark::From => queries::begin_from(alloc, &mut queries.tables, &mut queries.froms),
        QueryMark::Join(outer) => queries::join_on(
            &mut expressions.whole,
            &mut queries.tables,
            &mut queries.froms,
            outer,
        ),
        QueryMark::CrossJoin => queries::cross_join(&mut queries.tables, &mut queries.froms),
        QueryMark::AddFrom => queries::add_from(&mut queries.froms, &mut queries.selects),
        QueryMark::Group => queries::group(&mut expressions.whole, &mut queries.selects),
        QueryMark::SelectBody => queries::select_body(
            alloc,
            &mut expressions.optional,
            &mut queries.selects,
            &mut queries.bodies,
        ),
        QueryMark::Values => queries::begin_values(alloc, token, &mut queries.rows),
        QueryMark::Row => queries::row(&mut expressions.lists, &mut queries.rows),
        QueryMark::ValuesBody => queries::values_body(
            alloc,
            &mut queries.rows,
            &mut queries.bodies,
        ),
        QueryMark::BracketBody => queries::bracket_body(&mut leaves.places, &mut queries.bodies),
        QueryMark::SetOperation(operator) => queries::set_operation(
            alloc,
            &mut queries.bodies,
            operator,
        ),
        QueryMark::Query => queries::begin_query(alloc, &mut queries.bodies, &mut queries.whole),
        QueryMark::Key(descending) => queries::key(
            &mut expressions.whole,
            &mut queries.whole,
            descending,
        ),
        QueryMark::Limit => queries::limit(&mut leaves.numbers, &mut queries.whole),
        QueryMark::Offset => queries::offset(&mut leaves.numbers, &mut queries.whole),
    }
}

#[tactic(auto, using(crate::proofs::Lifting::lifted))]
pub fn apply_change(
    alloc: Global,
    token: Token,
    mark: ChangeMark,
    parts: &mut Parts,
) -> Result<(), BuildFault>
    ensures { Gives (change_step token mark parts.old) result parts.new }
{
    match mark {
        ChangeMark::QueryStatement => changes::query_statement(
            alloc,
            &mut parts.queries.whole,
            &mut parts.statements,
        ),
        ChangeMark::Insert => changes::begin_insert(
            alloc,
            &mut parts.leaves.names,
            &mut parts.changes.targets,
        ),
        ChangeMark::InsertColumns => changes::insert_columns(
            &mut parts.leaves.places,
            &mut parts.leaves.name_lists,
            &mut parts.changes.targets,
        ),
        ChangeMark::Tuples => changes::begin_tuples(alloc, token, &mut parts.changes.tuple_lists),
        ChangeMark::Tuple => changes::begin_tuple(alloc, &mut parts.changes.tuples),
        ChangeMark::TupleValue => changes::tuple_value(
            &mut parts.expressions.whole,
            &mut parts.changes.tuples,
        ),
        ChangeMark::TupleDefault => changes::tuple_default(token, &mut parts.changes.tuples),
        ChangeMark::AddTuple => changes::add_tuple(
            &mut parts.changes.tuples,
            &mut parts.changes.tuple_lists,
        ),
        ChangeMark::TuplesBody => changes::tuples_body(
            alloc,
            &mut parts.changes.tuple_lists,
            &mut parts.queries.bodies,
        ),
        ChangeMark::InsertTuples => changes::insert_tuples(
            &mut parts.changes.targets,
            &mut parts.changes.tuple_lists,
            &mut parts.statements,
        ),
        ChangeMark::InsertQuery => changes::insert_query(
            alloc,
            &mut parts.changes.targets,
            &mut parts.queries.whole,
            &mut parts.statements,
        ),
        ChangeMark::Update => changes::begin_update(
            alloc,
            &mut parts.leaves.names,
            &mut parts.leaves.aliases,
            &mut parts.changes.updates,
        ),
        ChangeMark::Assign => changes::assign(
            &mut parts.leaves.names,
            &mut parts.expressions.whole,
            &mut parts.changes.updates,
        ),
        ChangeMark::AssignDefault => changes::assign_default(
            token,
            &mut parts.leaves.names,
            &mut parts.changes.updates,
        ),
        ChangeMark::UpdateStatement => changes::update_statement(
            &mut parts.expressions.optional,
            &mut parts.changes.updates,
            &mut parts.statements,
        ),
        ChangeMark::Delete => changes::begin_delete(
            &mut parts.leaves.names,
            &mut parts.leaves.aliases,
            &mut parts.changes.deletes,
        ),
        ChangeMark::DeleteStatement => changes::delete_statement(
            &mut parts.expressions.optional,
            &mut parts.changes.deletes,
            &mut parts.statements,
        ),
        ChangeMark::Lock => changes::begin_lock(alloc, &mut parts.changes.locks),
        ChangeMark::Locked(write) => changes::locked(
            &mut parts.leaves.names,
            &mut parts.changes.locks,
            write,
        ),
        ChangeMark::LockStatement => changes::lock_statement(
            &mut parts.changes.locks,
            &mut parts.statements,
        ),
    }
}

#[tactic(auto, using(crate::proofs::Lifting::lifted))]
pub fn apply_definition(
    alloc: Global,
    mark: DefinitionMark,
    parts: &mut Parts,
) -> Result<(), BuildFault>
    ensures { Gives (definition_step mark parts.old) result parts.new }
{
    match mark {
        DefinitionMark::Create(storage) => definitions::begin_table(
            alloc,
            &mut parts.leaves.names,
            &mut parts.definitions.tables,
            storage,
        ),
        DefinitionMark::ColumnElement => definitions::column_element(
            &mut parts.definitions.columns,
            &mut parts.definitions.tables,
        ),
        DefinitionMark::ConstraintElement => definitions::constraint_element(
            &mut parts.definitions.constraints,
            &mut parts.definitions.tables,
        ),
        DefinitionMark::CreateStatement => definitions::create_statement(
            &mut parts.definitions.tables,
            &mut parts.statements,
        ),
        DefinitionMark::CreateIndex => definitions::create_index(
            &mut parts.leaves.names,
            &mut parts.leaves.name_lists,
            &mut parts.statements,
        ),
        DefinitionMark::Define => definitions::define(
            alloc,
            &mut parts.leaves.names,
            &mut parts.leaves.types,
            &mut parts.definitions.columns,
        ),
        DefinitionMark::Default => definitions::default(
            &mut parts.leaves.literals,
            &mut parts.definitions.columns,
        ),
        DefinitionMark::Named => definitions::named(
            &mut parts.leaves.places,
            &mut parts.leaves.names,
            &mut parts.definitions.headers,
        ),
        DefinitionMark::Unnamed => definitions::unnamed(
            &mut parts.leaves.places,
            &mut parts.definitions.headers,
        ),
        DefinitionMark::NotNull => definitions::not_null(
            &mut parts.definitions.headers,
            &mut parts.definitions.columns,
        ),
        DefinitionMark::ColumnPrimary => definitions::column_primary(
            &mut parts.definitions.headers,
            &mut parts.definitions.columns,
        ),
        DefinitionMark::ColumnUnique => definitions::column_unique(
            &mut parts.definitions.headers,
            &mut parts.definitions.columns,
        ),
        DefinitionMark::ColumnCheck => definitions::column_check(
            &mut parts.expressions.whole,
            &mut parts.definitions.headers,
            &mut parts.definitions.columns,
        ),
        DefinitionMark::ColumnReferences => definitions::column_references(
            &mut parts.definitions.keys,
            &mut parts.definitions.headers,
            &mut parts.definitions.columns,
        ),
        DefinitionMark::References => definitions::references(
            alloc,
            &mut parts.leaves.names,
            &mut parts.definitions.keys,
        ),
        DefinitionMark::ParentColumns => definitions::parent_columns(
            &mut parts.leaves.name_lists,
            &mut parts.definitions.keys,
        ),
        DefinitionMark::Action(action) => parts.definitions.actions.push(action),
        DefinitionMark::OnDelete => definitions::on_delete(
            &mut parts.definitions.actions,
            &mut parts.definitions.keys,
        ),
        DefinitionMark::OnUpdate => definitions::on_update(
            &mut parts.definitions.actions,
            &mut parts.definitions.keys,
        ),
        DefinitionMark::TablePrimary => definitions::table_primary(
            &mut parts.definitions.headers,
            &mut parts.leaves.name_lists,
            &mut parts.definitions.constraints,
        ),
        DefinitionMark::TableUnique => definitions::table_unique(
            &mut parts.definitions.headers,
            &mut parts.leaves.name_lists,
            &mut parts.definitions.constraints,
        ),
        DefinitionMark::TableCheck => definitions::table_check(
            &mut parts.expressions.whole,
            &mut parts.definitions.headers,
            &mut parts.definitions.constraints,
        ),
        DefinitionMark::TableForeign => definitions::table_foreign(
            &mut parts.definitions.headers,
            &mut parts.leaves.name_lists,
            &mut parts.definitions.keys,
            &mut parts.definitions.constraints,
        ),
        DefinitionMark::AddColumn => definitions::add_column(
            &mut parts.leaves.names,
            &mut parts.definitions.columns,
            &mut parts.statements,
        ),
        DefinitionMark::AddConstraint => definitions::add_constraint(
            &mut parts.leaves.names,
            &mut parts.definitions.constraints,
            &mut parts.statements,
        ),
        DefinitionMark::DropConstraint => definitions::drop_constraint(
            &mut parts.leaves.names,
            &mut parts.statements,
        ),
        DefinitionMark::DropTable => definitions::drop_table(
            &mut parts.leaves.names,
            &mut parts.statements,
        ),
        DefinitionMark::DropIndex => definitions::drop_index(
            &mut parts.leaves.names,
            &mut parts.statements,
        ),
    }
}

#[tactic(auto, using(crate::proofs::Lifting::lifted))]
pub fn apply_session(mark: SessionMark, parts: &mut Parts) -> Result<(), BuildFault>
    ensures { Gives (session_step mark parts.old) result parts.new }
{
    match mark {
        SessionMark::Modes => sessions::begin_modes(&mut parts.modes),
        SessionMark::Level(isolation) => sessions::level(&mut parts.modes, isolation),
        SessionMark::Access(access) => sessions::access(&mut parts.modes, access),
        SessionMark::SetTransaction => sessions::set_transaction(
            &mut parts.modes,
            &mut parts.statements,
        ),
        SessionMark::SetCharacteristics => sessions::set_characteristics(
            &mut parts.modes,
            &mut parts.statements,
        ),
        SessionMark::Start => sessions::start(&mut parts.modes, &mut parts.statements),
        SessionMark::Commit => sessions::commit(&mut parts.statements),
        SessionMark::Rollback => sessions::rollback(&mut parts.statements),
        SessionMark::Savepoint => sessions::savepoint(
            &mut parts.leaves.names,
            &mut parts.statements,
        ),
        SessionMark::RollbackTo => sessions::rollback_to(
            &mut parts.leaves.names,
            &mut parts.statements,
        ),
        SessionMark::Release => sessions::release(&mut parts.leaves.names, &mut parts.statements),
        SessionMark::Autocommit(on) => sessions::autocommit(&mut parts.statements, on),
        SessionMark::Control(control) => sessions::control(&mut parts.statements, control),
        SessionMark::DefaultLevel(isolation) => sessions::default_level(
            &mut parts.statements,
            isolation,
        ),
        SessionMark::WriteDelayFalse => sessions::write_delay_false(&mut parts.statements),
        SessionMark::Checkpoint => sessions::checkpoint(&mut parts.statements),
        SessionMark::Shutdown => sessions::shutdown(&mut parts.statements),
    }
}
