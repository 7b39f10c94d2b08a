// Every statement.
ghost use Rattle.hs_statements.specs.Statements.{AnswersStatement};

use crate::plans::{defined, deleted, inserted, locked, queried, updated};
use crate::session::{name_of, said, set_control, set_level};
use hs_ast::Stmt;
use hs_binding::Binder;
use hs_drops::{bind_create_index, bind_drop_index, bind_drop_table};
use hs_plan::{BindFault, Plan, SessionStatement};
use hs_schema::Catalog;
use hs_tables::{bind_alter_table, bind_create_table};
use hs_writing::{bind_delete, bind_insert, bind_lock_table, bind_query, bind_update};
use std::alloc::Global;

/// What a statement means over a catalogue, or its least fault: the first by class, and in a class the first by place.
/// `NoSuch`, `Exists`, `Ambiguous`, `Types`, `Count` and `Limit` come as the statement's own rules and those of its expressions
/// and queries have them. A statement about sessions, transactions or files has no fault.
pub fn bind_statement<B: Binder>(
    binder: &B,
    catalog: &Catalog,
    statement: &Stmt,
    alloc: Global,
) -> Result<Plan, BindFault>
    ensures { AnswersStatement catalog.now statement.now result }
{
    match statement {
        Stmt::Query(q) => queried(bind_query(binder, catalog, q, alloc)),
        Stmt::Insert(i) => inserted(bind_insert(binder, catalog, i, alloc)),
        Stmt::Update(u) => updated(bind_update(binder, catalog, u, alloc)),
        Stmt::Delete(d) => deleted(bind_delete(binder, catalog, d, alloc)),
        Stmt::LockTable(l) => locked(bind_lock_table(catalog, l.as_slice(), alloc)),
        Stmt::CreateTable(c) => defined(bind_create_table(binder, catalog, c, alloc)),
        Stmt::CreateIndex(c) => defined(bind_create_index(catalog, c, alloc)),
        Stmt::AlterTable(a) => defined(bind_alter_table(binder, catalog, a, alloc)),
        Stmt::DropTable(name) => defined(bind_drop_table(catalog, name, alloc)),
        Stmt::DropIndex(name) => defined(bind_drop_index(catalog, name, alloc)),
        Stmt::SetControl(control) => set_control(*control),
        Stmt::SetDefaultLevel(isolation) => set_level(*isolation),
        Stmt::SetAutocommit(on) => said(SessionStatement::SetAutocommit(*on)),
        Stmt::SetCharacteristics(modes) => said(SessionStatement::SetCharacteristics(*modes)),
        Stmt::SetTransaction(modes) => said(SessionStatement::SetTransaction(*modes)),
        Stmt::StartTransaction(modes) => said(SessionStatement::StartTransaction(*modes)),
        Stmt::Commit => said(SessionStatement::Commit),
        Stmt::Rollback => said(SessionStatement::Rollback),
        Stmt::Savepoint(name) => said(SessionStatement::Savepoint(name_of(name, alloc)?)),
        Stmt::RollbackTo(name) => said(SessionStatement::RollbackTo(name_of(name, alloc)?)),
        Stmt::ReleaseSavepoint(name) => {
            said(SessionStatement::ReleaseSavepoint(name_of(name, alloc)?))
        }
        Stmt::WriteDelayFalse => said(SessionStatement::WriteDelayFalse),
        Stmt::Checkpoint => said(SessionStatement::Checkpoint),
        Stmt::Shutdown => said(SessionStatement::Shutdown),
    }
}
