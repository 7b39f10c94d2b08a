// SQL as the store of an engine.
use crate::committing::committed;
use crate::counting::has_room;
use crate::defining::definition;
use crate::evaluating::evaluated;
use crate::refusing::{printed, refusal};
use crate::seating::{advance, back};
use hs_asking::asked;
use hs_ast::{Isolation, Stmt};
use hs_base::{NoMemory, SessionNo};
use hs_claims::ControlKind;
use hs_entering::settle_definition;
use hs_instance::{Restoring, kind_of};
use hs_log::Batch;
use hs_logged::Logbook;
use hs_plan::{Changes, Definition};
use hs_queue::Entry;
use hs_seams::{Asked, Outcome, Store};
use hs_values::{Chars, Name};
use hs_wording::CheckTexts;

/// A database in memory with the changes of a transaction on it, the log behind its commits, and what writes the
/// conditions of CHECKs there.
#[derive(Drop)]
pub struct SqlStore<C> {
    pub database: Restoring,
    pub logbook: Logbook,
    pub conditions: C,
}

impl<C: CheckTexts + Copy> Store for SqlStore<C> {
    ghost use Rattle.hs_asking.specs.Asking.{IsStatement};
    ghost use Rattle.hs_engine.specs.Store.{Stands};

    ghost stands = { λ s w commits seated. Stands (C.wording s.conditions) s.database.instance s.logbook w commits seated };

    ghost is_read = { λ statement text. IsStatement statement text };

    fn control(&self) -> ControlKind {
        kind_of(self.database.instance.control)
    }

    fn level(&self) -> Isolation {
        self.database.instance.level
    }

    fn has_room(&self, count: usize) -> bool {
        has_room(self.database.instance.count, count)
    }

    fn printed_name(&self, name: &Name) -> Result<Chars, NoMemory> {
        printed(self.database.instance.alloc, name)
    }

    fn read(&self, entry: &Entry) -> Result<Asked, NoMemory> {
        asked(self.database.instance.alloc, entry)
    }

    fn refusal(
        &self,
        entry: &Entry,
        statement: &Stmt,
        read_only: bool,
    ) -> Result<Option<Chars>, NoMemory> {
        refusal(&self.database.instance.catalog, entry, statement, read_only)
    }

    fn evaluate(
        &mut self,
        entry: &Entry,
        statement: &Stmt,
        read_only: bool,
    ) -> Result<Result<Outcome, Chars>, NoMemory> {
        evaluated(&mut self.database.instance, entry, statement, read_only)
    }

    fn back(&mut self, len: usize) -> Result<(), NoMemory> {
        back(&mut self.database.instance, len)
    }

    fn advance(&mut self, changes: &Changes) -> Result<(), NoMemory> {
        advance(&mut self.database.instance, changes)
    }

    fn commit(
        &mut self,
        session: SessionNo,
        changes: &Changes,
        made: &mut Batch,
    ) -> Result<bool, NoMemory> {
        committed(
            &mut self.database,
            &mut self.logbook,
            &self.conditions,
            session,
            changes,
            made,
        )
    }

    fn definition(
        &self,
        entry: &Entry,
        statement: &Stmt,
    ) -> Result<Result<Definition, Chars>, NoMemory> {
        definition(&self.database.instance, entry, statement)
    }

    fn define(
        &mut self,
        session: SessionNo,
        definition: Definition,
        made: &mut Batch,
    ) -> Result<bool, NoMemory> {
        let alloc = self.database.instance.alloc;
        settle_definition(
            alloc,
            session,
            definition,
            &self.conditions,
            &mut self.database,
            &mut self.logbook,
            made,
        )
    }

    fn copy(&self) -> Result<SqlStore<C>, NoMemory> {
        Ok(SqlStore {
            database: self.database.copy()?,
            logbook: self.logbook,
            conditions: self.conditions,
        })
    }

    ghost world = { λ s w commits seated stands. stands.world.world };
}
