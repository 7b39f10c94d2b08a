// SQL as the database of a run.
use crate::store::SqlStore;
use hs_base::NoMemory;
use hs_conditions::Checks;
use hs_instance::{Instance, Restoring};
use hs_logged::{Logbook, Replay};
use hs_program::Engine;
use hs_resolve::Resolver;
use hs_scheduler::Scheduler;
use hs_transactions::Transactions;
use hs_values::Name;
use std::alloc::{AllocError, Global};

// The most bytes that a log may have.
const MOST_BYTES: u64 = 0x4000_0000;

// What writes and reads the conditions of CHECKs.
const CHECKS: Checks<Resolver> = Checks { binder: Resolver };

/// A database of SQL, as the commits of a log left it.
#[derive(Drop)]
pub struct SqlEngine {
    pub replay: Replay<Restoring>,
    /// How many commits were made.
    pub commits: u64,
    pub alloc: Global,
}

impl Engine for SqlEngine {
    ghost use Rattle.hs_engine.specs.Standing.{Stands, sql_meaning};
    ghost use Rattle.hs_engine.specs.Lawful.{sql_lawful};

    type Work = Scheduler<Transactions<SqlStore<Checks<Resolver>>>>;

    ghost meaning = { sql_meaning };

    ghost stands_for = { Stands };

    fn new(alloc: Global) -> Self {
        let instance = Instance::new(alloc);
        SqlEngine {
            replay: Replay {
                database: Restoring { instance },
                last: None,
            },
            commits: 0,
            alloc,
        }
    }

    fn last(&self) -> Option<u32> {
        match self.replay.last {
            Some(session) => Some(session.0),
            None => None,
        }
    }

    fn redo(&mut self, text: &[u8]) -> Result<bool, AllocError> {
        match self.replay.redo(text, &CHECKS) {
            Ok(made) => {
                self.commits += 1;
                Ok(made)
            }
            Err(NoMemory) => Err(AllocError),
        }
    }

    fn judge(&self) -> Result<Option<Name>, AllocError> {
        match self.replay.database.instance.violated() {
            Ok(name) => Ok(name),
            Err(NoMemory) => Err(AllocError),
        }
    }

    fn turns(self, size: u64) -> Self::Work {
        let logbook = Logbook {
            last: self.replay.last,
            size,
            limit: MOST_BYTES,
        };
        let store = SqlStore {
            database: self.replay.database,
            logbook,
            conditions: CHECKS,
        };
        let transactions = Transactions::new(self.alloc, store, self.commits);
        Scheduler::new(transactions, self.alloc)
    }

    ghost lawful = { sql_lawful };
}
