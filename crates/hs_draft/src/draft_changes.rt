// The rows that were changed in a draft.
ghost use Rattle.std.specs.Prelude.{◌≡◌, Ok, Err, MatchResult};
ghost use Rattle.hs_rel.specs.declared.stop.EvalStop.TheVariants.{Fault};
ghost use Rattle.hs_values.specs.declared.fault.EvalFault.TheVariants as fault;

use crate::check::Check;
use crate::draft::Draft;
use crate::parent::{parent_number, parents};
use crate::questions::{Double, Failed, Gap, Missed, Orphan};
use hs_base::{NoMemory, TableNo};
use hs_constraints::ChangedRows;
use hs_plan::{Expr, ForeignKey};
use hs_rel::EvalStop;
use hs_schema::Catalog;
use hs_values::EvalFault;

/// The rows that were changed in a draft, with the catalogue of its tables and what evaluates CHECKs.
#[derive(Drop)]
pub struct DraftChanges<'a, C> {
    pub catalog: &'a Catalog,
    pub draft: &'a Draft,
    pub checks: &'a C,
}

impl<C: Check> ChangedRows for DraftChanges<'_, C> {
    ghost use Rattle.std.specs.Prelude.{⊤};
    ghost use Rattle.hs_draft.specs.Drafted.{after, before, touched};

    ghost ready = { λ s. ⊤ };

    ghost tells = { λ s. ⊤ };

    ghost changed = { λ s. record { checks = C.checks s.checks.now; things = s.catalog.now; touched = touched s.draft.now; before = before s.draft.now; after = after s.draft.now } };

    ghost disk_faults = { λ s. 0 };

    ghost is_no_page = { λ s page. ⊥ };

    ghost asked = { λ stop a b. ⊤ };

    fn has_gap(&mut self, table: TableNo, columns: &[u32]) -> Result<bool, EvalStop> {
        told(self.draft.any_touched(table, &Gap { columns }))
    }

    fn has_double(&mut self, table: TableNo, columns: &[u32]) -> Result<bool, EvalStop> {
        let rows = self.draft.rows(table);
        told(self.draft.any_touched(table, &Double { rows, columns }))
    }

    fn has_failed(&mut self, table: TableNo, condition: &Expr) -> Result<bool, EvalStop> {
        let checks = self.checks;
        told(self.draft.any_touched(table, &Failed { checks, condition }))
    }

    fn has_orphan(&mut self, table: TableNo, key: &ForeignKey) -> Result<bool, EvalStop> {
        let orphan = Orphan {
            columns: key.columns.as_slice(),
            parent_columns: key.parent_columns.as_slice(),
            parents: parents(self.draft, self.catalog, key),
        };
        told(self.draft.any_touched(table, &orphan))
    }

    fn has_left(&mut self, table: TableNo, key: &ForeignKey) -> Result<bool, EvalStop> {
        let Some(parent) = parent_number(self.catalog, key) else {
            return Ok(false);
        };
        let missed = Missed {
            columns: key.columns.as_slice(),
            parent_columns: key.parent_columns.as_slice(),
            parents: self.draft.rows(parent),
            children: self.draft.rows(table),
        };
        told(self.draft.any_old(parent, &missed))
    }

    ghost not_asked = { λ a. tt };

    ghost asked_on = { λ stop a b c ab bc. tt };

    ghost tells_on = { λ a b ab told. tt };
}

// The same answer, want of memory among the stops.
fn told(answer: Result<bool, NoMemory>) -> Result<bool, EvalStop>
    ensures { MatchResult answer (λ is. result ≡ Ok is) (λ _. result ≡ Err (Fault fault.NoMemory)) }
{
    match answer {
        Ok(is) => Ok(is),
        Err(NoMemory) => Err(EvalStop::Fault(EvalFault::NoMemory)),
    }
}
