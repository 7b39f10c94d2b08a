// What a statement touches.
ghost use Rattle.std.specs.Prelude.{◌≡◌, IfOk};
ghost use Rattle.hs_turns.specs.Database.{Database};
ghost use Rattle.hs_language.specs.Outcomes as language;
ghost use Rattle.hs_language.specs.Reading.{Reading, TellsTables};
ghost use Rattle.hs_turns.specs.Dialect as dialect;
ghost use Rattle.hs_outcome.specs.Given.{foot_of};
ghost use Rattle.hs_outcome.specs.Same.{ListsAscending, TellTheSame};

use crate::given::Given;
use hs_base::{NoMemory, RowNames, Tables};
use hs_cascade::RowsBefore;
use hs_claims::{Footprint, KeyNames};
use hs_footprint::footprint;
use hs_plan::{Changes, Plan};
use hs_schema::Catalog;
use std::alloc::Global;

fn untouched(alloc: Global) -> Footprint
    ensures { result ≡ dialect.untouched }
{
    Footprint {
        reads: Tables::new(alloc),
        writes: Tables::new(alloc),
        rows: RowNames::new(alloc),
        keys: KeyNames::new(alloc),
        parents: KeyNames::new(alloc),
    }
}

// What a statement touches that changes nothing.
fn of_tables<B: RowsBefore>(
    alloc: Global,
    cat: &Catalog,
    before: &B,
    plan: &Plan,
) -> Result<Footprint, NoMemory>
    ensures same { (r : Reading) → TellsTables r → (db : Database) → db.things ≡ cat.now → db.rows ≡ B.maps before.now → IfOk result (λ foot. TellTheSame foot (language.of_tables r db plan.now)) }
    ensures exact { (r : Reading) → TellsTables r → ListsAscending r → (db : Database) → db.things ≡ cat.now → db.rows ≡ B.maps before.now → IfOk result (λ foot. foot ≡ language.of_tables r db plan.now) }
{
    let none = Changes::new(alloc);
    footprint(alloc, cat, before, plan, &none)
}

/// What a bound statement touches that gives this over these rows: the tables that it reads and those that it writes,
/// in ascending order, and what its changes touch. Where it has a fault, and where a constraint refuses its changes,
/// it touches that nevertheless. An `Err` is want of memory.
pub fn touched<B: RowsBefore>(
    alloc: Global,
    cat: &Catalog,
    before: &B,
    plan: &Plan,
    given: &Given,
) -> Result<Footprint, NoMemory>
    ensures same { (r : Reading) → TellsTables r → (db : Database) → db.things ≡ cat.now → db.rows ≡ B.maps before.now → IfOk result (λ foot. TellTheSame foot (foot_of r db plan.now given.now)) }
    ensures exact { (r : Reading) → TellsTables r → ListsAscending r → (db : Database) → db.things ≡ cat.now → db.rows ≡ B.maps before.now → IfOk result (λ foot. foot ≡ foot_of r db plan.now given.now) }
{
    match given {
        Given::Changes(changes, _) => footprint(alloc, cat, before, plan, changes),
        Given::Nothing => Ok(untouched(alloc)),
        Given::Rows(_) => of_tables(alloc, cat, before, plan),
        Given::Locked => of_tables(alloc, cat, before, plan),
        Given::Fault(_) => of_tables(alloc, cat, before, plan),
    }
}
