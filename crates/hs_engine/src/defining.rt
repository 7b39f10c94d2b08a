// What definitions define.
ghost use Rattle.std.specs.Prelude.{◌≡◌, ◌+◌, ◌^◌, ◌≤◌, [], List, Err, true, IfOk};
ghost use Rattle.hs_asking.specs.Asking.{IsStatement};
ghost use Rattle.hs_turns.specs.Database.{Database};
ghost use Rattle.hs_turns.specs.Histories.{Commit};
ghost use Rattle.hs_instance.specs.Instance.{IsInstance};
ghost use Rattle.hs_language.specs.Sql.{definition_in};
ghost use Rattle.hs_plan.specs.declared.definition.Definition.{Definition as TheDefinition};
ghost use Rattle.hs_plan.specs.declared.plan.Plan.TheVariants as plans;
ghost use Rattle.hs_queue.specs.Entries.{entry_of};
ghost use Rattle.hs_schema.specs.Catalogue.{IsBound, IsNext};
ghost use Rattle.hs_schema.specs.Whole.{IsWhole};
ghost use Rattle.hs_seams.specs.Calls.{IsEntry};
ghost use Rattle.hs_seams.specs.Stores.{present};
ghost use Rattle.hs_seams.specs.World.{World};
ghost use Rattle.hs_engine.specs.Store.{IsHere, IsValid, SpeaksSql};

use hs_asking::meant;
use hs_ast::Stmt;
use hs_base::NoMemory;
use hs_instance::Instance;
use hs_plan::{Definition, Plan};
use hs_queue::Entry;
use hs_redefining::judge;
use hs_values::Chars;
use std::alloc::Global;

// A statement that is no definition defines nothing.
fn nothing<T: Drop>(alloc: Global, _statement: T) -> Result<Result<Definition, Chars>, NoMemory>
    ensures { IfOk result (λ answer. answer ≡ Err []) }
{
    Ok(Err(Chars::new(alloc)))
}

// What a bound statement defines, or why it is refused.
fn judged(instance: &Instance, plan: Plan) -> Result<Result<Definition, Chars>, NoMemory>
    requires count { instance.now.count ≤ 2 ^ 48 }
    requires bound { (definition : TheDefinition) → plan ≡ plans.Define definition → IsBound instance.now.catalog definition }
    requires next { (definition : TheDefinition) → IsNext instance.now.catalog definition (instance.now.count + 1) }
    ensures { (db : Database) → IsInstance db [] instance.now → IsWhole db.things → IfOk result (λ answer. answer ≡ definition_in db plan) }
{
    match plan {
        Plan::Define(definition) => judge(
            &instance.catalog,
            &instance.seated.rows,
            instance.count,
            definition,
        ),
        Plan::Query(query) => nothing(instance.alloc, query),
        Plan::Insert(insert) => nothing(instance.alloc, insert),
        Plan::Update(update) => nothing(instance.alloc, update),
        Plan::Delete(delete) => nothing(instance.alloc, delete),
        Plan::LockTable(locked) => nothing(instance.alloc, locked),
        Plan::Session(statement) => nothing(instance.alloc, statement),
    }
}

/// What the definition of an entry defines over a database on which no changes of a transaction are, or why it is
/// refused. An `Err` is want of memory.
pub(crate) fn definition(
    instance: &Instance,
    entry: &Entry,
    statement: &Stmt,
) -> Result<Result<Definition, Chars>, NoMemory>
    requires valid { IsValid instance.now }
    requires entry { IsEntry entry.now }
    requires tree { IsStatement statement.now (entry_of entry.now).text }
    ensures { (w : World) (commits : List Commit) → SpeaksSql w → IsHere instance.now w commits [] → w.run.dialect.is_valid (present w commits) ≡ true
        → IfOk result (λ answer. answer ≡ w.run.dialect.definition (present w commits) (entry_of entry.now).text) }
{
    let answer = meant(&instance.catalog, entry, statement)?;
    match answer {
        Ok(plan) => judged(instance, plan),
        Err(why) => Ok(Err(why)),
    }
}
