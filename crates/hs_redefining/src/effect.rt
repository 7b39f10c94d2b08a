// What a definition makes of rows.
ghost use Rattle.std.specs.Prelude.{◌≡◌, ℕ, List, IfOk};
ghost use Rattle.hs_turns.specs.Definitions.{default_value};
ghost use Rattle.hs_plan.specs.declared.definition.Constraint.{Constraint as TheConstraint};
ghost use Rattle.hs_plan.specs.declared.definition.Definition.TheVariants as d;
ghost use Rattle.hs_redefining.specs.Effects.{IsEffect};

use crate::tables::number_of;
use hs_base::{NoMemory, TableNo};
use hs_plan::{Column, Definition};
use hs_schema::Catalog;
use hs_values::{Name, Value};

/// What a definition makes of rows.
#[derive(Drop)]
pub(crate) enum Effect {
    /// Nothing.
    Nothing,
    /// A table has no rows then.
    Clears(TableNo),
    /// Each row of a table gets this value behind its others.
    Lengthens(TableNo, Value),
}

// The default of a column, NULL where it has none.
fn default_of(column: &Column) -> Result<Value, NoMemory>
    ensures { IfOk result (λ value. value ≡ default_value column.now) }
{
    match &column.default {
        Some(value) => Ok(value.copy()?),
        None => Ok(Value::Null),
    }
}

fn dropping(cat: &Catalog, name: &Name) -> Effect
    ensures { (number : ℕ) → IsEffect cat.now (d.DropTable name.now) number result }
{
    match number_of(cat, name.as_str()) {
        Some(table) => Effect::Clears(table),
        None => Effect::Nothing,
    }
}

fn adding(cat: &Catalog, table: &Name, column: &Column) -> Result<Effect, NoMemory>
    ensures { (number : ℕ) (constraints : List TheConstraint) → IfOk result (IsEffect cat.now (d.AddColumn table.now column.now constraints) number) }
{
    let value = default_of(column)?;
    match number_of(cat, table.as_str()) {
        Some(own) => Ok(Effect::Lengthens(own, value)),
        None => Ok(Effect::Nothing),
    }
}

/// What a definition with this change number makes of the rows of a database with this catalogue. An `Err` is want of
/// memory.
pub(crate) fn effect_of(
    cat: &Catalog,
    definition: &Definition,
    number: u64,
) -> Result<Effect, NoMemory>
    ensures { IfOk result (IsEffect cat.now definition.now number) }
{
    match definition {
        Definition::CreateTable { .. } => Ok(Effect::Clears(TableNo(number))),
        Definition::DropTable(name) => Ok(dropping(cat, name)),
        Definition::AddColumn { table, column, .. } => adding(cat, table, column),
        Definition::AddConstraint { .. } => Ok(Effect::Nothing),
        Definition::DropConstraint { .. } => Ok(Effect::Nothing),
        Definition::CreateIndex { .. } => Ok(Effect::Nothing),
        Definition::DropIndex(_) => Ok(Effect::Nothing),
        Definition::SetControl(_) => Ok(Effect::Nothing),
        Definition::SetDefaultLevel { .. } => Ok(Effect::Nothing),
    }
}
