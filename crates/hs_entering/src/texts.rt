// Whether a definition has a text.
ghost use Rattle.std.specs.Prelude.{◌++◌, ◌∷◌, [], IfOk};
ghost use Rattle.hs_committext.specs.Definitions as definitions;
ghost use Rattle.hs_entering.specs.Defaults.{HasLawfulDefaults};
ghost use Rattle.hs_tabletext.specs.Constraints as lines;
ghost use Rattle.hs_logged.specs.Entered.{Decides};
ghost use Rattle.hs_tabletext.specs.Rules as rules;
ghost use Rattle.hs_shorttext.specs.Tables as tables;

use crate::columns::with_column;
use hs_base::NoMemory;
use hs_plan::{Column, Constraint, Definition, Rule};
use hs_schema::Catalog;
use hs_shorttext::columns_of;
use hs_wording::CheckTexts;
use std::alloc::Global;

// Whether the condition of a CHECK has a text. Other rules have none.
fn rule_has_text<C: CheckTexts>(
    alloc: Global,
    rule: &Rule,
    columns: &[Column],
    conditions: &C,
) -> Result<bool, NoMemory>
    ensures { IfOk result (Decides (rules.IsPrintable (C.wording conditions.now) columns.now rule.now)) }
{
    match rule {
        Rule::Check(condition) => conditions.has_text(alloc, condition, columns),
        Rule::NotNull(_) => Ok(true),
        Rule::PrimaryKey(_) => Ok(true),
        Rule::Unique(_) => Ok(true),
        Rule::ForeignKey(_) => Ok(true),
        Rule::Index(_) => Ok(true),
    }
}

// Whether those of all constraints have texts.
fn all_have_texts<C: CheckTexts>(
    alloc: Global,
    constraints: &[Constraint],
    columns: &[Column],
    conditions: &C,
) -> Result<bool, NoMemory>
    ensures { IfOk result (Decides (lines.ArePrintable (C.wording conditions.now) columns.now constraints.now)) }
{
    for constraint in constraints {
        let has_one = rule_has_text(alloc, &constraint.rule, columns, conditions)?;
        if !has_one {
            return Ok(false);
        }
    }
    Ok(true)
}

// The same of a column that the catalogue's table of this name gets.
fn added_have_texts<C: CheckTexts>(
    alloc: Global,
    table: &str,
    column: &Column,
    constraints: &[Constraint],
    catalog: &Catalog,
    conditions: &C,
) -> Result<bool, NoMemory>
    ensures { IfOk result (Decides (lines.ArePrintable (C.wording conditions.now) (tables.columns_of catalog.now table.now ++ column.now ∷ []) constraints.now)) }
{
    let columns = with_column(alloc, columns_of(catalog, table), column)?;
    all_have_texts(alloc, constraints, columns.as_slice(), conditions)
}

/// Whether the conditions of the CHECKs that a definition makes have texts, beside this catalogue, which is as it was before it. The
/// values behind DEFAULT are lawful, so that all that it has can be written then. An `Err` is want of memory.
pub fn has_text<C: CheckTexts>(
    alloc: Global,
    definition: &Definition,
    catalog: &Catalog,
    conditions: &C,
) -> Result<bool, NoMemory>
    requires { HasLawfulDefaults definition.now }
    ensures { IfOk result (Decides (definitions.IsPrintable (C.wording conditions.now) catalog.now definition.now)) }
{
    match definition {
        Definition::CreateTable {
            columns,
            constraints,
            ..
        } => all_have_texts(
            alloc,
            constraints.as_slice(),
            columns.as_slice(),
            conditions,
        ),
        Definition::AddColumn {
            table,
            column,
            constraints,
        } => added_have_texts(
            alloc,
            table.as_str(),
            column,
            constraints.as_slice(),
            catalog,
            conditions,
        ),
        Definition::AddConstraint { table, constraint } => rule_has_text(
            alloc,
            &constraint.rule,
            columns_of(catalog, table.as_str()),
            conditions,
        ),
        Definition::DropTable(_) => Ok(true),
        Definition::DropConstraint { .. } => Ok(true),
        Definition::CreateIndex { .. } => Ok(true),
        Definition::DropIndex(_) => Ok(true),
        Definition::SetControl(_) => Ok(true),
        Definition::SetDefaultLevel { .. } => Ok(true),
    }
}
