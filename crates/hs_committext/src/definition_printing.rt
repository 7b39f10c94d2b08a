// Definitions as they are written.
ghost use Rattle.std.specs.Prelude.{◌≡◌, ◌++◌, OnOk};
ghost use Rattle.hs_columntext.specs.Columns as defaults;
ghost use Rattle.hs_tabletext.specs.Constraints.{ArePrintable};
ghost use Rattle.hs_tabletext.specs.Tables.{owner_of, table_text};
ghost use Rattle.hs_committext.specs.Definitions.{definition_text, IsPrintable};

use hs_alterationtext::{print_add_column, print_add_constraint, print_drop_constraint};
use hs_base::NoMemory;
use hs_keytext::Owner;
use hs_plan::{Column, Constraint, Definition, Storage};
use hs_schema::Catalog;
use hs_shorttext::{
    print_control, print_dropped_index, print_dropped_table, print_index, print_level,
};
use hs_tabletext::{Conditions, print_table};
use hs_values::Chars;
use std::alloc::Global;

/// Adds the lines of a table of this name that is made.
fn print_created<C: Conditions>(
    alloc: Global,
    storage: Storage,
    name: &str,
    columns: &[Column],
    constraints: &[Constraint],
    catalog: &Catalog,
    conditions: &C,
    out: &mut Chars,
) -> Result<(), NoMemory>
    requires columns { defaults.ArePrintable columns.now }
    requires constraints { ArePrintable (C.wording conditions.now) columns.now constraints.now }
    ensures { OnOk result (out.new ≡ out.old ++ table_text (C.wording conditions.now) (owner_of catalog.now name.now columns.now) storage constraints.now) }
{
    let owner = Owner {
        name,
        columns,
        catalog,
    };
    print_table(alloc, storage, constraints, &owner, conditions, out)
}

/// Adds the canonical text of a definition beside this catalogue, which is as it was before: its line, or its lines with line
/// feeds between, and no end behind the last one. The values behind DEFAULT are lawful, and the conditions of CHECKs have
/// texts. An `Err` is want of memory, and then a part of the text may be there.
pub fn print_definition<C: Conditions>(
    alloc: Global,
    definition: &Definition,
    catalog: &Catalog,
    conditions: &C,
    out: &mut Chars,
) -> Result<(), NoMemory>
    requires { IsPrintable (C.wording conditions.now) catalog.now definition.now }
    ensures { OnOk result (out.new ≡ out.old ++ definition_text (C.wording conditions.now) catalog.now definition.now) }
{
    match definition {
        Definition::CreateTable {
            storage,
            name,
            columns,
            constraints,
        } => print_created(
            alloc,
            *storage,
            name.as_str(),
            columns.as_slice(),
            constraints.as_slice(),
            catalog,
            conditions,
            out,
        ),
        Definition::DropTable(name) => print_dropped_table(name.as_str(), out),
        Definition::AddColumn {
            table,
            column,
            constraints,
        } => print_add_column(
            alloc,
            table.as_str(),
            column,
            constraints.as_slice(),
            catalog,
            conditions,
            out,
        ),
        Definition::AddConstraint { table, constraint } => {
            print_add_constraint(alloc, table.as_str(), constraint, catalog, conditions, out)
        }
        Definition::DropConstraint { table, name } => {
            print_drop_constraint(table.as_str(), name.as_str(), out)
        }
        Definition::CreateIndex {
            table,
            name,
            columns,
        } => print_index(
            name.as_str(),
            table.as_str(),
            columns.as_slice(),
            catalog,
            out,
        ),
        Definition::DropIndex(name) => print_dropped_index(name.as_str(), out),
        Definition::SetControl(control) => print_control(*control, out),
        Definition::SetDefaultLevel { serializable } => print_level(*serializable, out),
    }
}
