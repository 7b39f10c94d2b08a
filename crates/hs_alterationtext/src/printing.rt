// Lines of ALTER TABLE as they are written.
ghost use Rattle.std.specs.Prelude.{◌≡◌, ◌++◌, ◌∷◌, [], codes, OnOk};
ghost use Rattle.hs_columntext.specs.Columns as columns;
ghost use Rattle.hs_tabletext.specs.Constraints.{ArePrintable};
ghost use Rattle.hs_nametext.specs.Names.{name_text};
ghost use Rattle.hs_tabletext.specs.Rules as rules;
ghost use Rattle.hs_shorttext.specs.Tables as tables;
ghost use Rattle.hs_alterationtext.specs.Alterations.{adding, alter_text};
ghost use Rattle.hs_alterationtext.specs.declared.alteration.Alteration.TheVariants as a;

use hs_base::NoMemory;
use hs_keytext::Owner;
use hs_nametext::print_name;
use hs_plan::{Column, Constraint};
use hs_schema::Catalog;
use hs_shorttext::columns_of;
use hs_tabletext::{Conditions, print_added_column, print_constraint};
use hs_values::Chars;
use std::alloc::Global;

/// Adds what stands before and behind the table's name.
fn print_front(table: &str, what: &str, out: &mut Chars) -> Result<(), NoMemory>
    ensures { OnOk result (out.new ≡ out.old ++ (codes "ALTER TABLE " ++ (name_text table.now ++ what.now))) }
{
    out.push_text("ALTER TABLE ")?;
    print_name(table, out)?;
    Ok(out.push_text(what)?)
}

/// Adds the line `ALTER TABLE T ADD COLUMN ..` of a column that is added to the catalogue's table of this name, and behind it
/// the lines of the column's constraints, each behind a line feed. Where there is no such table it has no columns. The value
/// behind DEFAULT is lawful, and the conditions of CHECKs have texts. An `Err` is want of memory, and then a part of the text
/// may be there.
pub fn print_add_column<C: Conditions>(
    alloc: Global,
    table: &str,
    column: &Column,
    constraints: &[Constraint],
    catalog: &Catalog,
    conditions: &C,
    out: &mut Chars,
) -> Result<(), NoMemory>
    requires column { columns.IsPrintable column.now.default }
    requires constraints { ArePrintable (C.wording conditions.now) (tables.columns_of catalog.now table.now ++ column.now ∷ []) constraints.now }
    ensures { OnOk result (out.new ≡ out.old ++ alter_text (C.wording conditions.now) catalog.now table.now (adding column.now constraints.now)) }
{
    print_front(table, " ADD COLUMN ", out)?;
    let owner = Owner {
        name: table,
        columns: columns_of(catalog, table),
        catalog,
    };
    print_added_column(alloc, column, constraints, &owner, conditions, out)
}

/// Adds the line `ALTER TABLE T ADD CONSTRAINT N ..` of a constraint that is added to the catalogue's table of this name. Where
/// there is no such table it has no columns. The condition of a CHECK has a text. An `Err` is want of memory, and then a part
/// of the line may be there.
pub fn print_add_constraint<C: Conditions>(
    alloc: Global,
    table: &str,
    constraint: &Constraint,
    catalog: &Catalog,
    conditions: &C,
    out: &mut Chars,
) -> Result<(), NoMemory>
    requires { rules.IsPrintable (C.wording conditions.now) (tables.columns_of catalog.now table.now) constraint.now.rule }
    ensures { OnOk result (out.new ≡ out.old ++ alter_text (C.wording conditions.now) catalog.now table.now (a.AddConstraint constraint.now)) }
{
    print_front(table, " ADD CONSTRAINT ", out)?;
    let owner = Owner {
        name: table,
        columns: columns_of(catalog, table),
        catalog,
    };
    print_constraint(alloc, constraint, &owner, conditions, out)
}

/// Adds the line `ALTER TABLE T DROP CONSTRAINT N`. An `Err` is want of memory, and then a part of it may be there.
pub fn print_drop_constraint(table: &str, name: &str, out: &mut Chars) -> Result<(), NoMemory>
    ensures { OnOk result (out.new ≡ out.old ++ (codes "ALTER TABLE " ++ (name_text table.now ++ (codes " DROP CONSTRAINT " ++ name_text name.now)))) }
{
    print_front(table, " DROP CONSTRAINT ", out)?;
    print_name(name, out)
}
