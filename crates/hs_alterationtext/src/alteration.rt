// What ALTER TABLE does to a table.
use hs_plan::Constraint;
use hs_tabletext::AddedColumn;
use hs_values::Name;

/// What ALTER TABLE does to a table.
#[derive(Drop)]
pub enum Alteration {
    AddColumn(AddedColumn),
    AddConstraint(Constraint),
    /// By its name.
    DropConstraint(Name),
}
