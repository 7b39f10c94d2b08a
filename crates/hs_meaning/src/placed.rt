// Output columns where they are written.
use hs_scope::OutputColumn;
use hs_typed::Typed;
use hs_values::Name;

/// An output column of a query, and the place of its item.
#[derive(Drop)]
pub struct PlacedColumn {
    /// The place of the item, of the value or of the `*` in a query's leftmost SELECT or VALUES.
    pub at: u32,
    pub column: OutputColumn,
}

/// One column of an item of SELECT, or a value of VALUES.
#[derive(Drop)]
pub struct Shown {
    pub at: u32,
    /// None where it has no name.
    pub name: Option<Name>,
    /// None where it breaks a rule.
    pub part: Option<Typed>,
}
