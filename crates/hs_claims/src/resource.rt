// What is claimed.
ghost use Rattle.std.specs.Prelude.{◌≡◌, IfOk};
ghost use Rattle.hs_claims.specs.Compatible.{same_resource};

use hs_base::{ConstraintNo, NoMemory, RowNo, TableNo};
use hs_values::Row;

/// What a claim is on: the catalogue, a table, a row of a table, or a key of a constraint of a table, with the key's
/// values in the order of the constraint's columns.
#[derive(Debug, Drop)]
pub enum Resource {
    Catalog,
    Table(TableNo),
    Row(TableNo, RowNo),
    Key(TableNo, ConstraintNo, Row),
}

impl Resource {
    /// The same resource in memory of its own. An `Err` is want of memory.
    pub fn copy(&self) -> Result<Resource, NoMemory>
        ensures { IfOk result (λ copied. copied ≡ self.now) }
    {
        match self {
            Resource::Catalog => Ok(Resource::Catalog),
            Resource::Table(table) => Ok(Resource::Table(*table)),
            Resource::Row(table, row) => Ok(Resource::Row(*table, *row)),
            Resource::Key(table, constraint, values) => {
                Ok(Resource::Key(*table, *constraint, values.copy()?))
            }
        }
    }

    /// Whether two are one. Keys whose values are equal are one, as 1 and 1.00 are. Takes no memory.
    pub fn is_same(&self, other: &Resource) -> bool
        ensures { result ≡ same_resource self.now other.now }
    {
        match (self, other) {
            (Resource::Catalog, Resource::Catalog) => true,
            (Resource::Table(a), Resource::Table(b)) => a == b,
            (Resource::Row(a, row), Resource::Row(b, other_row)) => a == b && row == other_row,
            (Resource::Key(a, constraint, values), Resource::Key(b, other_constraint, others)) => {
                a == b && constraint == other_constraint && values == others
            }
            _ => false,
        }
    }
}
