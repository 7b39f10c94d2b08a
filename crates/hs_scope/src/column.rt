// The columns that a query has.
ghost use Rattle.std.specs.Prelude.{◌≡◌, map, length, ◌+◌, ◌^◌, ◌<◌, IfOk};
ghost use Rattle.hs_scope.specs.Names.{column_of, has_name};
ghost use Rattle.hs_scope.specs.Sought.{columns_from};

use crate::sought::Sought;
use hs_base::NoMemory;
use hs_plan::{Column, Kind, kind_of_type};
use hs_values::Name;
use sqlite_items::Items;
use std::alloc::Global;

/// A column of a table or of a query's answer.
#[derive(Drop)]
pub struct OutputColumn {
    /// None where it has no name.
    pub name: Option<Name>,
    /// None where its expression breaks a rule, so that nothing is known of its values.
    pub kind: Option<Kind>,
}

impl OutputColumn {
    /// A copy, which equals its source.
    pub fn copy(&self) -> Result<OutputColumn, NoMemory>
        ensures { IfOk result (λ copied. copied ≡ self.now) }
    {
        let name = match &self.name {
            Some(name) => Some(name.copy()?),
            None => None,
        };
        Ok(OutputColumn {
            name,
            kind: self.kind,
        })
    }

    pub(crate) fn has_name(&self, name: &str) -> bool
        ensures { result ≡ has_name name.now self.now }
    {
        match &self.name {
            Some(its) => name == its.as_str(),
            None => false,
        }
    }
}

/// The columns of a table as a query sees them.
pub(crate) fn columns_of(columns: &[Column], alloc: Global) -> Result<Items<OutputColumn>, NoMemory>
    ensures { IfOk result (λ made. made ≡ map column_of columns.now) }
{
    let mut made = Items::new(alloc);
    for column in columns {
        made.push(OutputColumn {
            name: Some(column.name.copy()?),
            kind: Some(kind_of_type(&column.data_type)),
        })?;
    }
    Ok(made)
}

/// The column of a name among columns of which the first is at the place `first`.
pub(crate) fn seek(columns: &[OutputColumn], name: &str, first: u32) -> Sought
    requires { first + length columns.now < 2 ^ 32 }
    ensures { result ≡ columns_from first name.now columns.now }
{
    let mut found = Sought::Missing;
    let mut at = first;
    for column in columns {
        let here = Sought::One {
            at,
            kind: column.kind,
        };
        found = found.and(here.if_passed(column.has_name(name)));
        at += 1;
    }
    found
}
