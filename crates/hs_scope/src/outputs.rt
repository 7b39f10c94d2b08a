// Output columns by their names, and the keys of ORDER BY.
ghost use Rattle.std.specs.Prelude.{◌≡◌, length, IfOk, IfSome, ◌<◌, ◌^◌};
ghost use Rattle.hs_scope.specs.Index.{kept_at};
ghost use Rattle.hs_scope.specs.Names.{Text, sought_among};
ghost use Rattle.hs_scope.specs.Outputs as spec;

use crate::column::{OutputColumn, seek};
use crate::index::ColumnIndex;
use crate::sought::Sought;
use hs_ast::{Expression, ExpressionKind, Identifier, Literal, Number};
use hs_base::NoMemory;
use hs_values::Name;
use sqlite_items::Items;
use std::alloc::Global;
use std::marker::Model;

/// How many columns are looked through one by one.
const FEW: usize = 48;

/// What a key of ORDER BY means.
#[derive(Clone, Copy)]
pub enum KeyMeaning {
    /// The output column at this place, from 0.
    Output(u32),
    /// The value of an expression over FROM.
    Value,
    /// No such output column, or an expression where none is allowed: a fault of types at the key.
    Types,
    /// A name that several output columns have.
    Ambiguous,
}

/// The output columns of a query. Contracts see their list.
#[derive(Drop)]
pub struct Outputs {
    columns: Items<OutputColumn>,
    width: u32,
    // None where the columns are few.
    index: Option<ColumnIndex>,
}

impl Model for Outputs {
    ghost use Rattle.std.specs.Prelude.{◌≡◌, ℕ, ◌<◌, ◌^◌, List, length, IfSome};
    ghost use Rattle.hs_scope.specs.declared.column.OutputColumn.{OutputColumn};
    ghost use Rattle.hs_scope.specs.Names.{Text, sought_among};
    ghost use Rattle.hs_scope.specs.Index.{kept_at};

    ghost Value = { List OutputColumn };

    ghost view = { λ o. o.columns };

    ghost invariant = { λ o. (o.width ≡ length o.columns) × (length o.columns < 2 ^ 32) × IfSome o.index (λ i. (name : Text) → kept_at i.names.entries name ≡ sought_among o.columns name) };
}

impl Outputs {
    /// The columns of a list. An `Err` is want of memory.
    pub fn new(alloc: Global, columns: Items<OutputColumn>) -> Result<Outputs, NoMemory>
        ensures { IfOk result (λ made. made ≡ columns) }
    {
        let Ok(width) = u32::try_from(columns.len()) else {
            return Err(NoMemory);
        };
        let index = indexed(columns.as_slice(), alloc)?;
        Ok(Outputs {
            columns,
            width,
            index,
        })
    }

    pub fn columns(&self) -> &[OutputColumn]
        ensures { result.now ≡ self.now }
    {
        self.columns.as_slice()
    }

    /// The list again, without taking memory.
    pub fn into_columns(self) -> Items<OutputColumn>
        ensures { result ≡ self }
    {
        self.columns
    }

    /// The column of a name.
    pub fn find(&self, name: &str) -> Sought
        ensures { result ≡ sought_among self.now name.now }
    {
        match &self.index {
            Some(index) => index.find(name),
            None => seek(self.columns.as_slice(), name, 0),
        }
    }

    /// What a key of ORDER BY means. `plain` says that a key may be an expression: the query has no DISTINCT, GROUP BY,
    /// HAVING, aggregate or set operation.
    pub fn key_meaning(&self, key: &Expression, plain: bool) -> KeyMeaning
        ensures { result ≡ spec.key_meaning plain self.now key.now }
    {
        match &key.kind {
            ExpressionKind::Literal(Literal::Number(number)) => self.by_number(*number, plain),
            ExpressionKind::Column(name) if name.table.is_none() => {
                by_name(plain, self.find(name.column.as_str()))
            }
            _ => any_other(plain),
        }
    }

    fn by_number(&self, number: Number, plain: bool) -> KeyMeaning
        ensures { result ≡ spec.by_literal plain self.now (Literal.Number number) }
    {
        if number.scale != 0 {
            return any_other(plain);
        }
        numbered(self.width, number.units)
    }
}

// The index of columns, where they aren't few.
#[tactic(auto, using(crate::proofs::Seeking::among))]
fn indexed(columns: &[OutputColumn], alloc: Global) -> Result<Option<ColumnIndex>, NoMemory>
    requires { length columns.now < 2 ^ 32 }
    ensures { IfOk result (λ made. IfSome made (λ i. (name : Text) → kept_at i.names.entries name ≡ sought_among columns.now name)) }
{
    if columns.len() < FEW {
        return Ok(None);
    }
    let mut index = ColumnIndex::new(alloc);
    index.add_columns(columns, 0)?;
    Ok(Some(index))
}

fn any_other(plain: bool) -> KeyMeaning
    ensures { result ≡ spec.any_other plain }
{
    if plain {
        KeyMeaning::Value
    } else {
        KeyMeaning::Types
    }
}

fn by_name(plain: bool, found: Sought) -> KeyMeaning
    ensures { result ≡ spec.by_name plain found }
{
    match found {
        Sought::Missing => any_other(plain),
        Sought::One { at, .. } => KeyMeaning::Output(at),
        Sought::Several => KeyMeaning::Ambiguous,
    }
}

fn counted(width: u32, number: u128) -> KeyMeaning
    ensures { result ≡ spec.counted width number }
{
    if 0 < number && number <= u128::from(width) {
        KeyMeaning::Output((number - 1) as u32)
    } else {
        KeyMeaning::Types
    }
}

// The output column of a number, which counts from 1.
fn numbered(width: u32, number: i128) -> KeyMeaning
    ensures { result ≡ spec.numbered width number }
{
    if number < 0 {
        return KeyMeaning::Types;
    }
    counted(width, number.unsigned_abs())
}

/// The name of an item's output column: its alias, else its column's name, else none. An `Err` is want of memory.
pub fn output_name(
    alloc: Global,
    value: &Expression,
    alias: &Option<Identifier>,
) -> Result<Option<Name>, NoMemory>
    ensures { IfOk result (λ name. name ≡ spec.output_name value.now alias.now) }
{
    if let Some(alias) = alias {
        return Ok(Some(Name::from_text(alloc, alias.name.as_str())?));
    }
    match &value.kind {
        ExpressionKind::Column(name) => Ok(Some(Name::from_text(alloc, name.column.as_str())?)),
        _ => Ok(None),
    }
}
