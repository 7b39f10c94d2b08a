// Rows that another program sorted, and each list and each call once.
mod calls;
mod lists;
mod maps;
mod sorting;

use hs_values::{Dec, ValueRef};

/// A decimal of so many units.
fn decimal(units: i128, scale: u8) -> ValueRef<'static> {
    ValueRef::Dec(Dec { units, scale })
}

/// Whether two values are of one kind and written alike.
fn alike(a: ValueRef<'_>, b: ValueRef<'_>) -> bool {
    match (a, b) {
        (ValueRef::Null, ValueRef::Null) => true,
        (ValueRef::Int(x), ValueRef::Int(y)) => x == y,
        (ValueRef::Dec(x), ValueRef::Dec(y)) => x == y,
        (ValueRef::Text(x), ValueRef::Text(y)) => x == y,
        (ValueRef::Bool(x), ValueRef::Bool(y)) => x == y,
        (ValueRef::Day(x), ValueRef::Day(y)) => x == y,
        (ValueRef::Micros(x), ValueRef::Micros(y)) => x == y,
        _ => false,
    }
}
