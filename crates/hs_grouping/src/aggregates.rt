// Where aggregates stand: what makes a SELECT a grouped one.
ghost use Rattle.std.specs.Prelude.{◌≡◌, ◌||◌, map};
ghost use Rattle.std.specs.List.{list_any};
ghost use Rattle.hs_meaning.specs.Expressions as spec;
ghost use Rattle.hs_meaning.specs.Selects as selects;
ghost use Rattle.hs_meaning.specs.Trees.{arm_of, form_of, item_of, layer_of, part_of};

use hs_ast::{CaseArm, Expression, ExpressionKind, Select, SelectItem};
use hs_schema::Catalog;

/// Whether an aggregate stands in an expression, but not in a query inside it. What it means is told over a catalogue, of
/// which nothing is read. Takes no memory.
#[cycle(aggregates)]
pub fn has_aggregate(e: &Expression, catalog: &Catalog) -> bool
    ensures { result ≡ (part_of catalog.now e.now).form.aggregate }
{
    kind_has(&e.kind, catalog)
}

#[cycle(aggregates)]
fn kind_has(kind: &ExpressionKind, catalog: &Catalog) -> bool
    ensures { result ≡ (form_of catalog.now kind.now).aggregate }
{
    match kind {
        ExpressionKind::Literal(_)
        | ExpressionKind::Column(_)
        | ExpressionKind::Exists(_)
        | ExpressionKind::Subquery(_) => false,
        ExpressionKind::CountRows | ExpressionKind::Aggregate { .. } => true,
        ExpressionKind::Signed(_, a)
        | ExpressionKind::Not(a)
        | ExpressionKind::Cast(a, _)
        | ExpressionKind::Extract(_, a) => has_aggregate(a.get(), catalog),
        ExpressionKind::IsNull { operand, .. }
        | ExpressionKind::InQuery { operand, .. }
        | ExpressionKind::Interval { operand, .. } => has_aggregate(operand.get(), catalog),
        ExpressionKind::Binary(_, a, b) => {
            has_aggregate(a.get(), catalog) || has_aggregate(b.get(), catalog)
        }
        ExpressionKind::Between {
            operand,
            low,
            high,
            ..
        } => {
            has_aggregate(operand.get(), catalog)
                || has_aggregate(low.get(), catalog)
                || has_aggregate(high.get(), catalog)
        }
        ExpressionKind::InList { operand, list, .. } => {
            has_aggregate(operand.get(), catalog) || any_has(list.as_slice(), catalog)
        }
        ExpressionKind::Like {
            operand,
            pattern,
            ..
        } => has_aggregate(operand.get(), catalog) || has_aggregate(pattern.get(), catalog),
        ExpressionKind::Case { arms, otherwise } => {
            arms_have(arms.as_slice(), catalog)
                || match otherwise {
                    Some(e) => has_aggregate(e.get(), catalog),
                    None => false,
                }
        }
        ExpressionKind::Call(_, operands) => any_has(operands.as_slice(), catalog),
        ExpressionKind::Substring { text, start, count } => {
            has_aggregate(text.get(), catalog)
                || has_aggregate(start.get(), catalog)
                || match count {
                    Some(e) => has_aggregate(e.get(), catalog),
                    None => false,
                }
        }
        ExpressionKind::Trim {
            character,
            text,
            ..
        } => match character {
            Some(e) => has_aggregate(e.get(), catalog) || has_aggregate(text.get(), catalog),
            None => has_aggregate(text.get(), catalog),
        },
    }
}

#[cycle(aggregates)]
fn any_has(all: &[Expression], catalog: &Catalog) -> bool
    ensures { result ≡ spec.in_any (map (part_of catalog.now) all.now) }
{
    for e in all {
        if has_aggregate(e, catalog) {
            return true;
        }
    }
    false
}

#[cycle(aggregates)]
fn arms_have(arms: &[CaseArm], catalog: &Catalog) -> bool
    ensures { result ≡ list_any (λ arm. arm.test.form.aggregate || arm.value.form.aggregate) (map (arm_of catalog.now) arms.now) }
{
    for arm in arms {
        if has_aggregate(&arm.test, catalog) || has_aggregate(&arm.value, catalog) {
            return true;
        }
    }
    false
}

fn item_has(item: &SelectItem, catalog: &Catalog) -> bool
    ensures { result ≡ (item_of catalog.now item.now).aggregate }
{
    match item {
        SelectItem::Every(_) => false,
        SelectItem::One { value, .. } => has_aggregate(value, catalog),
    }
}

fn items_have(items: &[SelectItem], catalog: &Catalog) -> bool
    ensures { result ≡ list_any (λ i. i.aggregate) (map (item_of catalog.now) items.now) }
{
    for item in items {
        if item_has(item, catalog) {
            return true;
        }
    }
    false
}

fn is_written(all: &[Expression], catalog: &Catalog) -> bool
    ensures { result ≡ selects.is_written (map (part_of catalog.now) all.now) }
{
    match all {
        [] => false,
        [_, ..] => true,
    }
}

/// Whether the rows of a SELECT are grouped: it has GROUP BY, HAVING or an aggregate among its items. What it means is told
/// over a catalogue, of which nothing is read. Takes no memory.
pub fn is_grouped(select: &Select, catalog: &Catalog) -> bool
    ensures { result ≡ selects.is_grouped (layer_of catalog.now select.now) }
{
    is_written(select.group_by.as_slice(), catalog)
        || select.having.is_some()
        || items_have(select.items.as_slice(), catalog)
}
