// The steps that build operators, predicates and subqueries.
ghost use Rattle.std.specs.Prelude.{◌≡◌, ◌∷◌, MatchResult};
ghost use Rattle.hs_builder.specs.Steps.{Gives};
ghost use Rattle.hs_builder.specs.Expressions as spec;
ghost use Rattle.hs_builder.specs.declared.build_fault.BuildFault.TheVariants.{NoMemory};

use crate::build_fault::BuildFault;
use crate::depth::{deeper, deepest};
use crate::part::{
    Built, BuiltBody, BuiltList, BuiltOptional, BuiltQuery, PlacedLiteral, PlacedText,
};
use crate::stack::Stack;
use hs_ast::{
    BinaryOperator, ColumnName, Expression, ExpressionKind, Identifier, IntervalUnit, Query, Sign,
};
use sqlite_items::{Boxed, Items};
use std::alloc::Global;

/// Puts an expression at its place on the stack, which begins at `start` with its parentheses.
fn put_from(
    alloc: Global,
    expressions: &mut Stack<Built>,
    at: u32,
    start: u32,
    kind: ExpressionKind,
    depth: u32,
) -> Result<(), BuildFault>
    ensures { MatchResult result (λ _. expressions.new ≡ spec.built_from at start kind depth ∷ expressions.old) (λ e. e ≡ NoMemory) }
{
    let tree = Boxed::new(alloc, Expression { at, kind })?;
    expressions.push(Built { tree, depth, start })
}

/// Puts an expression on the stack that begins where its first word or operand does.
pub fn put(
    alloc: Global,
    expressions: &mut Stack<Built>,
    start: u32,
    kind: ExpressionKind,
    depth: u32,
) -> Result<(), BuildFault>
    ensures { MatchResult result (λ _. expressions.new ≡ spec.built start kind depth ∷ expressions.old) (λ e. e ≡ NoMemory) }
{
    put_from(alloc, expressions, start, start, kind, depth)
}

/// The two topmost expressions, the topmost last.
pub fn pop_two(expressions: &mut Stack<Built>) -> Result<(Built, Built), BuildFault>
    ensures { MatchResult result (λ two. expressions.old ≡ two.1 ∷ (two.0 ∷ expressions.new)) (λ e. e ≡ NoMemory) }
{
    let second = expressions.pop()?;
    let first = expressions.pop()?;
    Ok((first, second))
}

/// The topmost query, whole, and its depth.
pub fn pop_query(
    alloc: Global,
    queries: &mut Stack<BuiltQuery>,
) -> Result<(Boxed<Query>, u32), BuildFault>
    ensures { MatchResult result (λ query. spec.TakesQuery query.0 query.1 queries.old queries.new) (λ e. e ≡ NoMemory) }
{
    let query = queries.pop()?;
    let depth = query.depth;
    let whole = Boxed::new(
        alloc,
        Query {
            at: query.at,
            body: query.body.into_inner(),
            order_by: query.order_by,
            limit: query.limit,
        },
    )?;
    Ok((whole, depth))
}

pub fn literal(
    alloc: Global,
    literals: &mut Stack<PlacedLiteral>,
    expressions: &mut Stack<Built>,
) -> Result<(), BuildFault>
    ensures { Gives (spec.literal (literals.old, expressions.old)) result (literals.new, expressions.new) }
{
    let literal = literals.pop()?;
    let kind = ExpressionKind::Literal(literal.literal);
    put(alloc, expressions, literal.at, kind, 0)
}

pub fn column(
    alloc: Global,
    names: &mut Stack<Identifier>,
    expressions: &mut Stack<Built>,
) -> Result<(), BuildFault>
    ensures { Gives (spec.column (names.old, expressions.old)) result (names.new, expressions.new) }
{
    let column = names.pop()?;
    let kind = ExpressionKind::Column(ColumnName {
        table: None,
        column: column.name,
    });
    put(alloc, expressions, column.at, kind, 0)
}

pub fn qualified(
    alloc: Global,
    names: &mut Stack<Identifier>,
    expressions: &mut Stack<Built>,
) -> Result<(), BuildFault>
    ensures { Gives (spec.qualified (names.old, expressions.old)) result (names.new, expressions.new) }
{
    let column = names.pop()?;
    let table = names.pop()?;
    let kind = ExpressionKind::Column(ColumnName {
        table: Some(table.name),
        column: column.name,
    });
    put(alloc, expressions, table.at, kind, 0)
}

pub fn bracket(places: &mut Stack<u32>, expressions: &mut Stack<Built>) -> Result<(), BuildFault>
    ensures { Gives (spec.bracket (places.old, expressions.old)) result (places.new, expressions.new) }
{
    let inner = expressions.pop()?;
    let start = places.pop()?;
    expressions.push(Built {
        tree: inner.tree,
        depth: inner.depth,
        start,
    })
}

pub fn signed(
    alloc: Global,
    places: &mut Stack<u32>,
    expressions: &mut Stack<Built>,
    sign: Sign,
) -> Result<(), BuildFault>
    ensures { Gives (spec.signed sign (places.old, expressions.old)) result (places.new, expressions.new) }
{
    let operand = expressions.pop()?;
    let at = places.pop()?;
    let depth = deeper(operand.depth, 0)?;
    let kind = ExpressionKind::Signed(sign, operand.tree);
    put(alloc, expressions, at, kind, depth)
}

pub fn negation(
    alloc: Global,
    places: &mut Stack<u32>,
    expressions: &mut Stack<Built>,
) -> Result<(), BuildFault>
    ensures { Gives (spec.negation (places.old, expressions.old)) result (places.new, expressions.new) }
{
    let operand = expressions.pop()?;
    let at = places.pop()?;
    let depth = deeper(operand.depth, 0)?;
    let kind = ExpressionKind::Not(operand.tree);
    put(alloc, expressions, at, kind, depth)
}

pub fn binary(
    alloc: Global,
    expressions: &mut Stack<Built>,
    operator: BinaryOperator,
) -> Result<(), BuildFault>
    ensures { Gives (spec.binary operator expressions.old) result expressions.new }
{
    let right = expressions.pop()?;
    let left = expressions.pop()?;
    let depth = deeper(left.depth, right.depth)?;
    let kind = ExpressionKind::Binary(operator, left.tree, right.tree);
    put(alloc, expressions, left.start, kind, depth)
}

pub fn is_null(
    alloc: Global,
    expressions: &mut Stack<Built>,
    negated: bool,
) -> Result<(), BuildFault>
    ensures { Gives (spec.is_null negated expressions.old) result expressions.new }
{
    let operand = expressions.pop()?;
    let depth = deeper(operand.depth, 0)?;
    let kind = ExpressionKind::IsNull {
        operand: operand.tree,
        negated,
    };
    put(alloc, expressions, operand.start, kind, depth)
}

pub fn between(
    alloc: Global,
    flags: &mut Stack<bool>,
    expressions: &mut Stack<Built>,
) -> Result<(), BuildFault>
    ensures { Gives (spec.between (flags.old, expressions.old)) result (flags.new, expressions.new) }
{
    let (low, high) = pop_two(expressions)?;
    let negated = flags.pop()?;
    let operand = expressions.pop()?;
    let depth = deeper(operand.depth, deepest(low.depth, high.depth))?;
    let kind = ExpressionKind::Between {
        operand: operand.tree,
        negated,
        low: low.tree,
        high: high.tree,
    };
    put(alloc, expressions, operand.start, kind, depth)
}

pub fn like(
    alloc: Global,
    flags: &mut Stack<bool>,
    expressions: &mut Stack<Built>,
) -> Result<(), BuildFault>
    ensures { Gives (spec.like (flags.old, expressions.old)) result (flags.new, expressions.new) }
{
    let (operand, pattern) = pop_two(expressions)?;
    let negated = flags.pop()?;
    let depth = deeper(operand.depth, pattern.depth)?;
    let kind = ExpressionKind::Like {
        operand: operand.tree,
        negated,
        pattern: pattern.tree,
        escape: None,
    };
    put(alloc, expressions, operand.start, kind, depth)
}

pub fn like_escape(
    alloc: Global,
    flags: &mut Stack<bool>,
    texts: &mut Stack<PlacedText>,
    expressions: &mut Stack<Built>,
) -> Result<(), BuildFault>
    ensures { Gives (spec.like_escape (flags.old, texts.old, expressions.old)) result (flags.new, texts.new, expressions.new) }
{
    let (operand, pattern) = pop_two(expressions)?;
    let escape = texts.pop()?;
    let negated = flags.pop()?;
    let depth = deeper(operand.depth, pattern.depth)?;
    let kind = ExpressionKind::Like {
        operand: operand.tree,
        negated,
        pattern: pattern.tree,
        escape: Some(escape.text),
    };
    put(alloc, expressions, operand.start, kind, depth)
}

pub fn in_list(
    alloc: Global,
    flags: &mut Stack<bool>,
    expressions: &mut Stack<Built>,
    lists: &mut Stack<BuiltList>,
) -> Result<(), BuildFault>
    ensures { Gives (spec.in_list (flags.old, expressions.old, lists.old)) result (flags.new, expressions.new, lists.new) }
{
    let list = lists.pop()?;
    let negated = flags.pop()?;
    let operand = expressions.pop()?;
    let depth = deeper(operand.depth, list.depth)?;
    let kind = ExpressionKind::InList {
        operand: operand.tree,
        negated,
        list: list.trees,
    };
    put(alloc, expressions, operand.start, kind, depth)
}

pub fn in_query(
    alloc: Global,
    flags: &mut Stack<bool>,
    expressions: &mut Stack<Built>,
    queries: &mut Stack<BuiltQuery>,
) -> Result<(), BuildFault>
    ensures { Gives (spec.in_query (flags.old, expressions.old, queries.old)) result (flags.new, expressions.new, queries.new) }
{
    let (query, query_depth) = pop_query(alloc, queries)?;
    let negated = flags.pop()?;
    let operand = expressions.pop()?;
    let depth = deeper(operand.depth, query_depth)?;
    let kind = ExpressionKind::InQuery {
        operand: operand.tree,
        negated,
        query,
    };
    put(alloc, expressions, operand.start, kind, depth)
}

pub fn exists(
    alloc: Global,
    places: &mut Stack<u32>,
    expressions: &mut Stack<Built>,
    queries: &mut Stack<BuiltQuery>,
) -> Result<(), BuildFault>
    ensures { Gives (spec.exists (places.old, expressions.old, queries.old)) result (places.new, expressions.new, queries.new) }
{
    let (query, query_depth) = pop_query(alloc, queries)?;
    let at = places.pop()?;
    let depth = deeper(query_depth, 0)?;
    put(alloc, expressions, at, ExpressionKind::Exists(query), depth)
}

pub fn subquery(
    alloc: Global,
    places: &mut Stack<u32>,
    expressions: &mut Stack<Built>,
    queries: &mut Stack<BuiltQuery>,
) -> Result<(), BuildFault>
    ensures { Gives (spec.subquery (places.old, expressions.old, queries.old)) result (places.new, expressions.new, queries.new) }
{
    let (query, depth) = pop_query(alloc, queries)?;
    let at = places.pop()?;
    put(
        alloc,
        expressions,
        at,
        ExpressionKind::Subquery(query),
        depth,
    )
}

pub fn body_subquery(
    alloc: Global,
    places: &mut Stack<u32>,
    expressions: &mut Stack<Built>,
    bodies: &mut Stack<BuiltBody>,
) -> Result<(), BuildFault>
    ensures { Gives (spec.body_subquery (places.old, expressions.old, bodies.old)) result (places.new, expressions.new, bodies.new) }
{
    let body = bodies.pop()?;
    let start = places.pop()?;
    let depth = deeper(body.depth, 0)?;
    let at = body.bracket.unwrap_or(start);
    let query = Boxed::new(
        alloc,
        Query {
            at: body.at,
            body: body.tree.into_inner(),
            order_by: Items::new(alloc),
            limit: None,
        },
    )?;
    put_from(
        alloc,
        expressions,
        at,
        start,
        ExpressionKind::Subquery(query),
        depth,
    )
}

pub fn interval(
    alloc: Global,
    expressions: &mut Stack<Built>,
    counts: &mut Stack<u64>,
    sign: Sign,
    unit: IntervalUnit,
) -> Result<(), BuildFault>
    ensures { Gives (spec.interval sign unit (expressions.old, counts.old)) result (expressions.new, counts.new) }
{
    let count = counts.pop()?;
    let operand = expressions.pop()?;
    let depth = deeper(operand.depth, 0)?;
    let kind = ExpressionKind::Interval {
        operand: operand.tree,
        sign,
        count,
        unit,
    };
    put(alloc, expressions, operand.start, kind, depth)
}

pub fn first(
    alloc: Global,
    expressions: &mut Stack<Built>,
    lists: &mut Stack<BuiltList>,
) -> Result<(), BuildFault>
    ensures { Gives (spec.first (expressions.old, lists.old)) result (expressions.new, lists.new) }
{
    let e = expressions.pop()?;
    let mut trees = Items::new(alloc);
    trees.push(e.tree.into_inner())?;
    lists.push(BuiltList {
        trees,
        depth: e.depth,
    })
}

pub fn next(expressions: &mut Stack<Built>, lists: &mut Stack<BuiltList>) -> Result<(), BuildFault>
    ensures { Gives (spec.next (expressions.old, lists.old)) result (expressions.new, lists.new) }
{
    let e = expressions.pop()?;
    let mut list = lists.pop()?;
    list.trees.push(e.tree.into_inner())?;
    lists.push(BuiltList {
        trees: list.trees,
        depth: deepest(list.depth, e.depth),
    })
}

/// What may be left out stands there.
pub fn written(
    expressions: &mut Stack<Built>,
    optional: &mut Stack<BuiltOptional>,
) -> Result<(), BuildFault>
    ensures { Gives (spec.written (expressions.old, optional.old)) result (expressions.new, optional.new) }
{
    let e = expressions.pop()?;
    optional.push(BuiltOptional {
        tree: Some(e.tree),
        depth: e.depth,
    })
}

/// It doesn't.
pub fn unwritten(optional: &mut Stack<BuiltOptional>) -> Result<(), BuildFault>
    ensures { Gives (spec.unwritten optional.old) result optional.new }
{
    optional.push(BuiltOptional {
        tree: None,
        depth: 0,
    })
}
