// The steps of leaves, expressions and calls of functions, each by its mark.
ghost use Rattle.std.specs.Prelude.{◌≡◌, ◌+◌, ◌-◌, ◌<◌, ◌≤◌, MatchResult, MatchOption, length, slice_get, Some, None};
ghost use Rattle.hs_builder.specs.MarkSteps.{leaf_step, expression_step, function_step};
ghost use Rattle.hs_builder.specs.Steps.{Gives};

use crate::build_fault::BuildFault;
use crate::mark::{ExpressionMark, FunctionMark, LeafMark};
use crate::part::{Expressions, Leaves, Queries};
use crate::{expressions, functions, leaves};
use hs_ast::{DataType, Literal};
use hs_lexer::Token;
use std::alloc::Global;

#[tactic(auto, using(crate::proofs::Lifting::lifted))]
pub fn apply_leaf(
    alloc: Global,
    text: &str,
    token: Token,
    here: u32,
    mark: LeafMark,
    leaves: &mut Leaves,
) -> Result<(), BuildFault>
    ensures { Gives (leaf_step text.now token here mark leaves.old) result leaves.new }
{
    match mark {
        LeafMark::Place => leaves.places.push(token.start),
        LeafMark::Here => leaves.places.push(here),
        LeafMark::Name => leaves::name(alloc, text, token, &mut leaves.names),
        LeafMark::FirstName => leaves::first_name(alloc, &mut leaves.names, &mut leaves.name_lists),
        LeafMark::NextName => leaves::next_name(&mut leaves.names, &mut leaves.name_lists),
        LeafMark::Alias => leaves::alias(&mut leaves.names, &mut leaves.aliases),
        LeafMark::NoAlias => leaves.aliases.push(None),
        LeafMark::Flag(yes) => leaves.flags.push(yes),
        LeafMark::Number => leaves::number(text, token, &mut leaves.numbers),
        LeafMark::Text => leaves::read_text(alloc, text, token, &mut leaves.texts),
        LeafMark::NumberLiteral => leaves::number_literal(
            &mut leaves.numbers,
            &mut leaves.literals,
        ),
        LeafMark::TextLiteral => leaves::text_literal(&mut leaves.texts, &mut leaves.literals),
        LeafMark::Boolean(truth) => leaves::word_literal(
            token,
            &mut leaves.literals,
            Literal::Boolean(truth),
        ),
        LeafMark::Null => leaves::word_literal(token, &mut leaves.literals, Literal::Null),
        LeafMark::Date => leaves::date(&mut leaves.places, &mut leaves.texts, &mut leaves.literals),
        LeafMark::Timestamp => leaves::timestamp(
            &mut leaves.places,
            &mut leaves.texts,
            &mut leaves.literals,
        ),
        LeafMark::SignedLiteral(sign) => leaves::signed_literal(
            &mut leaves.places,
            &mut leaves.numbers,
            &mut leaves.literals,
            sign,
        ),
        LeafMark::Type(t) => leaves.types.push(t),
        LeafMark::PlainDecimal => leaves.types.push(DataType::Decimal {
            precision: 38,
            scale: 0,
        }),
        LeafMark::Decimal => leaves::decimal(&mut leaves.numbers, &mut leaves.types),
        LeafMark::DecimalScale => leaves::decimal_scale(&mut leaves.numbers, &mut leaves.types),
        LeafMark::Varchar => leaves::varchar(&mut leaves.numbers, &mut leaves.types),
    }
}

#[tactic(auto, using(crate::proofs::Lifting::lifted))]
pub fn apply_expression(
    alloc: Global,
    mark: ExpressionMark,
    leaves: &mut Leaves,
    expressions: &mut Expressions,
    queries: &mut Queries,
) -> Result<(), BuildFault>
    ensures { Gives (expression_step mark (leaves.old, expressions.old, queries.old)) result (leaves.new, expressions.new, queries.new) }
{
    match mark {
        ExpressionMark::Literal => expressions::literal(
            alloc,
            &mut leaves.literals,
            &mut expressions.whole,
        ),
        ExpressionMark::Column => expressions::column(
            alloc,
            &mut leaves.names,
            &mut expressions.whole,
        ),
        ExpressionMark::Qualified => expressions::qualified(
            alloc,
            &mut leaves.names,
            &mut expressions.whole,
        ),
        ExpressionMark::Bracket => expressions::bracket(&mut leaves.places, &mut expressions.whole),
        ExpressionMark::Signed(sign) => expressions::signed(
            alloc,
            &mut leaves.places,
            &mut expressions.whole,
            sign,
        ),
        ExpressionMark::Not => expressions::negation(
            alloc,
            &mut leaves.places,
            &mut expressions.whole,
        ),
        ExpressionMark::Binary(operator) => expressions::binary(
            alloc,
            &mut expressions.whole,
            operator,
        ),
        ExpressionMark::IsNull(negated) => expressions::is_null(
            alloc,
            &mut expressions.whole,
            negated,
        ),
        ExpressionMark::Between => expressions::between(
            alloc,
            &mut leaves.flags,
            &mut expressions.whole,
        ),
        ExpressionMark::Like => expressions::like(alloc, &mut leaves.flags, &mut expressions.whole),
        ExpressionMark::LikeEscape => expressions::like_escape(
            alloc,
            &mut leaves.flags,
            &mut leaves.texts,
            &mut expressions.whole,
        ),
        ExpressionMark::InList => expressions::in_list(
            alloc,
            &mut leaves.flags,
            &mut expressions.whole,
            &mut expressions.lists,
        ),
        ExpressionMark::InQuery => expressions::in_query(
            alloc,
            &mut leaves.flags,
            &mut expressions.whole,
            &mut queries.whole,
        ),
        ExpressionMark::Exists => expressions::exists(
            alloc,
            &mut leaves.places,
            &mut expressions.whole,
            &mut queries.whole,
        ),
        ExpressionMark::Subquery => expressions::subquery(
            alloc,
            &mut leaves.places,
            &mut expressions.whole,
            &mut queries.whole,
        ),
        ExpressionMark::BodySubquery => expressions::body_subquery(
            alloc,
            &mut leaves.places,
            &mut expressions.whole,
            &mut queries.bodies,
        ),
        ExpressionMark::Digits => leaves::digits(&mut leaves.texts, &mut expressions.counts),
        ExpressionMark::Interval(sign, unit) => expressions::interval(
            alloc,
            &mut expressions.whole,
            &mut expressions.counts,
            sign,
            unit,
        ),
        ExpressionMark::First => expressions::first(
            alloc,
            &mut expressions.whole,
            &mut expressions.lists,
        ),
        ExpressionMark::Next => expressions::next(&mut expressions.whole, &mut expressions.lists),
        ExpressionMark::Written => expressions::written(
            &mut expressions.whole,
            &mut expressions.optional,
        ),
        ExpressionMark::Unwritten => expressions::unwritten(&mut expressions.optional),
    }
}

#[tactic(auto, using(crate::proofs::Lifting::lifted))]
pub fn apply_function(
    alloc: Global,
    token: Token,
    mark: FunctionMark,
    leaves: &mut Leaves,
    expressions: &mut Expressions,
) -> Result<(), BuildFault>
    ensures { Gives (function_step token mark (leaves.old, expressions.old)) result (leaves.new, expressions.new) }
{
    match mark {
        FunctionMark::Cast => functions::cast(
            alloc,
            &mut leaves.places,
            &mut leaves.types,
            &mut expressions.whole,
        ),
        FunctionMark::Case => functions::begin_case(alloc, token, &mut expressions.cases),
        FunctionMark::Arm => functions::arm(&mut expressions.cases, &mut expressions.whole),
        FunctionMark::End => functions::end_case(
            alloc,
            &mut expressions.optional,
            &mut expressions.cases,
            &mut expressions.whole,
        ),
        FunctionMark::Call(name) => functions::call(
            alloc,
            &mut leaves.places,
            &mut expressions.whole,
            &mut expressions.lists,
            name,
        ),
        FunctionMark::Substring => functions::substring(
            alloc,
            &mut leaves.places,
            &mut expressions.whole,
        ),
        FunctionMark::SubstringFor => functions::substring_for(
            alloc,
            &mut leaves.places,
            &mut expressions.whole,
        ),
        FunctionMark::Form(manner) => expressions.forms.push(manner),
        FunctionMark::Trim => functions::trim(
            alloc,
            &mut leaves.places,
            &mut expressions.forms,
            &mut expressions.whole,
        ),
        FunctionMark::TrimCharacter => functions::trim_character(
            alloc,
            &mut leaves.places,
            &mut expressions.forms,
            &mut expressions.whole,
        ),
        FunctionMark::Field(field) => expressions.fields.push(field),
        FunctionMark::Extract => functions::extract(
            alloc,
            &mut leaves.places,
            &mut expressions.fields,
            &mut expressions.whole,
        ),
        FunctionMark::CountRows => functions::count_rows(
            alloc,
            &mut leaves.places,
            &mut expressions.whole,
        ),
        FunctionMark::Aggregate(name) => functions::aggregate(
            alloc,
            &mut leaves.places,
            &mut leaves.flags,
            &mut expressions.whole,
            name,
        ),
    }
}
