// The steps that build what begins with a word of its own: CASE, CAST, functions and aggregates.
ghost use Rattle.hs_builder.specs.Steps.{Gives};
ghost use Rattle.hs_builder.specs.Functions as spec;

use crate::build_fault::BuildFault;
use crate::depth::{deeper, deepest};
use crate::expressions::{pop_two, put};
use crate::part::{Built, BuiltCase, BuiltList, BuiltOptional};
use crate::stack::Stack;
use hs_ast::{Aggregate, CaseArm, DataType, DateField, ExpressionKind, Function, TrimForm};
use hs_lexer::Token;
use sqlite_items::Items;
use std::alloc::Global;

pub fn cast(
    alloc: Global,
    places: &mut Stack<u32>,
    types: &mut Stack<DataType>,
    expressions: &mut Stack<Built>,
) -> Result<(), BuildFault>
    ensures { Gives (spec.cast (places.old, types.old, expressions.old)) result (places.new, types.new, expressions.new) }
{
    let data_type = types.pop()?;
    let operand = expressions.pop()?;
    let at = places.pop()?;
    let depth = deeper(operand.depth, 0)?;
    let kind = ExpressionKind::Cast(operand.tree, data_type);
    put(alloc, expressions, at, kind, depth)
}

pub fn begin_case(
    alloc: Global,
    token: Token,
    cases: &mut Stack<BuiltCase>,
) -> Result<(), BuildFault>
    ensures { Gives (spec.begin_case token cases.old) result cases.new }
{
    cases.push(BuiltCase {
        arms: Items::new(alloc),
        depth: 0,
        at: token.start,
    })
}

pub fn arm(cases: &mut Stack<BuiltCase>, expressions: &mut Stack<Built>) -> Result<(), BuildFault>
    ensures { Gives (spec.arm (cases.old, expressions.old)) result (cases.new, expressions.new) }
{
    let (test, value) = pop_two(expressions)?;
    let mut case = cases.pop()?;
    let depth = deepest(case.depth, deepest(test.depth, value.depth));
    case.arms.push(CaseArm {
        test: test.tree.into_inner(),
        value: value.tree.into_inner(),
    })?;
    cases.push(BuiltCase {
        arms: case.arms,
        depth,
        at: case.at,
    })
}

pub fn end_case(
    alloc: Global,
    optional: &mut Stack<BuiltOptional>,
    cases: &mut Stack<BuiltCase>,
    expressions: &mut Stack<Built>,
) -> Result<(), BuildFault>
    ensures { Gives (spec.end_case (optional.old, cases.old, expressions.old)) result (optional.new, cases.new, expressions.new) }
{
    let otherwise = optional.pop()?;
    let case = cases.pop()?;
    let depth = deeper(case.depth, otherwise.depth)?;
    let kind = ExpressionKind::Case {
        arms: case.arms,
        otherwise: otherwise.tree,
    };
    put(alloc, expressions, case.at, kind, depth)
}

pub fn call(
    alloc: Global,
    places: &mut Stack<u32>,
    expressions: &mut Stack<Built>,
    lists: &mut Stack<BuiltList>,
    function: Function,
) -> Result<(), BuildFault>
    ensures { Gives (spec.call function (places.old, expressions.old, lists.old)) result (places.new, expressions.new, lists.new) }
{
    let list = lists.pop()?;
    let at = places.pop()?;
    let depth = deeper(list.depth, 0)?;
    let kind = ExpressionKind::Call(function, list.trees);
    put(alloc, expressions, at, kind, depth)
}

pub fn substring(
    alloc: Global,
    places: &mut Stack<u32>,
    expressions: &mut Stack<Built>,
) -> Result<(), BuildFault>
    ensures { Gives (spec.substring (places.old, expressions.old)) result (places.new, expressions.new) }
{
    let (text, start) = pop_two(expressions)?;
    let at = places.pop()?;
    let depth = deeper(text.depth, start.depth)?;
    let kind = ExpressionKind::Substring {
        text: text.tree,
        start: start.tree,
        count: None,
    };
    put(alloc, expressions, at, kind, depth)
}

pub fn substring_for(
    alloc: Global,
    places: &mut Stack<u32>,
    expressions: &mut Stack<Built>,
) -> Result<(), BuildFault>
    ensures { Gives (spec.substring_for (places.old, expressions.old)) result (places.new, expressions.new) }
{
    let (start, count) = pop_two(expressions)?;
    let text = expressions.pop()?;
    let at = places.pop()?;
    let depth = deeper(text.depth, deepest(start.depth, count.depth))?;
    let kind = ExpressionKind::Substring {
        text: text.tree,
        start: start.tree,
        count: Some(count.tree),
    };
    put(alloc, expressions, at, kind, depth)
}

pub fn trim(
    alloc: Global,
    places: &mut Stack<u32>,
    forms: &mut Stack<TrimForm>,
    expressions: &mut Stack<Built>,
) -> Result<(), BuildFault>
    ensures { Gives (spec.trim (places.old, forms.old, expressions.old)) result (places.new, forms.new, expressions.new) }
{
    let text = expressions.pop()?;
    let form = forms.pop()?;
    let at = places.pop()?;
    let depth = deeper(text.depth, 0)?;
    let kind = ExpressionKind::Trim {
        form,
        character: None,
        text: text.tree,
    };
    put(alloc, expressions, at, kind, depth)
}

pub fn trim_character(
    alloc: Global,
    places: &mut Stack<u32>,
    forms: &mut Stack<TrimForm>,
    expressions: &mut Stack<Built>,
) -> Result<(), BuildFault>
    ensures { Gives (spec.trim_character (places.old, forms.old, expressions.old)) result (places.new, forms.new, expressions.new) }
{
    let (character, text) = pop_two(expressions)?;
    let form = forms.pop()?;
    let at = places.pop()?;
    let depth = deeper(character.depth, text.depth)?;
    let kind = ExpressionKind::Trim {
        form,
        character: Some(character.tree),
        text: text.tree,
    };
    put(alloc, expressions, at, kind, depth)
}

pub fn extract(
    alloc: Global,
    places: &mut Stack<u32>,
    fields: &mut Stack<DateField>,
    expressions: &mut Stack<Built>,
) -> Result<(), BuildFault>
    ensures { Gives (spec.extract (places.old, fields.old, expressions.old)) result (places.new, fields.new, expressions.new) }
{
    let operand = expressions.pop()?;
    let field = fields.pop()?;
    let at = places.pop()?;
    let depth = deeper(operand.depth, 0)?;
    let kind = ExpressionKind::Extract(field, operand.tree);
    put(alloc, expressions, at, kind, depth)
}

pub fn count_rows(
    alloc: Global,
    places: &mut Stack<u32>,
    expressions: &mut Stack<Built>,
) -> Result<(), BuildFault>
    ensures { Gives (spec.count_rows (places.old, expressions.old)) result (places.new, expressions.new) }
{
    let at = places.pop()?;
    put(alloc, expressions, at, ExpressionKind::CountRows, 1)
}

pub fn aggregate(
    alloc: Global,
    places: &mut Stack<u32>,
    flags: &mut Stack<bool>,
    expressions: &mut Stack<Built>,
    function: Aggregate,
) -> Result<(), BuildFault>
    ensures { Gives (spec.aggregate function (places.old, flags.old, expressions.old)) result (places.new, flags.new, expressions.new) }
{
    let operand = expressions.pop()?;
    let distinct = flags.pop()?;
    let at = places.pop()?;
    let depth = deeper(operand.depth, 0)?;
    let kind = ExpressionKind::Aggregate {
        function,
        distinct,
        operand: operand.tree,
    };
    put(alloc, expressions, at, kind, depth)
}
