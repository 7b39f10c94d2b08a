// The tree of a sentence: its items, one after another, on stacks of parts.
ghost use Rattle.std.specs.Prelude.{◌≡◌, ◌+◌, ◌-◌, ◌<◌, ◌≤◌, MatchResult, MatchOption, length, slice_get, Some, None};
ghost use Rattle.hs_builder.specs.MarkSteps.{step, no_parts};
ghost use Rattle.hs_parser.specs.Building.{token_at, marked, built, tree_of, Acts, Builds};
ghost use Rattle.hs_builder.specs.Steps.{Gives};

use crate::marks::MARKS;
use hs_ast::Stmt;
use hs_builder::{BuildFault, Mark, Parts};
use hs_grammar::Item;
use hs_lexer::{Token, TokenKind};
use std::alloc::Global;

/// The token at a place of the list; one that is nowhere, past its end.
fn token_in(tokens: &[Token], at: usize) -> Token
    ensures { result ≡ token_at tokens.now at }
{
    match tokens.get(at) {
        Some(token) => *token,
        None => Token {
            kind: TokenKind::Symbol,
            start: 0,
            end: 0,
        },
    }
}

/// The mark with a number, of a list.
fn mark_in(marks: &[Mark], number: u8) -> Option<Mark>
    ensures { result ≡ slice_get marks.now number }
{
    match marks.get(number as usize) {
        Some(mark) => Some(*mark),
        None => None,
    }
}

/// The mark with a number, of those of the grammar.
fn mark_of(number: u8) -> Option<Mark>
    ensures { result ≡ slice_get MARKS number }
{
    mark_in(&MARKS, number)
}

/// The step with a mark, where as many tokens were taken.
fn apply_marked(
    alloc: Global,
    text: &str,
    tokens: &[Token],
    taken: usize,
    mark: Option<Mark>,
    parts: &mut Parts,
) -> Result<(), BuildFault>
    ensures { Gives (marked text.now tokens.now taken mark parts.old) result parts.new }
{
    let Some(mark) = mark else {
        return Err(BuildFault::NoMemory);
    };
    let last = token_in(tokens, taken.saturating_sub(1));
    let here = token_in(tokens, taken).start;
    parts.apply(alloc, text, last, here, mark)
}

/// What an item does where as many tokens were taken, and how many are taken then.
#[tactic(auto, using(crate::proofs::Acting::acted, crate::proofs::Acting::failed))]
fn act(
    alloc: Global,
    text: &str,
    tokens: &[Token],
    taken: usize,
    item: Item,
    parts: &mut Parts,
) -> Result<usize, BuildFault>
    requires { taken < usize.MAX }
    ensures { Acts text.now tokens.now taken item parts.old result parts.new }
{
    match item {
        Item::Token(_) => Ok(taken + 1),
        Item::Mark(number) => {
            apply_marked(alloc, text, tokens, taken, mark_of(number), parts)?;
            Ok(taken)
        }
    }
}

/// The statement that the items of a sentence build of the tokens of a text. `Depth` comes where one of its trees is deeper
/// than 256.
pub fn build(
    alloc: Global,
    text: &str,
    tokens: &[Token],
    items: &[Item],
) -> Result<Stmt, BuildFault>
    ensures { Builds (tree_of text.now tokens.now items.now) result }
{
    let mut parts = Parts::new(alloc);
    let mut taken = 0;
    for item in items {
        taken = act(alloc, text, tokens, taken, *item, &mut parts)?;
    }
    parts.statements.pop()
}
