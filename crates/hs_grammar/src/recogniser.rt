// The exact place of a fault, where the column of a token depends on the token behind it.
ghost use Rattle.std.specs.Prelude.{◌≡◌, ◌<◌, ◌+◌, ℕ, drop, length, MatchResult, Err};
ghost use Rattle.hs_grammar.specs.Grammar.{grammar};
ghost use Rattle.hs_grammar.specs.Check.{Table};
ghost use Rattle.hs_grammar.specs.Answer.{Only, Faulty, Serves};
ghost use Rattle.hs_grammar.specs.Leftmost.{IsLeftmost, HasOneAnswer};
ghost use Rattle.hs_grammar.specs.Stands.{Fails, other_next, place_of, tried};
ghost use Rattle.hs_grammar.specs.declared.types.Fault.TheVariants as Faults;

use crate::machine::{class_at, run, view_of};
use crate::types::{Fault, Item, Tables, View};
use std::alloc::Global;

/// Recognises tokens, given by their classes. The answer is the only sentence of the grammar with these tokens, as its items:
/// the tokens with the marks between them.
///
/// `At` has the first token, by its index, with which no sentence begins any more, or the number of tokens where they are
/// the beginning of a sentence and no sentence. `NotOffered` has it where that token stands in the grammar there, but is
/// refused. `NoMemory` comes only where memory is refused.
///
/// The tables have to pass a test, `checked`, which computes. `table` is what the test needs beside them. The work is in
/// proportion to the tokens, and the stack is a `Vec`. Behind a fault at a token that has a view the tokens up to it are
/// worked through once more.
pub fn recognise(alloc: Global, tables: &Tables<'_>, classes: &[u8]) -> Result<Vec<Item>, Fault>
    ghost table: { Table }
    requires { Serves (grammar tables.now) tables.now.rows.now table }
    ensures { MatchResult result (λ v. Only (grammar tables.now) classes.now v.items) (λ e. Faulty (grammar tables.now) classes.now e) }
{
    match run(alloc, tables, classes) {
        Ok(items) => Ok(items),
        Err(fault) => Err(exact(alloc, tables, classes, fault)),
    }
}

/// The fault, where a fault is known that compares only the column of the next token.
fn exact(alloc: Global, tables: &Tables<'_>, classes: &[u8], fault: Fault) -> Fault
    ghost table: { Table }
    requires serves { Serves (grammar tables.now) tables.now.rows.now table }
    requires fails { Fails (grammar tables.now) classes.now fault }
    ensures { Faulty (grammar tables.now) classes.now result }
{
    let Some(at) = place_of(fault) else {
        return fault;
    };
    let Some(next) = other_next(tables.views, classes, at) else {
        return fault;
    };
    match try_with(alloc, tables, classes, at, next) {
        Ok(_) => return Fault::At(at + 1),
        Err(Fault::NoMemory) => return Fault::NoMemory,
        Err(Fault::At(other)) => {
            if other > at {
                return Fault::At(at + 1);
            }
            return fault;
        }
        Err(Fault::NotOffered(other)) => {
            if other > at {
                return Fault::At(at + 1);
            }
            if other == at {
                return Fault::NotOffered(at);
            }
            return fault;
        }
    }
}

fn place_of(fault: Fault) -> Option<usize>
    ensures { result ≡ place_of fault }
{
    match fault {
        Fault::At(at) => Some(at),
        Fault::NotOffered(at) => Some(at),
        Fault::NoMemory => None,
    }
}

/// A class before which the token at this place would be seen in its other column, 0 for none.
fn other_next(views: &[View], classes: &[u8], at: usize) -> Option<u8>
    ensures { result ≡ other_next views.now (drop at classes.now) }
{
    match classes.get(at) {
        None => None,
        Some(class) => match view_of(views, *class) {
            None => None,
            Some(view) if view.before == class_at(classes, at + 1) => Some(0),
            Some(view) => Some(view.before),
        },
    }
}

/// A run over the tokens up to this place, and one of this class behind them.
fn try_with(
    alloc: Global,
    tables: &Tables<'_>,
    classes: &[u8],
    at: usize,
    next: u8,
) -> Result<Vec<Item>, Fault>
    ghost table: { Table }
    requires serves { Serves (grammar tables.now) tables.now.rows.now table }
    requires in_range { at < length classes.now }
    ensures { MatchResult result (λ v. Only (grammar tables.now) (tried classes.now at next) v.items) (λ e. Fails (grammar tables.now) (tried classes.now at next) e) }
{
    let front = front_with(alloc, classes, at, next)?;
    run(alloc, tables, &front)
}

fn front_with(alloc: Global, classes: &[u8], at: usize, next: u8) -> Result<Vec<u8>, Fault>
    requires { at < length classes.now }
    ensures { MatchResult result (λ v. v.items ≡ tried classes.now at next) (λ e. e ≡ Faults.NoMemory) }
{
    let mut front = Vec::from_slice(alloc, &classes[..at + 1])?;
    if next == 0 {
        return Ok(front);
    }
    match front.push(next) {
        Ok(()) => Ok(front),
        Err(_) => Err(Fault::NoMemory),
    }
}

/// What a grammar's sentences are: those of the ordinary leftmost derivation, step by step from rule 0. Nothing is done.
pub fn law_of_leftmost_derivation(_tables: &Tables<'_>)
    ensures { IsLeftmost (grammar _tables.now) }
{}

/// Tokens spell a sentence, or leave the grammar at one place, and not both. Nothing is done.
pub fn law_of_one_answer(_tables: &Tables<'_>)
    ensures { HasOneAnswer (grammar _tables.now) }
{}
