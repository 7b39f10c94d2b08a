// The tree of a statement's tokens.
ghost use Rattle.std.specs.Prelude.{◌≡◌, ◌≤◌, IfOk, Ok, length};
ghost use Rattle.hs_ast.specs.Depth.{statement_depth_of};
ghost use Rattle.hs_ast.specs.Lawful.{IsLawful};
ghost use Rattle.hs_lexer.specs.Reading.{tokens_of};
ghost use Rattle.hs_parser.specs.Parsed as spec;

use crate::building::build;
use crate::syntax_fault::SyntaxFault;
use hs_ast::Stmt;
use hs_builder::BuildFault;
use hs_grammar::{Fault, Item};
use hs_lexer::{Token, Tokens, written};
use hs_syntax::{classes, recognised};
use std::alloc::Global;

/// The greatest number of parentheses that may be open at one place.
const MOST_OPEN: usize = 1024;

/// The end of a text, as a place.
fn end_of(text: &str) -> u32
    ensures { result ≡ spec.end_of text.now }
{
    if text.len() > 0xffff_ffff {
        0xffff_ffff
    } else {
        text.len() as u32
    }
}

/// The place of a token; of none, the end of the text.
fn place_of(text: &str, tokens: &[Token], at: usize) -> u32
    ensures { result ≡ spec.place_of text.now tokens.now at }
{
    match tokens.get(at) {
        Some(token) => token.start,
        None => end_of(text),
    }
}

/// Whether a piece is one byte, and this one.
fn is_sign(sign: u8, piece: &[u8]) -> bool
    ensures { result ≡ spec.is_sign sign piece.now }
{
    match piece.split_first() {
        Some((b, rest)) => *b == sign && rest.len() == 0,
        None => false,
    }
}

/// How many parentheses are open behind a token.
fn open_behind(text: &str, before: usize, token: Token) -> usize
    requires { before ≤ 1024 }
    ensures { result ≡ spec.open_behind text.now before token }
{
    let piece = written(text, token).as_bytes();
    if is_sign(b'(', piece) {
        before + 1
    } else if is_sign(b')', piece) {
        before.saturating_sub(1)
    } else {
        before
    }
}

/// Whether more than 1,024 parentheses are open behind some token.
fn opens_too_many(text: &str, tokens: &[Token]) -> bool
    ensures { result ≡ spec.opens_too_many text.now 0 tokens.now }
{
    let mut before = 0;
    for token in tokens {
        before = open_behind(text, before, *token);
        if before > MOST_OPEN {
            return true;
        }
    }
    false
}

/// The statement that the tokens of a text are, by the grammar: its tree exactly where they are one.
///
/// `At` has the place of the first token with which no statement begins any more; the text's length, where more tokens are
/// missing. `NotOffered` has it where that token stands there in the grammar as one that isn't offered. `Depth` comes exactly
/// for a statement whose tree, built without a bound, is deeper than 256 or that has more than 1,024 parentheses open at one place,
/// and `NoMemory` only where memory is refused. Where the tokens are those that the lexer reads in this text, the names, numbers and types of the tree
/// are lawful.
#[tactic(auto, using(crate::proofs::Parsing::grown, crate::proofs::Parsing::faulted, crate::proofs::Parsing::read_grown, crate::proofs::Parsing::read_faulted, crate::proofs::Parsing::fits))]
pub fn statement(alloc: Global, text: &str, tokens: &Tokens) -> Result<Stmt, SyntaxFault>
    ensures statement { spec.Read text.now tokens.now result }
    ensures tree { spec.Parsed text.now tokens.now result }
    ensures depth { IfOk result (λ statement. statement_depth_of statement ≤ 256) }
    ensures lawful { tokens_of text.now ≡ Ok tokens.now → IfOk result (λ statement. IsLawful statement) }
{
    let list = tokens.as_slice();
    let classes = classes(alloc, text, list)?;
    match recognised(alloc, classes.as_slice()) {
        Ok(items) => tree(alloc, text, list, items.as_slice()),
        Err(fault) => Err(fault_at(text, list, fault)),
    }
}

/// The fault of the recogniser, with the place of its token.
fn fault_at(text: &str, tokens: &[Token], fault: Fault) -> SyntaxFault
    ensures { result ≡ spec.fault_at text.now tokens.now fault }
{
    match fault {
        Fault::At(at) => SyntaxFault::At(place_of(text, tokens, at)),
        Fault::NotOffered(at) => SyntaxFault::NotOffered(place_of(text, tokens, at)),
        Fault::NoMemory => SyntaxFault::NoMemory,
    }
}

/// The tree of a sentence, unless it or its parentheses are too deep.
fn tree(alloc: Global, text: &str, tokens: &[Token], items: &[Item]) -> Result<Stmt, SyntaxFault>
    ensures { spec.Grown text.now tokens.now items.now result }
{
    if opens_too_many(text, tokens) {
        return Err(SyntaxFault::Depth);
    }
    match build(alloc, text, tokens, items) {
        Ok(statement) => Ok(statement),
        Err(BuildFault::Depth) => Err(SyntaxFault::Depth),
        Err(BuildFault::NoMemory) => Err(SyntaxFault::NoMemory),
    }
}
