// What is said of texts: a tree, or a fault and its place.
mod shape;
mod shape_of_statements;
mod spelling;
mod texts;
mod texts_of_definitions;
mod texts_of_expressions;
mod texts_of_queries;
mod texts_of_statements;

use hs_ast::{Identifier, Literal, Stmt, Word};
use hs_lexer::{LexFault, tokens};
use hs_parser::{SyntaxFault, statement};
use hs_syntax::{is_reserved, law_of_one_reading};
use shape::Shape;
use std::alloc::Global;
use std::process::Abort;
use std::test::Fail;

/// What is said of a tree: that it is one, its shape, or its shape with places.
#[derive(Clone, Copy, Debug)]
enum Manner {
    Bare,
    Shape,
    Placed,
}

fn shown(alloc: Global, tree: &Stmt, manner: Manner) -> Result<String, Fail> {
    let places = match manner {
        Manner::Bare => return Ok(String::from_str(alloc, "tree")?),
        Manner::Shape => false,
        Manner::Placed => true,
    };
    let mut shape = Shape::new(alloc, places);
    shape.statement(tree);
    shape.into_text()
}

fn place_of(fault: LexFault) -> Result<u32, Fail> {
    match fault {
        LexFault::OpenQuote(at) | LexFault::BadChar(at) | LexFault::WideNumber(at) => Ok(at),
        LexFault::NoMemory => Err("no memory for tokens")?,
    }
}

/// What is said of a text. The tree is a copy of the one that is answered, so that copies are tried on every tree.
fn said(alloc: Global, text: &str, manner: Manner) -> Result<String, Fail> {
    if text.len() > 65_536 {
        return Err("too long")?;
    }
    let found = match tokens(alloc, text) {
        Ok(found) => found,
        Err(fault) => {
            let at = place_of(fault)?;
            return Ok(format!(in alloc; "at {at}")?);
        }
    };
    match statement(alloc, text, &found) {
        Ok(tree) => shown(alloc, &tree.copy(alloc)?, manner),
        Err(SyntaxFault::At(at)) => Ok(format!(in alloc; "at {at}")?),
        Err(SyntaxFault::NotOffered(at)) => Ok(format!(in alloc; "not offered at {at}")?),
        Err(SyntaxFault::Depth) => Ok(String::from_str(alloc, "depth")?),
        Err(SyntaxFault::NoMemory) => Err("no memory for a tree")?,
    }
}

/// A line for a text of which something else is said than what is wanted.
fn compared(
    alloc: Global,
    text: &str,
    manner: Manner,
    want: &str,
    wrong: &mut String,
) -> Result<(), Fail> {
    let said = said(alloc, text, manner)?;
    if said.as_str() != want {
        write!(wrong, "{text}\n  wanted {want}\n  {said}\n")?;
    }
    Ok(())
}

/// The lines for a table's texts.
fn wrong_in(alloc: Global, table: &str, manner: Manner) -> Result<String, Fail> {
    let mut wrong = String::new(alloc);
    for line in table.lines() {
        let (text, want) = line.split_once('¦').ok_or("no bar")?;
        compared(alloc, text, manner, want, &mut wrong)?;
    }
    Ok(wrong)
}

#[test]
fn places(rt: HostRuntime) -> Result<(), Fail> {
    for table in [texts::ENTRIES, texts::PLACES] {
        assert_eq!(rt; wrong_in(rt.alloc(), table, Manner::Placed)?.as_str(), "");
    }
    Ok(())
}

#[test]
fn trees(rt: HostRuntime) -> Result<(), Fail> {
    for table in [
        texts::TOKENS,
        texts_of_statements::SESSIONS,
        texts_of_statements::CHANGES,
        texts_of_definitions::DEFINITIONS,
        texts_of_queries::QUERIES,
        texts_of_expressions::OPERATORS,
        texts_of_expressions::BRACKETS,
        texts_of_expressions::FUNCTIONS,
    ] {
        assert_eq!(rt; wrong_in(rt.alloc(), table, Manner::Shape)?.as_str(), "");
    }
    Ok(())
}

/// The lines for words, each between a beginning and an end.
fn wrong_words(
    alloc: Global,
    words: &str,
    (before, behind): (&str, &str),
    want: &str,
) -> Result<String, Fail> {
    let mut wrong = String::new(alloc);
    for word in words.split(' ') {
        let text = format!(in alloc; "{before}{word}{behind}")?;
        compared(alloc, text.as_str(), Manner::Bare, want, &mut wrong)?;
    }
    Ok(wrong)
}

#[test]
fn words(rt: HostRuntime) -> Result<(), Fail> {
    let alloc = rt.alloc();
    let column = ("CREATE TABLE T (", " INTEGER)");
    let qualified = ("SELECT A.", " FROM T");
    assert_eq!(rt;
        wrong_words(alloc, texts::FREE, column, "tree")?.as_str(),
        ""
    );
    assert_eq!(rt;
        wrong_words(alloc, texts::FREE, qualified, "tree")?.as_str(),
        ""
    );
    assert_eq!(rt;
        wrong_words(alloc, texts::RESERVED, qualified, "at 9")?.as_str(),
        ""
    );
    assert_eq!(rt;
        wrong_words(alloc, texts::RESERVED, ("DROP TABLE ", ""), "at 11")?.as_str(),
        ""
    );
    Ok(())
}

fn push_repeated(text: &mut String, piece: &str, count: u32) -> Result<(), Fail> {
    for _ in 0..count {
        text.push_str(piece)?;
    }
    Ok(())
}

/// What stands before the next bar, which is taken away.
fn next_part<'a>(rest: &mut &'a str) -> &'a str {
    let (part, more) = rest.split_once('¦').unwrap_or((*rest, ""));
    *rest = more;
    part
}

/// Of four parts: the beginning, a piece as often as is told, the middle, and a closing piece as often.
fn long_text(alloc: Global, mut parts: &str, count: u32) -> Result<String, Fail> {
    let mut text = String::from_str(alloc, next_part(&mut parts))?;
    push_repeated(&mut text, next_part(&mut parts), count)?;
    text.push_str(next_part(&mut parts))?;
    push_repeated(&mut text, next_part(&mut parts), count)?;
    Ok(text)
}

#[test]
fn long_and_deep(rt: HostRuntime) -> Result<(), Fail> {
    let alloc = rt.alloc();
    let mut wrong = String::new(alloc);
    for line in texts::REPEATED.lines() {
        let mut parts = line;
        let count = next_part(&mut parts).parse::<u32>()?;
        let want = next_part(&mut parts);
        let text = long_text(alloc, parts, count)?;
        compared(alloc, text.as_str(), Manner::Bare, want, &mut wrong)?;
    }
    assert_eq!(rt; wrong.as_str(), "");
    Ok(())
}

#[test]
fn words_are_texts(rt: HostRuntime) -> Result<(), Fail> {
    let word = Word::from_string(String::from_str(rt.alloc(), "añb")?);
    assert_eq!(rt; word.as_str(), "añb");
    assert_eq!(rt; word.copy(rt.alloc())?.into_string().as_str(), "añb");
    let name = Identifier {
        name: Word::from_text(rt.alloc(), "T")?,
        at: 7,
    };
    let copied = name.copy(rt.alloc())?;
    assert_eq!(rt; copied.name.as_str(), "T");
    assert_eq!(rt; copied.at, 7);
    let literal = Literal::Date(word);
    assert!(rt; matches!(&literal.copy(rt.alloc())?, Literal::Date(_)));
    Ok(())
}

#[test]
fn words_are_reserved(rt: HostRuntime) -> Result<(), Fail> {
    for word in ["SELECT", "select", "Float", "TRUE", "INTERVAL"] {
        assert!(rt; is_reserved(word.as_bytes()), "{word}");
    }
    for word in [
        "ACTION", "action", "WORK", "NUMBER", "TYPE", "T", "_SELECT", "",
    ] {
        assert!(rt; !is_reserved(word.as_bytes()), "{word}");
    }
    law_of_one_reading();
    Ok(())
}
