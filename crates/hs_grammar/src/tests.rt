// Sentences and faults of two small grammars, as one finds them by hand.
mod expression;
mod settings;

use crate::{Fault, Item, Tables, recognise};
use std::alloc::{AllocError, Global};
use std::test::Fail;

const EXPRESSION_TOKENS: &str = "USFN()O+*1I";

const EXPRESSION_MARKS: &str = "usoampvciq";

// A text of SELECT, FROM, UNION, ORDER, INTERVAL, names, numbers and symbols, and its items, its marks in small letters.
const EXPRESSIONS: &str = "\
S1FN|S1vFNs
S1+1*NFN|S1v+1v*NcmaFNs
S1*1+1FN|S1v*1vm+1vaFNs
S(1)FN|S(1v)FNs
S(S1FN)FN|S(S1vFNs)qFNs
S((S1FN))FN|S((S1vFNs))qFNs
S((S1FN)+1)FN|S((S1vFNs)q+1va)FNs
S((S1FN)US1FN)FN|S((S1vFNs)US1vFNsu)qFNs
S(S1FNO1)FN|S(S1vFNsO1vo)qFNs
S((S1FN)O1)FN|S((S1vFNs)O1vo)qFNs
S((S1FNO1))FN|S((S1vFNsO1vo)q)FNs
(S1FN)US1FN|(S1vFNs)US1vFNsu
S1+I1FN|S1v+I1iFNs
S1*N+I1*1FN|S1v*Nc+I1im*1vmFNs
S++1FN|at 2
S1++1FN|S1v++1vpaFNs
S(+1+I1)FN|S(+1v+I1ip)FNs
S((S1FN)+I1)FN|S((S1vFNs)q+I1i)FNs
|at 0
S|at 1
SI|at 1
S1F|at 3
S1FNN|at 4
S1+IFN|at 4
S(+I1)FN|at 3
S1++I1|at 4
S+I|at 2
S(S1FN)|at 7
S((S1FNO1)U|at 10
S((S1FN)FN|at 8
(1|at 1
(S1FN)+I|at 6
S1FN+|at 4
";

const SETTING_TOKENS: &str = "01234(),DLCUHBSAF";

const SETTING_MARKS: &str = "pnszoc";

// A text of DECIMAL, DELAY, COMMITTED, UNCOMMITTED, CHAR, BLOB, SET, AND, FALSE, numbers and symbols, and its items.
const SETTINGS: &str = "\
D|Dn
D(2)|D(2pz)
D(3,2)|D(3p,2s)
D(3,3)|D(3p,3s)
D(1,0)|D(1p,0s)
D(4,4),D(1,1),D|D(4p,4s),D(1p,1s),Dn
D(3,4)|at 4
D(4,1),D(1,2)|at 11
D(0)|at 2
D(3,2|at 5
D?|at 1
?|at 0
H|not offered 0
D,B(1)|not offered 2
D,A|at 2
SLF|SLFo
SCc|at 2
SC|SCc
SU|not offered 1
SL|at 2
SL3|not offered 2
SLS|not offered 2
SLSA|not offered 2
SLU|not offered 2
SLFF|at 3
SA|at 1
SAL|at 1
DSA|at 1
SL?|at 2
";

fn read_expression(alloc: Global, classes: &[u8]) -> Result<Vec<Item>, Fault> {
    let tables = Tables {
        rows: &expression::ROWS,
        productions: &expression::PRODUCTIONS,
        symbols: &expression::SYMBOLS,
        views: &expression::VIEWS,
    };
    recognise(alloc, &tables, classes)
}

fn read_setting(alloc: Global, classes: &[u8]) -> Result<Vec<Item>, Fault> {
    let tables = Tables {
        rows: &settings::ROWS,
        productions: &settings::PRODUCTIONS,
        symbols: &settings::SYMBOLS,
        views: &settings::VIEWS,
    };
    recognise(alloc, &tables, classes)
}

// A token's class is its place among the letters, from 1.
fn classes_of(alloc: Global, letters: &str, text: &str) -> Result<Vec<u8>, AllocError> {
    let mut classes = Vec::new(alloc);
    for c in text.chars() {
        let place = letters
            .chars()
            .position(|letter| letter == c)
            .map_or(0, |k| k as u64 + 1);
        classes.push(u8::try_from(place).unwrap_or(0))?;
    }
    Ok(classes)
}

fn printed(
    alloc: Global,
    tokens: &str,
    marks: &str,
    answer: Result<Vec<Item>, Fault>,
) -> Result<String, Fail> {
    match answer {
        Ok(items) => {
            let mut text = String::new(alloc);
            for item in &items {
                let letter = match item {
                    Item::Token(class) => tokens.chars().nth((*class as usize).saturating_sub(1)),
                    Item::Mark(mark) => marks.chars().nth(*mark as usize),
                };
                text.push(letter.unwrap_or('?'))?;
            }
            Ok(text)
        }
        Err(Fault::At(place)) => Ok(format!(in alloc; "at {place}")?),
        Err(Fault::NotOffered(place)) => Ok(format!(in alloc; "not offered {place}")?),
        Err(Fault::NoMemory) => Ok(format!(in alloc; "no memory")?),
    }
}

#[test]
fn reads_expressions(rt: HostRuntime) -> Result<(), Fail> {
    for line in EXPRESSIONS.lines() {
        let (text, want) = line.split_once('|').unwrap_or((line, ""));
        let classes = classes_of(rt.alloc(), EXPRESSION_TOKENS, text)?;
        let found = printed(
            rt.alloc(),
            EXPRESSION_TOKENS,
            EXPRESSION_MARKS,
            read_expression(rt.alloc(), &classes),
        )?;
        assert_eq!(rt; found.as_str(), want, "{line}");
    }
    Ok(())
}

#[test]
fn reads_settings(rt: HostRuntime) -> Result<(), Fail> {
    for line in SETTINGS.lines() {
        let (text, want) = line.split_once('|').unwrap_or((line, ""));
        let classes = classes_of(rt.alloc(), SETTING_TOKENS, text)?;
        let found = printed(
            rt.alloc(),
            SETTING_TOKENS,
            SETTING_MARKS,
            read_setting(rt.alloc(), &classes),
        )?;
        assert_eq!(rt; found.as_str(), want, "{line}");
    }
    Ok(())
}
