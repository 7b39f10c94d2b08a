// Texts, with the tokens or the fault that they must give. A line is a case, and `¦` parts the text from the answer, in which a
// token is its kind and its places; in the text `~` stands for a line feed and `^` for a vertical tab.
use hs_lexer::{
    LexFault, Token, TokenKind, Tokens, between_quotes, content, name, tokens, written,
};
use std::alloc::{AllocError, Global};
use std::process::Abort;
use std::test::Fail;

const TEXTS: &str = "\
¦
SELECT * FROM T;¦word 0 6, symbol 7 8, word 9 13, word 14 15, symbol 15 16
  A¦word 2 3
_a1$¦bad 3
a--b~c¦word 0 1, word 5 6
a--b;c¦word 0 1
a-- -~-b¦word 0 1, symbol 6 7, word 7 8
a- -b¦word 0 1, symbol 1 2, symbol 3 4, word 4 5
a/* b */c¦word 0 1, word 8 9
a/**/c¦word 0 1, word 5 6
a/*/*/c¦word 0 1, word 6 7
a/* /* */ */¦word 0 1, symbol 10 11, symbol 11 12
a/*/¦open 1
a / *¦word 0 1, symbol 2 3, symbol 4 5
a^b¦bad 1
'a'¦text 0 3
'a''b'¦text 0 6
'a' 'b'¦text 0 3, text 4 7
''¦text 0 2
''''¦text 0 4
'a''¦open 0
x 'a¦open 2
'añb' c¦text 0 6, word 7 8
\"a\"\"b\"¦quoted 0 6
\"\"¦bad 0
\"a¦open 0
x \"a~b\"¦bad 2
U&'a'¦unicode 0 5
U&'a\\\\b'¦unicode 0 8
U&'\\00e9'¦unicode 0 9
U&'x\\00E9y'¦unicode 0 11
U&'\\00e'¦bad 3
U&'a\\x'¦bad 4
U&'\\d800'¦bad 3
U&'\\e000\\dfff'¦bad 8
U&'\\0027''\\'¦bad 10
U&'a¦open 0
u&'a'¦bad 1
U &'a'¦bad 2
U&x¦bad 1
AU&'a'¦bad 2
12¦number 0 2
12.5¦number 0 4
1.¦number 0 1, symbol 1 2
.5¦symbol 0 1, number 1 2
1.2.3¦number 0 3, symbol 3 4, number 4 5
1e5¦number 0 1, word 1 3
99999999999999999999999999999999999999¦number 0 38
999999999999999999999999999999999999999¦wide 0
1234567890123456789.1234567890123456789¦number 0 39
 1234567890123456789.12345678901234567890¦wide 1
<><=>=<>!=||¦symbol 0 2, symbol 2 4, symbol 4 6, symbol 6 8, symbol 8 10, symbol 10 12
=<> <¦symbol 0 1, symbol 1 3, symbol 4 5
(),.*+-/=<>;¦symbol 0 1, symbol 1 2, symbol 2 3, symbol 3 4, symbol 4 5, symbol 5 6, symbol 6 7, symbol 7 8, symbol 8 9, symbol 9 11, symbol 11 12
a!b¦bad 1
a|b¦bad 1
a|||b¦bad 3
é¦bad 0
a # 'b¦bad 2
a?b¦bad 1";

fn kind_of(token: Token) -> &'static str {
    match token.kind {
        TokenKind::Word => "word",
        TokenKind::Quoted => "quoted",
        TokenKind::Number => "number",
        TokenKind::Text => "text",
        TokenKind::UnicodeText => "unicode",
        TokenKind::Symbol => "symbol",
    }
}

fn shown(alloc: Global, found: &Result<Tokens, LexFault>) -> Result<String, Fail> {
    match found {
        Err(LexFault::OpenQuote(at)) => Ok(format!(in alloc; "open {at}")?),
        Err(LexFault::BadChar(at)) => Ok(format!(in alloc; "bad {at}")?),
        Err(LexFault::WideNumber(at)) => Ok(format!(in alloc; "wide {at}")?),
        Err(LexFault::NoMemory) => Ok(format!(in alloc; "memory")?),
        Ok(tokens) => {
            let mut text = String::new(alloc);
            for token in tokens.as_slice() {
                if !text.is_empty() {
                    text.push_str(", ")?;
                }
                let (kind, start, end) = (kind_of(*token), token.start, token.end);
                write!(text, "{kind} {start} {end}")?;
            }
            Ok(text)
        }
    }
}

/// The text of a case.
fn unfolded(alloc: Global, text: &str) -> Result<String, Fail> {
    let mut out = String::new(alloc);
    for c in text.chars() {
        out.push(match c {
            '~' => '\n',
            '^' => '\u{b}',
            c => c,
        })?;
    }
    Ok(out)
}

fn tokens_of(rt: &impl Abort, alloc: Global, text: &str) -> Result<Tokens, LexFault> {
    assert!(rt; text.len() <= 65_536);
    tokens(alloc, text)
}

#[test]
fn texts(rt: HostRuntime) -> Result<(), Fail> {
    for line in TEXTS.lines() {
        let (text, want) = line.split_once('¦').ok_or("no bar")?;
        let text = unfolded(rt.alloc(), text)?;
        let found = tokens_of(&rt, rt.alloc(), text.as_str());
        assert_eq!(rt; shown(rt.alloc(), &found)?.as_str(), want, "{text}");
    }
    Ok(())
}

// A text, and what its tokens say: the name of a word or a quoted name, the content of a text, and what else is written.
const SAYINGS: &str = "\
Select sUm_1 t¦SELECT SUM_1 T
\"a\"\"B\" \"é\"¦a\"B é
'' 'it''s' ''''¦ it's '
U&'a\\0027b' U&'\\\\x' U&'''\\00e9'''¦a'b \\x 'é'
1.50 <> ,¦1.50 <> ,";

fn said_by(alloc: Global, text: &str, token: Token) -> Result<String, AllocError> {
    match token.kind {
        TokenKind::Word | TokenKind::Quoted => name(alloc, text, token),
        TokenKind::Text | TokenKind::UnicodeText => content(alloc, text, token),
        TokenKind::Number | TokenKind::Symbol => String::from_str(alloc, written(text, token)),
    }
}

#[test]
fn sayings(rt: HostRuntime) -> Result<(), Fail> {
    for line in SAYINGS.lines() {
        let (text, want) = line.split_once('¦').ok_or("no bar")?;
        let found = tokens_of(&rt, rt.alloc(), text).ok().ok_or("a fault")?;
        let mut said = String::new(rt.alloc());
        for token in found.as_slice() {
            if token.start > 0 {
                said.push(' ')?;
            }
            said.push_str(said_by(rt.alloc(), text, *token)?.as_str())?;
        }
        assert_eq!(rt; said.as_str(), want, "{text}");
    }
    Ok(())
}

/// The answer to a piece that is repeated.
fn repeated(rt: &impl Abort, alloc: Global, piece: &str, count: u32) -> Result<String, Fail> {
    let mut text = String::new(alloc);
    for _ in 0..count {
        text.push_str(piece)?;
    }
    shown(alloc, &tokens_of(rt, alloc, text.as_str()))
}

#[test]
fn long_names(rt: HostRuntime) -> Result<(), Fail> {
    assert_eq!(rt; repeated(&rt, rt.alloc(), "a", 128)?.as_str(), "word 0 128");
    assert_eq!(rt; repeated(&rt, rt.alloc(), "a", 129)?.as_str(), "bad 0");
    assert_eq!(rt;
        repeated(&rt, rt.alloc(), "\"\"", 129)?.as_str(),
        "quoted 0 258"
    );
    assert_eq!(rt; repeated(&rt, rt.alloc(), "\"\"", 130)?.as_str(), "bad 0");
    let list = tokens_of(&rt, rt.alloc(), "a,b").ok().ok_or("a fault")?;
    assert!(rt; !list.is_empty());
    let mut list = Tokens::from_vec(list.into_vec());
    assert_eq!(rt; list.len(), 3);
    list.push(Token {
        kind: TokenKind::Word,
        start: 3,
        end: 4,
    })?;
    assert_eq!(rt; list.len(), 4);
    let quoted = Token {
        kind: TokenKind::Text,
        start: 1,
        end: 7,
    };
    assert_eq!(rt; between_quotes(" 'a''b' ", quoted), "a''b");
    Ok(())
}
