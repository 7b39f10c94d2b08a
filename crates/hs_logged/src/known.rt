// The texts of commits that are known to be read as they again.
ghost use Rattle.std.specs.Prelude.{◌≡◌, ◌++◌, Some, IfOk, string_bytes};
ghost use Rattle.std.specs.List.{All};
ghost use Rattle.hs_committext.specs.Changes.{IsPrintable};
ghost use Rattle.hs_committext.specs.Commits as commits;
ghost use Rattle.hs_knowntext.specs.Known.{IsKnown};
ghost use Rattle.hs_log.specs.CommitText as log;
ghost use Rattle.hs_logged.specs.Entered.{IsTextIn};

use hs_base::{NoMemory, SessionNo};
use hs_committext::{Conditions, print_changes};
use hs_log::{begin_commit, end_commit};
use hs_schema::Catalog;
use hs_sessions::Commit;
use hs_values::{Bytes, Chars};
use std::alloc::{AllocError, Global};

/// How many bytes the lines of a commit have room for at first.
const ROOM: usize = 128;

/// How many bytes stand around them at most.
const AROUND: usize = 32;

// The lines of a commit.
fn lines_of<C: Conditions>(
    commit: &Commit,
    catalog: &Catalog,
    conditions: &C,
) -> Result<String, NoMemory>
    requires { All (IsPrintable (C.wording conditions.now) catalog.now) commit.now.changes }
    ensures { IfOk result (λ lines. string_bytes lines ≡ commits.changes_text (C.wording conditions.now) catalog.now commit.now.changes) }
{
    let mut lines = Chars::from_string(String::with_capacity(catalog.alloc(), ROOM)?);
    print_changes(commit.changes.as_slice(), catalog, conditions, &mut lines)?;
    Ok(lines.into_string())
}

// Whether the text before is one of this session.
fn is_of(before: Option<SessionNo>, session: SessionNo) -> bool
    ensures { result ≡ log.is_of (commits.number_of before) session.0 }
{
    match before {
        Some(before) => before.0 == session.0,
        None => false,
    }
}

fn number_of(before: Option<SessionNo>) -> Option<u32>
    ensures { result ≡ commits.number_of before }
{
    match before {
        Some(session) => Some(session.0),
        None => None,
    }
}

// These lines behind the mark of their session. Where there is none they stay where they are in memory.
fn begun(
    alloc: Global,
    before: Option<SessionNo>,
    session: SessionNo,
    lines: String,
) -> Result<Vec<u8>, AllocError>
    ensures { IfOk result (λ text. text.items ≡ log.opening (commits.number_of before) session.0 ++ string_bytes lines) }
{
    if is_of(before, session) {
        return Ok(lines.into_bytes());
    }
    let mut text = Vec::with_capacity(alloc, lines.len().saturating_add(AROUND))?;
    begin_commit(&mut text, number_of(before), session.0)?;
    text.extend_from_slice(lines.as_bytes())?;
    Ok(text)
}

/// The text of a commit that is known to be read as it again.
pub(crate) fn known_text<C: Conditions>(
    commit: &Commit,
    before: Option<SessionNo>,
    catalog: &Catalog,
    conditions: &C,
) -> Result<Bytes, NoMemory>
    requires { IsKnown catalog.now commit.now.session commit.now.changes }
    ensures { IfOk result (λ text. IsTextIn (C.wording conditions.now) catalog.now before commit.now.session commit.now.changes (Some text)) }
{
    let lines = lines_of(commit, catalog, conditions)?;
    let mut text = begun(catalog.alloc(), before, commit.session, lines)?;
    end_commit(&mut text)?;
    Ok(Bytes::from_vec(text))
}
