// Commits as they are written and read.
ghost use Rattle.std.specs.Prelude.{◌≡◌, ℕ, [], IfOk};
ghost use Rattle.std.specs.List.{All};
ghost use Rattle.hs_committext.specs.Changes.{IsPrintable};
ghost use Rattle.hs_log.specs.CommitText.{IsSession};
ghost use Rattle.hs_schema.specs.Whole.{IsWhole};
ghost use Rattle.hs_valuetext.specs.Finding.{Knows};
ghost use Rattle.hs_log.specs.CommitText as log;
ghost use Rattle.hs_committext.specs.Commits as spec;
ghost use Rattle.hs_committext.specs.Reading.{Reads};

use crate::Conditions;
use crate::changes::read_changes;
use crate::fault::TextFault;
use crate::printing::print_changes;
use hs_base::{NoMemory, SessionNo};
use hs_claims::Claims;
use hs_log::{begin_commit, end_commit, split_commit};
use hs_plan::Changes;
use hs_schema::Catalog;
use hs_sessions::Commit;
use hs_values::{Bytes, Chars};
use std::alloc::{AllocError, Global};

/// The number of the session of the text before.
fn number_of(before: Option<SessionNo>) -> Option<u32>
    ensures { result ≡ spec.number_of before }
{
    match before {
        Some(session) => Some(session.0),
        None => None,
    }
}

/// The text of a commit of this session with these lines of its changes, behind a text of the session before.
fn around(
    alloc: Global,
    before: Option<SessionNo>,
    session: SessionNo,
    lines: &str,
) -> Result<Vec<u8>, AllocError>
    ensures { IfOk result (λ text. text.items ≡ log.commit_text (spec.number_of before) session.0 lines.now) }
{
    let mut text = Vec::new(alloc);
    begin_commit(&mut text, number_of(before), session.0)?;
    text.extend_from_slice(lines.as_bytes())?;
    end_commit(&mut text)?;
    Ok(text)
}

/// The text of a commit, beside this catalogue, which is as it was before it. `before` is the session of the text before, and
/// none stands before the first. The values of its changes are lawful, and the conditions of CHECKs have texts. Of the commit's
/// claims the text says nothing. An `Err` is want of memory.
///
/// Where the commit has a text, this is it, and it is read back (`read_commit`).
pub fn commit_text<C: Conditions>(
    commit: &Commit,
    before: Option<SessionNo>,
    catalog: &Catalog,
    conditions: &C,
) -> Result<Bytes, NoMemory>
    requires { All (IsPrintable (C.wording conditions.now) catalog.now) commit.now.changes }
    ensures text { IfOk result (λ text. text ≡ spec.commit_text (C.wording conditions.now) catalog.now before commit.now.session commit.now.changes) }
    ensures back { IfOk result (λ text. IsWhole catalog.now → IsSession commit.now.session.0 → spec.HaveText (C.wording conditions.now) catalog.now commit.now.changes → spec.IsCommitText (C.wording conditions.now) catalog.now before text commit.now.session commit.now.changes) }
{
    let alloc = catalog.alloc();
    let mut lines = Chars::new(alloc);
    print_changes(commit.changes.as_slice(), catalog, conditions, &mut lines)?;
    let text = around(alloc, before, commit.session, lines.as_str())?;
    Ok(Bytes::from_vec(text))
}

/// The session and the changes whose text this is.
fn read_known<C: Conditions>(
    alloc: Global,
    text: &[u8],
    catalog: &Catalog,
    before: Option<SessionNo>,
    conditions: &C,
) -> Result<Option<(SessionNo, Changes)>, AllocError>
    ensures { IfOk result (λ found. Knows (λ p. p) (λ p. spec.IsCommitText (C.wording conditions.now) catalog.now before text.now p.0 p.1) found) }
{
    let Some((session, lines)) = split_commit(number_of(before), text) else {
        return Ok(None);
    };
    match read_changes(alloc, lines, catalog, conditions)? {
        Some(changes) => Ok(Some((SessionNo(session), changes))),
        None => Ok(None),
    }
}

/// The commit whose text this is, beside this catalogue, which is as it was before it, and behind a text of the session
/// `before`, which is none before the first. It has no claims. There is never more than one. Takes its memory where the
/// catalogue does.
///
/// `Broken`: exactly where there is none. Its session isn't named as it must be, or it has no whole lines before the line
/// `COMMIT`, or those are neither one definition's beside this catalogue nor changes of rows of its tables. That the rows are
/// there, that names of what is made are free, and that what is dropped is there, isn't asked. `NoMemory`: no rule says when.
pub fn read_commit<C: Conditions>(
    text: &[u8],
    catalog: &Catalog,
    before: Option<SessionNo>,
    conditions: &C,
) -> Result<Commit, TextFault>
    ensures read { Reads spec.said (λ p. spec.IsCommitText (C.wording conditions.now) catalog.now before text.now p.0 p.1) result }
    ensures claims { IfOk result (λ c. c.claims ≡ []) }
{
    let alloc = catalog.alloc();
    match read_known(alloc, text, catalog, before, conditions) {
        Ok(Some((session, changes))) => Ok(Commit {
            session,
            changes,
            claims: Claims::new(alloc),
        }),
        Ok(None) => Err(TextFault::Broken),
        Err(_) => Err(TextFault::NoMemory),
    }
}
