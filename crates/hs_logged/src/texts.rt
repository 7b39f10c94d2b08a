// The text of a commit, where it has one.
ghost use Rattle.std.specs.Prelude.{◌≡◌, ◌↔◌, IsTrue, IfOk};
ghost use Rattle.std.specs.List.{All};
ghost use Rattle.hs_committext.specs.Commits.{IsCommitText, said};
ghost use Rattle.hs_committext.specs.Changes.{IsPrintable};
ghost use Rattle.hs_logged.specs.Entered.{Decides, IsTextIn};
ghost use Rattle.hs_logged.specs.Writable.{IsPlainWording, IsWritable};
ghost use Rattle.hs_sameness.specs.Changes.{IsPlainChange};

use crate::known::known_text;
use crate::lawful::have_lawful_values;
use hs_base::{NoMemory, SessionNo};
use hs_committext::{Conditions, TextFault, commit_text, read_commit};
use hs_knowntext::is_known;
use hs_sameness::same_changes;
use hs_schema::Catalog;
use hs_sessions::Commit;
use hs_values::Bytes;

// Whether a text says the same of both commits.
fn is_said_alike(a: &Commit, b: &Commit) -> bool
    requires { All IsPlainChange a.now.changes }
    ensures { IsTrue result ↔ (said a.now ≡ said b.now) }
{
    a.session.0 == b.session.0 && same_changes(a.changes.as_slice(), b.changes.as_slice())
}

// Whether a text is that of a commit.
fn is_text_of<C: Conditions>(
    text: &[u8],
    commit: &Commit,
    before: Option<SessionNo>,
    catalog: &Catalog,
    conditions: &C,
) -> Result<bool, NoMemory>
    requires { All IsPlainChange commit.now.changes }
    ensures { IfOk result (Decides (IsCommitText (C.wording conditions.now) catalog.now before text.now commit.now.session commit.now.changes)) }
{
    match read_commit(text, catalog, before, conditions) {
        Ok(read) => Ok(is_said_alike(commit, &read)),
        Err(TextFault::Broken) => Ok(false),
        Err(TextFault::NoMemory) => Err(NoMemory),
    }
}

// The text of a commit whose values are lawful.
fn written<C: Conditions>(
    commit: &Commit,
    before: Option<SessionNo>,
    catalog: &Catalog,
    conditions: &C,
) -> Result<Option<Bytes>, NoMemory>
    requires plain { All IsPlainChange commit.now.changes }
    requires printable { All (IsPrintable (C.wording conditions.now) catalog.now) commit.now.changes }
    ensures { IfOk result (IsTextIn (C.wording conditions.now) catalog.now before commit.now.session commit.now.changes) }
{
    let text = commit_text(commit, before, catalog, conditions)?;
    if is_text_of(text.as_slice(), commit, before, catalog, conditions)? {
        Ok(Some(text))
    } else {
        Ok(None)
    }
}

/// The text of a commit, beside this catalogue, which is as it was before it, and behind a text of the session before. None
/// exactly where it has none: what is written of it isn't read as it again. That is tried where it isn't known of its changes. An
/// `Err` is want of memory.
pub(crate) fn text_of<C: Conditions>(
    commit: &Commit,
    before: Option<SessionNo>,
    catalog: &Catalog,
    conditions: &C,
) -> Result<Option<Bytes>, NoMemory>
    requires plain { IsPlainWording (C.wording conditions.now) }
    requires writable { All (IsWritable (C.wording conditions.now) catalog.now) commit.now.changes }
    ensures { IfOk result (IsTextIn (C.wording conditions.now) catalog.now before commit.now.session commit.now.changes) }
{
    if is_known(commit, catalog) {
        let text = known_text(commit, before, catalog, conditions)?;
        return Ok(Some(text));
    }
    if !have_lawful_values(commit.changes.as_slice()) {
        return Ok(None);
    }
    written(commit, before, catalog, conditions)
}
