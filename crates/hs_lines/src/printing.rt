// The texts of lines.
ghost use Rattle.std.specs.Prelude.{◌≡◌, ◌<◌, ◌++◌, ◌&&◌, [], not, length, IfOk, OnOk, codes, if◌then◌else◌};
ghost use Rattle.std.specs.Fmt.{decimal};
ghost use Rattle.std.specs.Option.{option_map};
ghost use Rattle.hs_claims.specs.Blockers.{has};
ghost use Rattle.hs_claims.specs.Session.{IsSession};
ghost use Rattle.hs_turns.specs.Lines.{OpenedAt, ClosedAt, committed_text, line_text, listed, words_text};
ghost use Rattle.hs_lines.specs.Names.{name_in};
ghost use Rattle.hs_lines.specs.Told.{behind, line_at, lines_of, sessions_in, words_of};

use crate::names::Names;
use crate::told::Told;
use crate::words::Words;
use hs_base::{CommitNo, SessionNo};
use hs_claims::Blockers;
use itoa::Buffer;
use std::alloc::AllocError;

/// Adds the first line of a transcript, with its line feed, of a database with so many commits. An `Err` is want of
/// memory, and then a part of the line may be there.
pub fn print_opened(commits: CommitNo, out: &mut Vec<u8>) -> Result<(), AllocError>
    ensures { OnOk result (out.new.items ≡ out.old.items ++ (line_text (OpenedAt commits.0) ++ codes "\n")) }
{
    out.extend_from_slice(b"opened at ")?;
    push_number(commits.0, out)?;
    out.extend_from_slice(b"\n")
}

/// Adds the last line of a transcript, with its line feed, of a database with so many commits. An `Err` is want of
/// memory, and then a part of the line may be there.
pub fn print_closed(commits: CommitNo, out: &mut Vec<u8>) -> Result<(), AllocError>
    ensures { OnOk result (out.new.items ≡ out.old.items ++ (line_text (ClosedAt commits.0) ++ codes "\n")) }
{
    out.extend_from_slice(b"closed at ")?;
    push_number(commits.0, out)?;
    out.extend_from_slice(b"\n")
}

impl Told {
    /// Adds the line at a place among those that it is, counted from 0, with its line feed. An `Err` is want of memory,
    /// and then a part of the line may be there.
    pub fn print_line(&self, at: usize, names: &Names, out: &mut Vec<u8>) -> Result<(), AllocError>
        requires { at < length (lines_of names.now self.now) }
        ensures { OnOk result (out.new.items ≡ out.old.items ++ (line_text (line_at names.now self.now at) ++ codes "\n")) }
    {
        match self {
            Told::Nothing => Ok(()),
            Told::OfEntry {
                number,
                session,
                words,
            } => {
                push_item(*number, names.name(*session), out)?;
                push_words(names, &words[at], out)?;
                out.extend_from_slice(b"\n")
            }
            Told::Bad { number } => push_refused(*number, "-", "entry", out),
            Told::TooLong { number } => push_refused(*number, "-", "too long", out),
            Told::TooManySessions { number, session } => {
                push_refused(*number, session.as_str(), "sessions", out)
            }
            Told::EndOf(session) => {
                push_end(names.name(*session), out)?;
                out.extend_from_slice(b"\n")
            }
        }
    }
}

fn push_number(number: u64, out: &mut Vec<u8>) -> Result<(), AllocError>
    ensures { OnOk result (out.new.items ≡ out.old.items ++ decimal number) }
{
    let mut buffer = Buffer::new();
    out.extend_from_slice(buffer.format(number).as_bytes())
}

// The number of an item, and the name of its session.
fn push_item(number: u64, session: &str, out: &mut Vec<u8>) -> Result<(), AllocError>
    ensures { OnOk result (out.new.items ≡ out.old.items ++ (decimal number ++ codes " " ++ session.now ++ codes ": ")) }
{
    push_number(number, out)?;
    out.extend_from_slice(b" ")?;
    out.extend_from_slice(session.as_bytes())?;
    out.extend_from_slice(b": ")
}

fn push_refused(number: u64, session: &str, why: &str, out: &mut Vec<u8>) -> Result<(), AllocError>
    ensures { OnOk result (out.new.items ≡ out.old.items ++ (decimal number ++ codes " " ++ session.now ++ codes ": " ++ (codes "refused " ++ why.now) ++ codes "\n")) }
{
    push_item(number, session, out)?;
    out.extend_from_slice(b"refused ")?;
    out.extend_from_slice(why.as_bytes())?;
    out.extend_from_slice(b"\n")
}

fn push_end(session: &str, out: &mut Vec<u8>) -> Result<(), AllocError>
    ensures { OnOk result (out.new.items ≡ out.old.items ++ (codes "end " ++ session.now ++ codes ": rolled back")) }
{
    out.extend_from_slice(b"end ")?;
    out.extend_from_slice(session.as_bytes())?;
    out.extend_from_slice(b": rolled back")
}

fn push_words(names: &Names, words: &Words, out: &mut Vec<u8>) -> Result<(), AllocError>
    ensures { OnOk result (out.new.items ≡ out.old.items ++ words_text (words_of names.now words.now)) }
{
    match words {
        Words::Row(text) => out.extend_from_slice(text.as_str().as_bytes()),
        Words::Reply { text, commit } => {
            out.extend_from_slice(text.as_str().as_bytes())?;
            push_commit(*commit, out)
        }
        Words::First(commit) => {
            out.extend_from_slice(b"first")?;
            push_commit(Some(*commit), out)
        }
        Words::WaitsFor(sessions) => {
            out.extend_from_slice(b"waits for ")?;
            push_names(names, *sessions, out)
        }
    }
}

fn push_commit(commit: Option<CommitNo>, out: &mut Vec<u8>) -> Result<(), AllocError>
    ensures { OnOk result (out.new.items ≡ out.old.items ++ committed_text (option_map (λ c. c.0) commit)) }
{
    match commit {
        Some(commit) => {
            out.extend_from_slice(b" committed ")?;
            push_number(commit.0, out)
        }
        None => Ok(()),
    }
}

// The names of sessions, with a comma and a space between them.
fn push_names(names: &Names, sessions: Blockers, out: &mut Vec<u8>) -> Result<(), AllocError>
    ensures { OnOk result (out.new.items ≡ out.old.items ++ listed (sessions_in names.now sessions)) }
{
    let mut is_first = true;
    for s in 0..names.len() as u32 {
        is_first = push_if(names, sessions, SessionNo(s + 1), is_first, out)?;
    }
    Ok(())
}

// The name of one more session, if it is among them, and whether none was there yet.
fn push_if(
    names: &Names,
    sessions: Blockers,
    session: SessionNo,
    is_first: bool,
    out: &mut Vec<u8>,
) -> Result<bool, AllocError>
    requires { IsSession session.0 }
    ensures more { OnOk result (out.new.items ≡ out.old.items ++ (if has sessions session.0 then behind is_first ++ name_in names.now session.0 else [])) }
    ensures first { IfOk result (λ none. none ≡ (is_first && not (has sessions session.0))) }
{
    if !sessions.has(session) {
        return Ok(is_first);
    }
    if !is_first {
        out.extend_from_slice(b", ")?;
    }
    out.extend_from_slice(names.name(session).as_bytes())?;
    Ok(false)
}
