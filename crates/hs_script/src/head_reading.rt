// The first group of a slot as it is read.
ghost use Rattle.std.specs.Prelude.{◌≡◌, ◌↔◌, IsTrue};
ghost use Rattle.hs_valuetext.specs.Finding.{Finds, Knows};
ghost use Rattle.hs_script.specs.Heads.{last_text, IsHead, IsHeadText, IsCountAt, IsControlAt};

use crate::head::{Head, MOST_CHANGES, MOST_PAGES};
use hs_base::CommitNo;
use hs_claims::ControlKind;
use hs_rowtext::read_number;
use hs_valuetext::behind;

/// The number behind this front, and what is behind it.
fn read_count<'a>(text: &'a str, front: &str) -> Option<(u64, &'a str)>
    ensures { Finds (λ n. n) (IsCountAt front.now text.now) result }
{
    match behind(text, front) {
        Some(digits) => read_number(digits),
        None => None,
    }
}

/// The model, and what is behind it and the next line's first word.
fn read_control(text: &str) -> Option<(ControlKind, &str)>
    ensures { Finds (λ k. k) (IsControlAt text.now) result }
{
    if let Some(rest) = behind(text, "\nCONTROL LOCKS\nLEVEL ") {
        return Some((ControlKind::Locks, rest));
    }
    if let Some(rest) = behind(text, "\nCONTROL MVLOCKS\nLEVEL ") {
        return Some((ControlKind::MvLocks, rest));
    }
    match behind(text, "\nCONTROL MVCC\nLEVEL ") {
        Some(rest) => Some((ControlKind::Mvcc, rest)),
        None => None,
    }
}

/// Whether the level is SERIALIZABLE whose words, with a line feed behind them, are all of the text.
fn read_last(text: &str) -> Option<bool>
    ensures { Knows (λ s. s) (λ s. last_text s ≡ text.now) result }
{
    if text == "SERIALIZABLE\n" {
        Some(true)
    } else if text == "READ COMMITTED\n" {
        Some(false)
    } else {
        None
    }
}

impl Head {
    /// Whether a slot may say so: no more commits than changes, of these at most 2^48, and at most 2^50 pages.
    pub fn is_lawful(&self) -> bool
        ensures { IsTrue result ↔ IsHead self.now }
    {
        self.commits.0 <= self.changes && self.changes <= MOST_CHANGES && self.pages <= MOST_PAGES
    }
}

/// The head whose text this is. None exactly where there is none: where the text is written otherwise, or there are more commits
/// than changes, more than 2^48 changes, or more than 2^50 pages. There is never more than one. Takes no memory.
pub fn read_head(text: &str) -> Option<Head>
    ensures { Knows (λ h. h) (IsHeadText text.now) result }
{
    let Some((commits, after_commits)) = read_count(text, "FORMAT 1\nCOMMITS ") else {
        return None;
    };
    let Some((changes, after_changes)) = read_count(after_commits, "\nCHANGES ") else {
        return None;
    };
    let Some((pages, after_pages)) = read_count(after_changes, "\nPAGES ") else {
        return None;
    };
    let Some((control, after_control)) = read_control(after_pages) else {
        return None;
    };
    let Some(serializable) = read_last(after_control) else {
        return None;
    };
    let head = Head {
        commits: CommitNo(commits),
        changes,
        pages,
        control,
        serializable,
    };
    if head.is_lawful() { Some(head) } else { None }
}
