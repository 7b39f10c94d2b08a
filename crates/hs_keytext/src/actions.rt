// Actions of foreign keys as they are read.
ghost use Rattle.std.specs.Prelude.{◌≡◌, []};
ghost use Rattle.hs_valuetext.specs.Finding.{Finds, Knows};
ghost use Rattle.hs_keytext.specs.ForeignKeys.{IsActionBehind, AreActions};

use hs_plan::ReferentialAction;
use hs_valuetext::behind;

/// The action at the front, and what is behind it.
fn read_action(text: &str) -> Option<(ReferentialAction, &str)>
    ensures { Finds (λ a. a) (IsActionBehind [] text.now) result }
{
    if let Some(rest) = behind(text, "NO ACTION") {
        return Some((ReferentialAction::NoAction, rest));
    }
    if let Some(rest) = behind(text, "RESTRICT") {
        return Some((ReferentialAction::Restrict, rest));
    }
    if let Some(rest) = behind(text, "CASCADE") {
        return Some((ReferentialAction::Cascade, rest));
    }
    if let Some(rest) = behind(text, "SET NULL") {
        return Some((ReferentialAction::SetNull, rest));
    }
    match behind(text, "SET DEFAULT") {
        Some(rest) => Some((ReferentialAction::SetDefault, rest)),
        None => None,
    }
}

/// The action behind this text, and what is behind it.
fn read_action_behind<'a>(text: &'a str, front: &str) -> Option<(ReferentialAction, &'a str)>
    ensures { Finds (λ a. a) (IsActionBehind front.now text.now) result }
{
    match behind(text, front) {
        Some(inner) => read_action(inner),
        None => None,
    }
}

/// The actions of deletions and of updates, which are all of the text.
pub(crate) fn read_actions(text: &str) -> Option<(ReferentialAction, ReferentialAction)>
    ensures { Knows (λ p. p) (AreActions text.now) result }
{
    match read_action_behind(text, " ON DELETE ") {
        Some((on_delete, updated)) => match read_action_behind(updated, " ON UPDATE ") {
            Some((on_update, rest)) => {
                if rest.is_empty() {
                    Some((on_delete, on_update))
                } else {
                    None
                }
            }
            None => None,
        },
        None => None,
    }
}
