// Settings of a database, as they are written.
ghost use Rattle.std.specs.Prelude.{◌≡◌, ◌++◌, OnOk};
ghost use Rattle.hs_valuetext.specs.Finding.{Knows};
ghost use Rattle.hs_shorttext.specs.Settings.{control_text, level_text};

use hs_base::NoMemory;
use hs_plan::TransactionControl;
use hs_values::Chars;

/// Adds the word of a model.
pub(crate) fn print_model(control: TransactionControl, out: &mut Chars) -> Result<(), NoMemory>
    ensures { OnOk result (out.new ≡ out.old ++ control_text control) }
{
    match control {
        TransactionControl::Locks => Ok(out.push_text("LOCKS")?),
        TransactionControl::MvLocks => Ok(out.push_text("MVLOCKS")?),
        TransactionControl::Mvcc => Ok(out.push_text("MVCC")?),
    }
}

/// Adds the words of a level, which is SERIALIZABLE or else READ COMMITTED.
pub(crate) fn print_level_words(serializable: bool, out: &mut Chars) -> Result<(), NoMemory>
    ensures { OnOk result (out.new ≡ out.old ++ level_text serializable) }
{
    if serializable {
        Ok(out.push_text("SERIALIZABLE")?)
    } else {
        Ok(out.push_text("READ COMMITTED")?)
    }
}

/// The model whose word is all of the text.
pub(crate) fn read_model(text: &str) -> Option<TransactionControl>
    ensures { Knows (λ c. c) (λ c. control_text c ≡ text.now) result }
{
    if text == "LOCKS" {
        Some(TransactionControl::Locks)
    } else if text == "MVLOCKS" {
        Some(TransactionControl::MvLocks)
    } else if text == "MVCC" {
        Some(TransactionControl::Mvcc)
    } else {
        None
    }
}

/// Whether the level is SERIALIZABLE whose words are all of the text.
pub(crate) fn read_level_words(text: &str) -> Option<bool>
    ensures { Knows (λ s. s) (λ s. level_text s ≡ text.now) result }
{
    if text == "SERIALIZABLE" {
        Some(true)
    } else if text == "READ COMMITTED" {
        Some(false)
    } else {
        None
    }
}
