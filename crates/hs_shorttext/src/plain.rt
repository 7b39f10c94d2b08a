// Definitions that say nothing of columns, as they are read.
ghost use Rattle.std.specs.Prelude.{◌++◌, codes, IfOk};
ghost use Rattle.hs_valuetext.specs.Finding.{Knows};
ghost use Rattle.hs_shorttext.specs.Plain.{IsPlainText};

use crate::settings::{read_level_words, read_model};
use hs_parttext::read_whole_name;
use hs_plan::Definition;
use hs_valuetext::behind;
use std::alloc::{AllocError, Global};

/// The table that is dropped, whose name is all of the text.
fn read_dropped_table(alloc: Global, text: &str) -> Result<Option<Definition>, AllocError>
    ensures { IfOk result (λ found. Knows (λ d. d) (IsPlainText (codes "DROP TABLE " ++ text.now)) found) }
{
    match read_whole_name(alloc, text)? {
        Some(name) => Ok(Some(Definition::DropTable(name))),
        None => Ok(None),
    }
}

/// The index that is dropped, whose name is all of the text.
fn read_dropped_index(alloc: Global, text: &str) -> Result<Option<Definition>, AllocError>
    ensures { IfOk result (λ found. Knows (λ d. d) (IsPlainText (codes "DROP INDEX " ++ text.now)) found) }
{
    match read_whole_name(alloc, text)? {
        Some(name) => Ok(Some(Definition::DropIndex(name))),
        None => Ok(None),
    }
}

/// The model that is set, whose word is all of the text.
fn read_control(text: &str) -> Option<Definition>
    ensures { Knows (λ d. d) (IsPlainText (codes "SET DATABASE TRANSACTION CONTROL " ++ text.now)) result }
{
    match read_model(text) {
        Some(control) => Some(Definition::SetControl(control)),
        None => None,
    }
}

/// The level that is set, whose words are all of the text.
fn read_level(text: &str) -> Option<Definition>
    ensures { Knows (λ d. d) (IsPlainText (codes "SET DATABASE DEFAULT ISOLATION LEVEL " ++ text.now)) result }
{
    match read_level_words(text) {
        Some(serializable) => Some(Definition::SetDefaultLevel { serializable }),
        None => None,
    }
}

/// What is set, where all of the text says so.
fn read_setting(text: &str) -> Option<Definition>
    ensures { Knows (λ d. d) (IsPlainText (codes "SET DATABASE " ++ text.now)) result }
{
    if let Some(model) = behind(text, "TRANSACTION CONTROL ") {
        return read_control(model);
    }
    match behind(text, "DEFAULT ISOLATION LEVEL ") {
        Some(level) => read_level(level),
        None => None,
    }
}

/// The definition that drops a table or an index, or sets the model of transactions or the default level, whose line is all of
/// the text: `DROP TABLE T`, `DROP INDEX I`, `SET DATABASE TRANSACTION CONTROL m` or
/// `SET DATABASE DEFAULT ISOLATION LEVEL l`. None exactly where there is none: where it is written otherwise, or a name is
/// none. There is never more than one. An `Err` is want of memory.
pub fn read_plain(alloc: Global, text: &str) -> Result<Option<Definition>, AllocError>
    ensures { IfOk result (λ found. Knows (λ d. d) (IsPlainText text.now) found) }
{
    if let Some(table) = behind(text, "DROP TABLE ") {
        return read_dropped_table(alloc, table);
    }
    if let Some(index) = behind(text, "DROP INDEX ") {
        return read_dropped_index(alloc, index);
    }
    match behind(text, "SET DATABASE ") {
        Some(setting) => Ok(read_setting(setting)),
        None => Ok(None),
    }
}
