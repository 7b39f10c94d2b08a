// Values that are assigned to columns.
use crate::written::{halves, type_in, value_in, value_text, word_of};
use hs_casetext::{CaseFault, push_line};
use hs_values::{assign, fits};
use std::alloc::Global;

/// The value as a column of a type stores it, or why it is none of the type's, and whether it fits as it is. Behind a value that
/// was stored though it isn't one of the type's it says so.
pub fn store(alloc: Global, text: &str, to: &mut String) -> Result<(), CaseFault> {
    let (sql_type, value) = halves(text)?;
    let sql_type = type_in(sql_type)?;
    let given = value_in(value)?.to_value(alloc)?;
    let fitting = if fits(&sql_type, &given) {
        "fits"
    } else {
        "doesn't fit"
    };
    let shown = match assign(given, &sql_type) {
        Ok(stored) => {
            let stored = stored.as_value_ref();
            let is_lawful = if stored.fits(&sql_type) {
                ""
            } else {
                ", which is none of the type's"
            };
            let shown = value_text(alloc, stored)?;
            format!(in alloc; "{shown}{is_lawful}, {fitting}")?
        }
        Err(fault) => {
            let fault = word_of(fault)?;
            format!(in alloc; "{fault}, {fitting}")?
        }
    };
    Ok(push_line(to, shown.as_str())?)
}
