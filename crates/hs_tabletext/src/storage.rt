// How a table's rows are kept, as it is written and read.
ghost use Rattle.std.specs.Prelude.{◌≡◌, ◌++◌, OnOk};
ghost use Rattle.hs_valuetext.specs.Finding.{Finds};
ghost use Rattle.hs_tabletext.specs.Tables.{create_text, IsCreateAt};

use hs_base::NoMemory;
use hs_plan::Storage;
use hs_values::Chars;
use hs_valuetext::behind;

/// Adds what stands before a table's name.
pub(crate) fn print_create(storage: Storage, out: &mut Chars) -> Result<(), NoMemory>
    ensures { OnOk result (out.new ≡ out.old ++ create_text storage) }
{
    match storage {
        Storage::Memory => Ok(out.push_text("CREATE MEMORY TABLE ")?),
        Storage::Cached => Ok(out.push_text("CREATE CACHED TABLE ")?),
    }
}

/// The storage of a table before whose name a text begins, and what is behind it.
pub(crate) fn read_create(text: &str) -> Option<(Storage, &str)>
    ensures { Finds (λ s. s) (IsCreateAt text.now) result }
{
    if let Some(rest) = behind(text, "CREATE MEMORY TABLE ") {
        return Some((Storage::Memory, rest));
    }
    match behind(text, "CREATE CACHED TABLE ") {
        Some(rest) => Some((Storage::Cached, rest)),
        None => None,
    }
}
