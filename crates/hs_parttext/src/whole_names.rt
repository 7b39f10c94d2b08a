// Names that end their text.
ghost use Rattle.std.specs.Prelude.{IfOk};
ghost use Rattle.hs_valuetext.specs.Finding.{Knows};
ghost use Rattle.hs_parttext.specs.Named.{IsWholeName};

use hs_nametext::read_name;
use hs_values::Name;
use std::alloc::{AllocError, Global};

/// The name that is all of the text. None exactly where there is none. There is never more than one. An `Err` is want of memory.
pub fn read_whole_name(alloc: Global, text: &str) -> Result<Option<Name>, AllocError>
    ensures { IfOk result (λ found. Knows (λ n. n) (IsWholeName text.now) found) }
{
    match read_name(alloc, text) {
        Ok(Some((name, rest))) => {
            if rest.is_empty() {
                Ok(Some(Name::from_text(alloc, name.as_str())?))
            } else {
                Ok(None)
            }
        }
        Ok(None) => Ok(None),
        Err(error) => Err(error),
    }
}
