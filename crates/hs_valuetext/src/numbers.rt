// Whole numbers as they are written.
ghost use Rattle.std.specs.Prelude.{◌≡◌};
ghost use Rattle.hs_valuetext.specs.Finding.{Knows};
ghost use Rattle.hs_valuetext.specs.Values.{IsSigned, IsUnsigned};

use itoa::Buffer;

/// The whole number of 64 bits that is written so, without a `+` or a leading zero.
pub(crate) fn read_signed(text: &str) -> Option<i64>
    ensures { Knows (λ n. n) (IsSigned text.now) result }
{
    let number = match text.parse::<i64>() {
        Ok(number) => number,
        Err(_) => return None,
    };
    let mut buffer = Buffer::new();
    if buffer.format(number) == text {
        Some(number)
    } else {
        None
    }
}

/// The number of 64 bits without a sign that is written so.
pub fn read_unsigned(text: &str) -> Option<u64>
    ensures { Knows (λ n. n) (IsUnsigned text.now) result }
{
    let number = match text.parse::<u64>() {
        Ok(number) => number,
        Err(_) => return None,
    };
    let mut buffer = Buffer::new();
    if buffer.format(number) == text {
        Some(number)
    } else {
        None
    }
}
