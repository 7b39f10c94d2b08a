// Whole numbers at the front of a text.
ghost use Rattle.std.specs.Prelude.{◌≡◌, ◌≤◌, length, take, drop};
ghost use Rattle.std.specs.List.{prefix_len};
ghost use Rattle.hs_lexer.specs.Bytes as class;
ghost use Rattle.hs_valuetext.specs.Finding.{Finds};
ghost use Rattle.hs_rowtext.specs.Numbers.{IsNumberAt};

use hs_valuetext::read_unsigned;

fn is_digit(byte: u8) -> bool
    ensures { result ≡ class.is_digit byte }
{
    b'0' <= byte && byte <= b'9'
}

/// How many digits are at the front.
fn digits_len(bytes: &[u8]) -> usize
    ensures value { result ≡ prefix_len class.is_digit bytes.now }
    ensures within { result ≤ length bytes.now }
{
    for (at, byte) in bytes.iter().enumerate() {
        if !is_digit(*byte) {
            return at;
        }
    }
    bytes.len()
}

/// The digits at the front, and the rest.
fn digits(text: &str) -> (&str, &str)
    ensures front { result.0.now ≡ take (prefix_len class.is_digit text.now) text.now }
    ensures rest { result.1.now ≡ drop (prefix_len class.is_digit text.now) text.now }
{
    text.split_at(digits_len(text.as_bytes()))
}

/// The number of 64 bits with whose digits a text begins, and what is behind them. None exactly where there is none: where no
/// digit is at the front, the first of several is a 0, or the number is greater.
pub fn read_number(text: &str) -> Option<(u64, &str)>
    ensures { Finds (λ n. n) (IsNumberAt text.now) result }
{
    let (digits, rest) = digits(text);
    match read_unsigned(digits) {
        Some(number) => Some((number, rest)),
        None => None,
    }
}
