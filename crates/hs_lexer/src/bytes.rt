// What the bytes of a text are good for.
ghost use Rattle.std.specs.Prelude.{◌≡◌, ◌<◌, ◌≤◌, true, length, drop};
ghost use Rattle.std.specs.List.{prefix_len};
ghost use Rattle.hs_lexer.specs.Bytes as spec;

#[inline(always)]
pub fn is_white(b: u8) -> bool
    ensures { result ≡ spec.is_white b }
{
    b == 9 || b == 10 || b == 12 || b == 13 || b == 32
}

#[inline(always)]
fn is_letter(b: u8) -> bool
    ensures { result ≡ spec.is_letter b }
{
    65 <= b && b <= 90 || 97 <= b && b <= 122
}

#[inline(always)]
pub fn is_digit(b: u8) -> bool
    ensures { result ≡ spec.is_digit b }
{
    48 <= b && b <= 57
}

#[inline(always)]
pub fn begins_word(b: u8) -> bool
    ensures { result ≡ spec.begins_word b }
{
    is_letter(b) || b == 95
}

#[inline(always)]
fn is_in_word(b: u8) -> bool
    ensures { result ≡ spec.is_in_word b }
{
    is_letter(b) || is_digit(b) || b == 95
}

#[inline(always)]
pub fn is_control(b: u8) -> bool
    ensures { result ≡ spec.is_control b }
{
    b < 32 || b == 127
}

#[inline(always)]
fn is_in_line(b: u8) -> bool
    ensures { result ≡ spec.is_in_line b }
{
    !(b == 10)
}

#[inline(always)]
pub fn is_single(b: u8) -> bool
    ensures { result ≡ spec.is_single b }
{
    b == 40
        || b == 41
        || b == 44
        || b == 46
        || b == 42
        || b == 43
        || b == 45
        || b == 47
        || b == 61
        || b == 60
        || b == 62
        || b == 59
}

#[inline(always)]
pub fn is_pair(b: u8, c: u8) -> bool
    ensures { result ≡ spec.is_pair b c }
{
    b == 60 && c == 62
        || b == 33 && c == 61
        || b == 60 && c == 61
        || b == 62 && c == 61
        || b == 124 && c == 124
}

#[inline(always)]
pub fn begins_symbol(b: u8) -> bool
    ensures { result ≡ spec.begins_symbol b }
{
    is_single(b) || b == 33 || b == 124
}

/// Whether this byte stands at the place.
#[inline(always)]
pub fn stands_at(a: u8, at: usize, bytes: &[u8]) -> bool
    ensures value { result ≡ spec.begins_with a (drop at bytes.now) }
    ensures within { result ≡ true → at < length bytes.now }
{
    match bytes.get(at) {
        Some(b) => *b == a,
        None => false,
    }
}

/// Whether a digit stands at the place.
#[inline(always)]
pub fn digit_at(at: usize, bytes: &[u8]) -> bool
    ensures value { result ≡ spec.begins_digit (drop at bytes.now) }
    ensures within { result ≡ true → at < length bytes.now }
{
    match bytes.get(at) {
        Some(b) => is_digit(*b),
        None => false,
    }
}

/// How many bytes of a word, from the front.
pub fn word_len(bytes: &[u8]) -> usize
    ensures value { result ≡ prefix_len spec.is_in_word bytes.now }
    ensures within { result ≤ length bytes.now }
{
    for (at, b) in bytes.iter().enumerate() {
        if !is_in_word(*b) {
            return at;
        }
    }
    bytes.len()
}

/// How many digits, from the front.
pub fn digits_len(bytes: &[u8]) -> usize
    ensures value { result ≡ prefix_len spec.is_digit bytes.now }
    ensures within { result ≤ length bytes.now }
{
    for (at, b) in bytes.iter().enumerate() {
        if !is_digit(*b) {
            return at;
        }
    }
    bytes.len()
}

/// How many bytes up to the end of the line.
pub fn line_len(bytes: &[u8]) -> usize
    ensures value { result ≡ prefix_len spec.is_in_line bytes.now }
    ensures within { result ≤ length bytes.now }
{
    for (at, b) in bytes.iter().enumerate() {
        if !is_in_line(*b) {
            return at;
        }
    }
    bytes.len()
}
