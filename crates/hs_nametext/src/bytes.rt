// What the bytes of a name are good for.
ghost use Rattle.std.specs.Prelude.{◌≡◌, ◌≤◌, length};
ghost use Rattle.std.specs.List.{list_all, prefix_len};
ghost use Rattle.hs_nametext.specs.Names as spec;
ghost use Rattle.hs_valuetext.specs.Texts as texts;

fn is_capital(byte: u8) -> bool
    ensures { result ≡ spec.is_capital byte }
{
    b'A' <= byte && byte <= b'Z'
}

fn is_in_word(byte: u8) -> bool
    ensures { result ≡ spec.is_in_word byte }
{
    is_capital(byte) || b'0' <= byte && byte <= b'9' || byte == b'_'
}

fn is_control(byte: u8) -> bool
    ensures { result ≡ texts.is_control byte }
{
    byte < 32 || byte == 127
}

fn has_control(text: &[u8]) -> bool
    ensures { result ≡ texts.has_control text.now }
{
    text.iter().any(|byte| is_control(*byte))
}

fn are_in_word(bytes: &[u8]) -> bool
    ensures { result ≡ list_all spec.is_in_word bytes.now }
{
    bytes.iter().all(|byte| is_in_word(*byte))
}

/// Whether a text is a capital letter and then capital letters, digits and `_`.
pub(crate) fn is_word(text: &[u8]) -> bool
    ensures { result ≡ spec.is_word text.now }
{
    match text {
        [first, rest @ ..] => is_capital(*first) && are_in_word(rest),
        [] => false,
    }
}

/// How many capital letters, digits and `_` are at the front.
pub(crate) fn word_len(bytes: &[u8]) -> usize
    ensures value { result ≡ prefix_len spec.is_in_word bytes.now }
    ensures within { result ≤ length bytes.now }
{
    for (at, byte) in bytes.iter().enumerate() {
        if !is_in_word(*byte) {
            return at;
        }
    }
    bytes.len()
}

/// Whether a byte is at the front with which a name before it would go on.
pub(crate) fn goes_on(text: &[u8]) -> bool
    ensures { result ≡ spec.goes_on text.now }
{
    match text {
        [byte, ..] => is_in_word(*byte) || *byte == b'"',
        [] => false,
    }
}

/// Whether a text may be a name.
pub(crate) fn is_name(name: &[u8]) -> bool
    ensures { result ≡ spec.is_name name.now }
{
    1 <= name.len() && name.len() <= 128 && !has_control(name)
}
