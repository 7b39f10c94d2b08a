// The first line of a text.
ghost use Rattle.std.specs.Prelude.{◌≡◌, ◌≤◌, ◌<◌, true, false, length, take, slice_index};
ghost use Rattle.hs_parttext.specs.Lines.{is_feed, has_feed, IsFirstLine};

/// How many bytes are before the first line feed.
fn line_len(text: &[u8]) -> usize
    ensures within { result ≤ length text.now }
    ensures before { has_feed (take result text.now) ≡ false }
    ensures behind { result < length text.now → is_feed (slice_index text.now result) ≡ true }
{
    for (at, byte) in text.iter().enumerate() {
        if *byte == b'\n' {
            return at;
        }
    }
    text.len()
}

/// What is before the first line feed, and the rest, which is empty where there is none.
pub fn first_line(text: &str) -> (&str, &str)
    ensures { IsFirstLine text.now result.0.now result.1.now }
{
    text.split_at(line_len(text.as_bytes()))
}
