// Numbers of two bytes and rows, read from and written into the bytes of a page.
ghost use Rattle.std.specs.Prelude.{◌≡◌, ◌≢◌, ◌⊎◌, ℕ, ◌+◌, ◌<◌, ◌≤◌, ◌^◌, ◌++◌, length, slice_index, slice_range};
ghost use Rattle.hs_page.specs.Pages.{number_at};

/// The number in the two bytes at `at`, the greater part first.
pub fn number(bytes: &[u8], at: usize) -> usize
    requires { at + 1 < length bytes.now }
    ensures value { result ≡ number_at bytes.now at }
    ensures fits { result < 2 ^ 16 }
{
    256 * usize::from(bytes[at]) + usize::from(bytes[at + 1])
}

/// Writes a number into the two bytes at `at`.
pub fn set_number(bytes: &mut [u8], at: usize, number: usize)
    requires at { at + 1 < length bytes.old }
    requires number { number < 2 ^ 16 }
    ensures number { number_at bytes.new at ≡ number }
    ensures others { (k : ℕ) → k ≢ at → k ≢ at + 1 → slice_index bytes.new k ≡ slice_index bytes.old k }
{
    bytes[at] = (number / 256) as u8;
    bytes[at + 1] = (number % 256) as u8;
}

/// Writes these bytes from `at` on.
fn set_bytes(bytes: &mut [u8], at: usize, part: &[u8])
    requires { at + length part.now ≤ length bytes.old }
    ensures part { slice_range bytes.new at (at + length part.now) ≡ part.now }
    ensures others { (k : ℕ) → (k < at) ⊎ (at + length part.now ≤ k) → slice_index bytes.new k ≡ slice_index bytes.old k }
{
    bytes[at..at + part.len()].copy_from_slice(part);
}

/// Writes two parts one behind another from `at` on.
pub fn set_row(bytes: &mut [u8], at: usize, head: &[u8], rest: &[u8])
    requires { at + length head.now + length rest.now ≤ length bytes.old }
    ensures row { slice_range bytes.new at (at + length head.now + length rest.now) ≡ head.now ++ rest.now }
    ensures others { (k : ℕ) → (k < at) ⊎ (at + length head.now + length rest.now ≤ k) → slice_index bytes.new k ≡ slice_index bytes.old k }
{
    set_bytes(bytes, at, head);
    set_bytes(bytes, at + head.len(), rest);
}
