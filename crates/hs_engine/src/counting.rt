// How many changes a database has in its life.
ghost use Rattle.std.specs.Prelude.{◌≡◌, ◌+◌, ◌^◌, nat_le};

// The most changes in the life of a database.
const MOST_CHANGES: u64 = 0x1_0000_0000_0000;

/// Whether so many changes more keep within those that a database has in its life.
pub(crate) fn has_room(made: u64, count: usize) -> bool
    ensures { result ≡ nat_le (made + count) (2 ^ 48) }
{
    made <= MOST_CHANGES && count as u64 <= MOST_CHANGES - made
}
