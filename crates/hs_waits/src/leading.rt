// From whom waits lead to a session.
ghost use Rattle.std.specs.Prelude.{◌≡◌, ◌≤◌, ◌-◌, ◌||◌, ℕ, true, length, slice_index};
ghost use Rattle.hs_claims.specs.Blockers.{is_set, has};
ghost use Rattle.hs_claims.specs.Session.{IsSession};
ghost use Rattle.hs_waits.specs.Waits.{Leads};
ghost use Rattle.hs_waits.specs.Meeting.{meets};

use hs_base::SessionNo;
use hs_claims::Blockers;

// The set, and those who wait for one of it.
fn widened(waits: &[u64], set: u64) -> u64
    requires { length waits.now ≡ 64 }
    ensures members { (a : ℕ) → IsSession a → is_set result a ≡ (is_set set a || meets (slice_index waits.now (a - 1)) set) }
    ensures greater { set ≤ result }
{
    let mut wide = set;
    for s in 1..65_u32 {
        if waits[s as usize - 1] & set != 0 {
            wide = Blockers(wide).with(SessionNo(s)).0;
        }
    }
    wide
}

/// The sessions from which waits lead to this one, itself among them.
pub(crate) fn leading_to(waits: &[u64], session: SessionNo) -> Blockers
    requires size { length waits.now ≡ 64 }
    requires session { IsSession session.0 }
    ensures leads { (a : ℕ) → IsSession a → has result a ≡ true → Leads waits.now a session.0 }
    ensures all { (a : ℕ) → IsSession a → Leads waits.now a session.0 → has result a ≡ true }
{
    let mut set = Blockers::none().with(session).0;
    let mut wide = widened(waits, set);
    while wide != set {
        set = wide;
        wide = widened(waits, set);
    }
    Blockers(set)
}
