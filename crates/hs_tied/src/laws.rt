//! Laws of what sessions hold, each on a function that does nothing.
ghost use Rattle.std.specs.Prelude.{◌≡◌, ◌≤◌, ℕ, true, false, List, Option, Some, filter, length};
ghost use Rattle.std.specs.List.{list_any};
ghost use Rattle.std.specs.Option.{option_map};
ghost use Rattle.hs_base.specs.declared.numbers.CommitNo.{CommitNo};
ghost use Rattle.hs_base.specs.declared.numbers.SessionNo.{SessionNo};
ghost use Rattle.hs_claims.specs.declared.blockers.Blockers.{Blockers};
ghost use Rattle.hs_claims.specs.declared.claim.Claim.{Claim};
ghost use Rattle.hs_claims.specs.Blockers.{has};
ghost use Rattle.hs_claims.specs.Held.{blocks as claims_block};
ghost use Rattle.hs_claims.specs.Session.{IsSession};
ghost use Rattle.hs_waits.specs.Waits.{IsFirstLeading};
ghost use Rattle.hs_turns.specs.Each.{Each};
ghost use Rattle.hs_turns.specs.Histories.{others};
ghost use Rattle.hs_turns.specs.Attempts.{blocks};
ghost use Rattle.hs_turns.specs.Waiting.{ascending, first_leading};
ghost use Rattle.hs_holding.specs.declared.holding.Holding.{Holding};
ghost use Rattle.hs_holding.specs.Seats.{reads_from};
ghost use Rattle.hs_holding.specs.Starts.{IsLeastStart, IsReadFrom};
ghost use Rattle.hs_tied.specs.Holds.{Holds};
ghost use Rattle.hs_tied.specs.Kept.{Kept};
ghost use Rattle.hs_tied.specs.Starts.{IsEarliest, IsUnread};
ghost use Rattle.hs_tied.specs.Waiting.{Ways};

/// The set of sessions whose claims don't go together with what is wanted is the list of the other sessions whose open
/// transactions are in the way, in order.
pub fn blockers_are_those_in_the_way()
    ensures { (h : Holding) (k : Kept) → Holds h k → (s : ℕ) (wanted : List Claim) (set : Blockers) (n : ℕ) → n ≤ 64 → ((b : ℕ) → IsSession b → has set b ≡ claims_block h.claims s wanted b)
        → filter (λ b. list_any (blocks k.kind wanted b) (others s k.open_)) (ascending 1 n) ≡ filter (has set) (ascending 1 n) }
{}

/// The first of a set of sessions from whom recorded waits lead back is the first of their list from whom waits lead back.
pub fn the_first_leading_back_is_that_of_the_list()
    ensures { (h : Holding) (k : Kept) → Holds h k → Ways (length k.settings) k.waits → (s : ℕ) (set : Blockers) (found : Option SessionNo) → ((b : ℕ) → IsSession b → has set b ≡ true → b ≤ length k.settings)
        → IsFirstLeading h.waits s set found → first_leading (length k.settings) k.waits s (filter (has set) (ascending 1 (length k.settings))) ≡ option_map (λ x. x.0) found }
{}

/// Where no other session reads the state behind so many commits, no open transaction of another session does; and where no
/// session does, none at all.
pub fn sessions_tell_who_reads_a_start()
    ensures others { (h : Holding) (k : Kept) → Holds h k → (s start : ℕ) → IsReadFrom k.kind start s h false → IsUnread k.kind start (others s k.open_) }
    ensures all { (h : Holding) (k : Kept) → Holds h k → (start : ℕ) → list_any (reads_from k.kind start) h.seats.items ≡ false → IsUnread k.kind start k.open_ }
{}

/// The least start of the sessions is that of the open transactions of other sessions that may conflict, and there are so many
/// commits.
pub fn sessions_tell_the_earliest_start()
    ensures earliest { (h : Holding) (k : Kept) → Holds h k → (s : ℕ) (least : Option CommitNo) → IsLeastStart k.kind s h least → IsEarliest (others s k.open_) least }
    ensures within { (h : Holding) (k : Kept) → Holds h k → (s : ℕ) (least : CommitNo) → IsLeastStart k.kind s h (Some least) → (n : ℕ) → Each (λ o. o.start ≤ n) k.open_ → least.0 ≤ n }
{}
