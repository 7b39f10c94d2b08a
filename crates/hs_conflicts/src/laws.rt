//! Laws of the claims of commits, each on a function that does nothing.
ghost use Rattle.std.specs.Prelude.{◌≡◌, ◌+◌, ◌++◌, ◌∷◌, [], ◌↔◌, ℕ, true, false, List, Some, None, drop};
ghost use Rattle.hs_claims.specs.declared.claim.Claim.{Claim};
ghost use Rattle.hs_claims.specs.declared.footprint.Footprint.{Footprint};
ghost use Rattle.hs_claims.specs.declared.model.ControlKind.{ControlKind};
ghost use Rattle.hs_claims.specs.Wants.{wants_of};
ghost use Rattle.hs_turns.specs.Attempts.{clear_commits};
ghost use Rattle.hs_turns.specs.Histories.{Commit, Open, no_conflict};
ghost use Rattle.hs_conflicts.specs.Conflicts.{AreTied, IsTied, conflict_from};

/// Claims stay tied to their commits where the first so many of both are dropped, and where one commit more comes with its claims.
pub fn claims_stay_tied_to_commits()
    ensures dropped { (kind : ControlKind) (n : ℕ) (claims : List (List Claim)) (commits : List Commit) → AreTied kind claims commits → AreTied kind (drop n claims) (drop n commits) }
    ensures pushed { (kind : ControlKind) (claims : List (List Claim)) (commits : List Commit) (c : List Claim) (k : Commit) → AreTied kind claims commits → IsTied kind c k → AreTied kind (claims ++ c ∷ []) (commits ++ k ∷ []) }
{}

/// A statement conflicts with none of the commits exactly where it conflicts with none of the claims that are tied to them. Else
/// the first of them that it conflicts with is the one behind those that go together with what it wants.
pub fn claims_conflict_as_their_commits()
    ensures none { (kind : ControlKind) (o : Open) (f : Footprint) (n : ℕ) (claims : List (List Claim)) (commits : List Commit) → AreTied kind claims commits
        → (no_conflict kind o f commits ≡ true) ↔ (conflict_from (wants_of kind o.level o.read_only f) n claims ≡ None) }
    ensures some { (kind : ControlKind) (o : Open) (f : Footprint) (n number : ℕ) (claims : List (List Claim)) (commits : List Commit) → AreTied kind claims commits → conflict_from (wants_of kind o.level o.read_only f) n claims ≡ Some number
        → (number ≡ n + clear_commits kind (wants_of kind o.level o.read_only f) commits + 1) × (no_conflict kind o f commits ≡ false) }
{}
