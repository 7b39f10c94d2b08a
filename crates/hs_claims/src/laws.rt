//! Laws of claims, each on a function that does nothing.
ghost use Rattle.std.specs.Prelude.{◌≡◌, ◌⊎◌, ◌↔◌, Bool, true, false, List};
ghost use Rattle.hs_claims.specs.declared.claim.Claim.{Claim};
ghost use Rattle.hs_claims.specs.Compatible.{same_resource, compatible, fits};
ghost use Rattle.hs_claims.specs.Wants.{IsIn};

/// Two claims go together exactly where they are on two resources or both are shared, whichever of them comes first.
/// Two lists go together exactly where each claim of one goes together with each of the other.
pub fn claims_go_together()
    ensures means { (a b : Claim) → (compatible a b ≡ true) ↔ ((same_resource a.resource b.resource ≡ false) ⊎ ((a.exclusive ≡ false) × (b.exclusive ≡ false))) }
    ensures either_way { (a b : Claim) → compatible a b ≡ compatible b a }
    ensures each { (wanted held : List Claim) → (fits wanted held ≡ true) ↔ ((want hold : Claim) → IsIn want wanted → IsIn hold held → compatible want hold ≡ true) }
{}
