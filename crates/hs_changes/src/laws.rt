//! Laws of rows that are set and of lists of changes, each on a function that does nothing. Proofs of other crates cite
//! them from `Set.antt` and `Applied.antt` in `proofs/`.
ghost use Rattle.std.specs.Prelude.{◌≡◌, ℕ, ◌+◌, ◌<◌, ◌^◌, true, false, List, ◌∷◌, ◌++◌, if◌then◌else◌};
ghost use Rattle.std.specs.FinMap.{get};
ghost use Rattle.std.specs.List.{list_any};
ghost use Rattle.hs_changes.specs.Changes.{count_all_inserted, settings_of, after_changes, is_named};
ghost use Rattle.hs_changes.specs.Settings.{Maps, Setting, set_row, set_rows, names, is_set, last_values};
ghost use Rattle.hs_plan.specs.declared.change.Change.{Change};

/// After rows are set each is what the last that sets it makes of it, and one that none sets is as it was. So tables
/// in which each row ends up alike are equal, and the order of two that set different rows doesn't count.
pub fn the_last_counts()
    ensures one { (maps : Maps) (setting : Setting) (table row : ℕ) → get (set_row maps setting table) row ≡ (if names table row setting then setting.values else get (maps table) row) }
    ensures each { (maps : Maps) (settings : List Setting) (table row : ℕ) → get (set_rows maps settings table) row ≡ last_values table row (get (maps table) row) settings }
    ensures stays { (maps : Maps) (settings : List Setting) (table row : ℕ) → is_set table row settings ≡ false → get (set_rows maps settings table) row ≡ get (maps table) row }
    ensures last { (maps : Maps) (front : List Setting) (setting : Setting) (rest : List Setting) (table row : ℕ) → names table row setting ≡ true → is_set table row rest ≡ false → get (set_rows maps (front ++ setting ∷ rest) table) row ≡ setting.values }
    ensures alike { (maps : Maps) (xs ys : List Setting) → ((table row : ℕ) → last_values table row (get (maps table) row) xs ≡ last_values table row (get (maps table) row) ys) → (table : ℕ) → set_rows maps xs table ≡ set_rows maps ys table }
    ensures order { (maps : Maps) (front : List Setting) (s t : Setting) (rest : List Setting) → ((table row : ℕ) → names table row s ≡ true → names table row t ≡ true → ⊥) → (table : ℕ) → set_rows maps (front ++ s ∷ t ∷ rest) table ≡ set_rows maps (front ++ t ∷ s ∷ rest) table }
{}

/// Changes behind others are made on what those leave, and number their rows behind those of the others. A row that
/// was there before the transaction, whose number is below 2^63, is set exactly where a change names it.
pub fn changes_follow_one_another()
    ensures settings { (inserted : ℕ) (xs ys : List Change) → settings_of inserted (xs ++ ys) ≡ settings_of inserted xs ++ settings_of (inserted + count_all_inserted xs) ys }
    ensures maps { (inserted : ℕ) (maps : Maps) (xs ys : List Change) → after_changes inserted maps (xs ++ ys) ≡ after_changes (inserted + count_all_inserted xs) (after_changes inserted maps xs) ys }
    ensures named { (inserted table row : ℕ) (changes : List Change) → row < 2 ^ 63 → is_set table row (settings_of inserted changes) ≡ list_any (is_named table row) changes }
    ensures stays { (inserted : ℕ) (maps : Maps) (changes : List Change) (table row : ℕ) → row < 2 ^ 63 → list_any (is_named table row) changes ≡ false → get (after_changes inserted maps changes table) row ≡ get (maps table) row }
{}
