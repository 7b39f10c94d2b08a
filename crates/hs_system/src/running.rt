//! Laws of systems that are run, each on a function that does nothing. Proofs of other crates cite them from `Lawful.antt` in
//! `proofs/`.
ghost use Rattle.std.specs.Prelude.{◌≡◌, ◌≤◌, ◌+◌, ◌++◌, ℕ, List, None, length};
ghost use Rattle.hs_entries.specs.declared.item.Item.{Item};
ghost use Rattle.hs_system.specs.Meaning.{behind_over, meaning_of, world_at};
ghost use Rattle.hs_program.specs.Lawful.{IsLawful, IsSound, texts_over};
ghost use Rattle.hs_program.specs.Meaning.{Opened, nothing_logged};
ghost use Rattle.hs_program.specs.Opening.{AreRedone, IsReached};
ghost use Rattle.hs_run.specs.Running.{IsTrue};
ghost use Rattle.hs_seams.specs.Stores.{IsWorld};

use crate::governed::Governed;

/// What texts of a log made has as many changes as commits at least, and a run over it, where no constraint is violated, is in a world
/// that keeps what its model of transactions promises.
pub fn what_is_opened_has_a_world<S: Governed>()
    ensures counted { (opened : Opened) → IsReached (meaning_of S.system) opened → opened.commits ≤ opened.database.count }
    ensures world { (opened : Opened) (size : ℕ) → IsSound (meaning_of S.system) opened → IsWorld (world_at S.system opened size) }
{}

/// Each text is a commit, and before any of them no constraint is violated. What is ahead of a run tells of no commit that isn't made.
/// The first ones of the texts that it makes, however many, make again what there is behind its first commits, and this violates no
/// constraint.
pub fn a_system_can_be_run<S: Governed>()
    ensures counts { (opened next : Opened) (text : List ℕ) → (meaning_of S.system).Redone opened text next → next.commits ≡ opened.commits + 1 }
    ensures starts { (meaning_of S.system).violated (nothing_logged (meaning_of S.system)) ≡ None }
    ensures begins { (opened : Opened) (size : ℕ) → ((meaning_of S.system).future opened size).commits ≡ opened.commits }
    ensures is_true { (opened : Opened) (size : ℕ) → IsSound (meaning_of S.system) opened → IsTrue ((meaning_of S.system).future opened size) }
    ensures remade { (opened : Opened) (size : ℕ) (items : List Item) (front rest : List (List ℕ)) → IsSound (meaning_of S.system) opened → texts_over (meaning_of S.system) opened size items ≡ front ++ rest
        → AreRedone (meaning_of S.system) opened front (behind_over S.system opened size items (length front)) × ((meaning_of S.system).violated (behind_over S.system opened size items (length front)) ≡ None) }
{}

/// The system meets all that is asked of a database that is run.
pub fn a_system_is_lawful<S: Governed>()
    ensures { IsLawful (meaning_of S.system) }
{}
