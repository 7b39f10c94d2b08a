//! Laws of what the texts of commits name. Proofs of other crates cite them from `Names.antt` in `proofs/`.
ghost use Rattle.std.specs.Prelude.{◌≡◌, ℕ, List, Option, true};
ghost use Rattle.hs_base.specs.declared.numbers.SessionNo.{SessionNo};
ghost use Rattle.hs_committext.specs.Commits.{IsCommitText};
ghost use Rattle.hs_turns.specs.Database.{Database, apply};
ghost use Rattle.hs_committext.specs.Definitions.{IsDefinition};
ghost use Rattle.hs_plainsql.specs.Naming.{are_named, names_single};
ghost use Rattle.hs_plan.specs.declared.change.Change.{Change};
ghost use Rattle.hs_plan.specs.declared.definition.Definition.{Definition};
ghost use Rattle.hs_schema.specs.Catalogue.{Things};

use hs_committext::Conditions;

/// A definition that has a text names its constraints without line feeds.
pub fn definitions_with_a_text_name_no_line_feed<C: Conditions>(conditions: &C)
    ensures { (things : Things) (definition : Definition) → IsDefinition (C.wording conditions.now) things definition → names_single definition ≡ true }
{}

/// So a commit that has a text leaves a catalogue whose constraints have names without line feeds, where it was one before.
pub fn commits_keep_names_single<C: Conditions>(conditions: &C)
    ensures { (db : Database) (before : Option SessionNo) (text : List ℕ) (session : SessionNo) (changes : List Change) → IsCommitText (C.wording conditions.now) db.things before text session changes → are_named db.things ≡ true
        → are_named (apply db changes).things ≡ true }
{}
