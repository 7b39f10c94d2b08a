//! On which tables a statement's changes and the constraints depend, as laws on functions that do nothing. Proofs of other
//! crates cite them from `Edited.antt`, `Statements.antt` and `Violations.antt` in `proofs/`.
ghost use Rattle.std.specs.Prelude.{◌≡◌, ℕ, Bool, true, false, List, [], Contains};
ghost use Rattle.hs_plan.specs.declared.definition.Column.{Column};
ghost use Rattle.hs_plan.specs.declared.plan.Delete.{Delete};
ghost use Rattle.hs_plan.specs.declared.plan.Insert.{Insert};
ghost use Rattle.hs_plan.specs.declared.plan.Plan.TheVariants as plan;
ghost use Rattle.hs_plan.specs.declared.plan.Update.{Update};
ghost use Rattle.hs_plan.specs.Named.{named_in_insert};
ghost use Rattle.hs_schema.specs.Catalogue.{Things};
ghost use Rattle.hs_changes.specs.Settings.{Maps, Setting, set_rows};
ghost use Rattle.hs_sentences.specs.Violations.{AllHold, Checks, Touched, first_violated};
ghost use Rattle.hs_actions.specs.Referencing.{Keys};
ghost use Rattle.hs_tentative.specs.Statements.{Around, of_delete, of_insert, of_update};
ghost use Rattle.hs_answer.specs.Frame.{Agree};
ghost use Rattle.hs_effects.specs.Effects.{AgreeFor, AgreeOn, AreLinks, AreOfWritten, IsRead, around_in};

/// Where two states of the tables have the same rows of each table that a statement reads or writes, it has the same changes in
/// both, or the same fault.
pub fn changes_depend_on_the_tables_that_are_read()
    ensures insert { (a b : Maps) (columns : ℕ → List Column) (keys : Keys) (insert : Insert) → Agree a b (named_in_insert insert.source) → of_insert (around_in a columns keys) insert ≡ of_insert (around_in b columns keys) insert }
    ensures update { (things : Things) (a b : Maps) (columns : ℕ → List Column) (keys : Keys) (update : Update) → AreLinks things keys → AgreeFor things (plan.Update update) a b → of_update (around_in a columns keys) update ≡ of_update (around_in b columns keys) update }
    ensures delete { (things : Things) (a b : Maps) (columns : ℕ → List Column) (keys : Keys) (delete : Delete) → AreLinks things keys → AgreeFor things (plan.Delete delete) a b → of_delete (around_in a columns keys) delete ≡ of_delete (around_in b columns keys) delete }
{}

/// Each change of a statement, and of the actions that follow from it, is of a row of a table that the statement writes.
pub fn changes_are_of_tables_that_are_written()
    ensures insert { (things : Things) (around : Around) (insert : Insert) → AreLinks things around.keys → AreOfWritten things (plan.Insert insert) (of_insert around insert) }
    ensures update { (things : Things) (around : Around) (update : Update) → AreLinks things around.keys → AreOfWritten things (plan.Update update) (of_update around update) }
    ensures delete { (things : Things) (around : Around) (delete : Delete) → AreLinks things around.keys → AreOfWritten things (plan.Delete delete) (of_delete around delete) }
{}

/// Where all constraints hold in two states of the tables, the same rows of the same tables are set in both, and both have the
/// same rows of these tables, of their parents and of their children, the first violated constraint is the same.
pub fn the_first_violation_depends_on_the_tables_that_are_read()
    ensures { (checks : Checks) (things : Things) (touched : Touched) (set written : ℕ → Bool) (a b : Maps) (settings : List Setting) → IsRead things set written → AgreeOn a b set → ((s : Setting) → Contains settings s → written s.table ≡ true) → ((t : ℕ) → written t ≡ false → touched t ≡ []) → AllHold checks things a → AllHold checks things b → first_violated checks things touched (set_rows a settings) ≡ first_violated checks things touched (set_rows b settings) }
{}
