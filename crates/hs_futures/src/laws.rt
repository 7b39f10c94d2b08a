//! Laws of what is ahead of a run, each on a function that does nothing.
ghost use Rattle.std.specs.Prelude.{◌≡◌, List, []};
ghost use Rattle.hs_entries.specs.declared.item.Item.{Item};
ghost use Rattle.hs_futures.specs.Futures.{future_of};
ghost use Rattle.hs_futures.specs.Laws.{IsTold};
ghost use Rattle.hs_run.specs.Pieces.{made_by, told_by};
ghost use Rattle.hs_run.specs.Running.{IsTrue, pieces};
ghost use Rattle.hs_seams.specs.World.{World, texts_from};
ghost use Rattle.hs_turns.specs.Laws.{history_after};
ghost use Rattle.hs_turns.specs.Lines.{printed};
ghost use Rattle.hs_turns.specs.Machine.{start};
ghost use Rattle.hs_turns.specs.Turns.{lines, weight};

/// What is ahead of a run before its first turn is the run of the machine, to its end: all lines of its turns, and the texts of
/// its commits in their order.
pub fn a_future_is_the_run_of_the_machine()
    ensures told { (w : World) (items : List Item) → told_by (pieces (future_of w (start w.run.opening [])) items) ≡ printed (lines w.run.dialect w.run.opening w.run.made (weight (start w.run.opening items)) (start w.run.opening items)) }
    ensures made { (w : World) (items : List Item) → made_by (pieces (future_of w (start w.run.opening [])) items) ≡ texts_from w [] (history_after w.run.dialect w.run.opening w.run.made items (weight (start w.run.opening items))).commits }
{}

/// Where each turn of a run tells whole lines, and of no commit that isn't made by then, so does each piece.
pub fn a_future_is_true()
    ensures { (w : World) → IsTold w → IsTrue (future_of w (start w.run.opening [])) }
{}
