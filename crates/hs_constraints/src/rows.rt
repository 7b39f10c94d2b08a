// Rows that were changed, and what constraints ask of them.
ghost use Rattle.std.specs.Prelude.{◌≡◌, ℕ, Option, None, IfOk};
ghost use Rattle.hs_rel.specs.declared.stop.StopKind.{StopKind};
ghost use Rattle.hs_rel.specs.Outcome.{IsCaused, IsNoVerdict, stop_of};
ghost use Rattle.hs_sentences.specs.Sentences.{has_gap, is_double};
ghost use Rattle.hs_sentences.specs.Violations.{orphans};
ghost use Rattle.hs_constraints.specs.Changed.{Changed, put_has, fails_check, is_left};

use hs_base::TableNo;
use hs_plan::{Expr, ForeignKey};
use hs_rel::EvalStop;

/// The rows that changes put or deleted, with all rows before the changes and after them. They may be read from a
/// store meanwhile. An `Err` of a call is a stop of the store, or want of memory.
pub trait ChangedRows {
    /// What each call asks of it, and leaves.
    ghost ready: { Self → Type 0 };

    /// Contracts may speak of the rows.
    ghost tells: { Self → Type 0 };

    /// The catalogue, the rows before and after, and which of them were changed. No call changes it.
    ghost changed: { Self → Changed };

    /// How many calls of the disk failed so far.
    ghost disk_faults: { Self → ℕ };

    /// The numbers of pages that are told to be no page.
    ghost is_no_page: { Self → ℕ → Type 0 };

    /// From the one to the other it was only asked, and where it stopped, by the last call.
    ghost asked: { Option StopKind → Self → Self → Type 0 };

    /// Whether a row that was put has NULL in one of these columns.
    fn has_gap(&mut self, table: TableNo, columns: &[u32]) -> Result<bool, EvalStop>
        requires { ready self.old }
        ensures answer { tells self.old → IfOk result (λ is. is ≡ put_has (changed self.old) table.0 (has_gap columns.now)) }
        ensures err { IsNoVerdict result }
        ensures ready { ready self.new }
        ensures same { changed self.new ≡ changed self.old }
        ensures caused { IsCaused (stop_of result) (disk_faults self.old) (disk_faults self.new) (is_no_page self.new) }
        ensures asked { asked (stop_of result) self.old self.new };

    /// Whether a row that was put has, without a NULL, the key of another row in these columns.
    fn has_double(&mut self, table: TableNo, columns: &[u32]) -> Result<bool, EvalStop>
        requires { ready self.old }
        ensures answer { tells self.old → IfOk result (λ is. is ≡ put_has (changed self.old) table.0 (is_double columns.now ((changed self.old).after table.0))) }
        ensures err { IsNoVerdict result }
        ensures ready { ready self.new }
        ensures same { changed self.new ≡ changed self.old }
        ensures caused { IsCaused (stop_of result) (disk_faults self.old) (disk_faults self.new) (is_no_page self.new) }
        ensures asked { asked (stop_of result) self.old self.new };

    /// Whether the condition of a CHECK is FALSE, or a fault, for a row that was put.
    fn has_failed(&mut self, table: TableNo, condition: &Expr) -> Result<bool, EvalStop>
        requires { ready self.old }
        ensures answer { tells self.old → IfOk result (λ is. is ≡ put_has (changed self.old) table.0 (fails_check (changed self.old) condition.now)) }
        ensures err { IsNoVerdict result }
        ensures ready { ready self.new }
        ensures same { changed self.new ≡ changed self.old }
        ensures caused { IsCaused (stop_of result) (disk_faults self.old) (disk_faults self.new) (is_no_page self.new) }
        ensures asked { asked (stop_of result) self.old self.new };

    /// Whether a row that was put names, without a NULL, a key that no row of the parent has.
    fn has_orphan(&mut self, table: TableNo, key: &ForeignKey) -> Result<bool, EvalStop>
        requires { ready self.old }
        ensures answer { tells self.old → IfOk result (λ is. is ≡ put_has (changed self.old) table.0 (orphans (changed self.old).things (changed self.old).after key.now)) }
        ensures err { IsNoVerdict result }
        ensures ready { ready self.new }
        ensures same { changed self.new ≡ changed self.old }
        ensures caused { IsCaused (stop_of result) (disk_faults self.old) (disk_faults self.new) (is_no_page self.new) }
        ensures asked { asked (stop_of result) self.old self.new };

    /// Whether a row of the parent that was changed had a key that no row of it has any more, and that a row of this
    /// table names.
    fn has_left(&mut self, table: TableNo, key: &ForeignKey) -> Result<bool, EvalStop>
        requires { ready self.old }
        ensures answer { tells self.old → IfOk result (λ is. is ≡ is_left (changed self.old) table.0 key.now) }
        ensures err { IsNoVerdict result }
        ensures ready { ready self.new }
        ensures same { changed self.new ≡ changed self.old }
        ensures caused { IsCaused (stop_of result) (disk_faults self.old) (disk_faults self.new) (is_no_page self.new) }
        ensures asked { asked (stop_of result) self.old self.new };

    ghost not_asked: { (a : Self) → asked None a a };

    ghost asked_on: { (stop : Option StopKind) (a b c : Self) → asked None a b → asked stop b c → asked stop a c };

    ghost tells_on: { (a b : Self) → asked None a b → tells a → tells b };
}
