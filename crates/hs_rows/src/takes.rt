// What takes in rows.
ghost use Rattle.std.specs.Prelude.{◌≡◌, List, OnOk};
ghost use Rattle.hs_values.specs.declared.value.Value.{Value};
ghost use Rattle.hs_expression.specs.Surroundings.{row_seen};
ghost use Rattle.hs_rel.specs.Outcome.{IsMemoryAlone};

use hs_expression::RowRef;
use hs_rel::EvalStop;

/// What takes in the rows of a table, one after another.
pub trait Takes {
    /// What it is once it took in a row.
    ghost taken: { Self → List Value → Self };

    /// Takes in the next row, which is lent where it lies. An `Err` is want of memory.
    fn take(&mut self, row: RowRef<'_>) -> Result<(), EvalStop>
        ensures ok { OnOk result (self.new ≡ taken self.old (row_seen row.entry)) }
        ensures err { IsMemoryAlone result };
}
