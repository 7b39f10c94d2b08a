// The rows that a statement changes itself.
ghost use Rattle.std.specs.Prelude.{◌≡◌, List, Option, Result, Ok, OnOk, IfOk};
ghost use Rattle.hs_values.specs.declared.fault.EvalFault.{EvalFault as Fault};
ghost use Rattle.hs_values.specs.declared.value.Value.{Value};
ghost use Rattle.hs_values.specs.Outcome.{Gives};
ghost use Rattle.hs_rel.specs.Selection.{unless};
ghost use Rattle.hs_actions.specs.Work.{Edits};
ghost use Rattle.hs_dml.specs.Rows as spec;

use crate::faults::lesser_of;
use hs_base::{NoMemory, RowName};
use hs_values::{EvalFault, Row};
use std::alloc::Global;
use std::collections::BTreeMap;

/// The rows so far, each with its new values or None where it is deleted, and the least fault so far.
#[derive(Drop)]
pub(crate) struct Editing {
    pub(crate) rows: BTreeMap<RowName, Option<Row>>,
    pub(crate) fault: Option<EvalFault>,
}

impl Editing {
    pub(crate) fn new(alloc: Global) -> Editing
        ensures { spec.edited_by result ≡ spec.none_edited }
    {
        Editing {
            rows: BTreeMap::new(alloc),
            fault: None,
        }
    }

    /// The next row gets these values, or is deleted.
    pub(crate) fn put(&mut self, name: RowName, values: Option<Row>) -> Result<(), NoMemory>
        ensures { OnOk result (spec.edited_by self.new ≡ spec.with_edit (spec.edited_by self.old) name (Ok values)) }
    {
        self.rows.insert(name, values)?;
        Ok(())
    }

    /// Takes in what the next row becomes.
    pub(crate) fn take(
        &mut self,
        name: RowName,
        made: Result<Option<Row>, EvalFault>,
    ) -> Result<(), NoMemory>
        ensures { OnOk result ((means : Result (Option (List Value)) Fault) → Gives made means → spec.edited_by self.new ≡ spec.with_edit (spec.edited_by self.old) name means) }
    {
        match made {
            Ok(values) => self.put(name, values),
            Err(EvalFault::NoMemory) => Err(NoMemory),
            Err(fault) => {
                self.fault = Some(lesser_of(self.fault, fault));
                Ok(())
            }
        }
    }
}

/// The rows, or the least fault.
pub(crate) fn ended(
    made: Result<Editing, NoMemory>,
) -> Result<BTreeMap<RowName, Option<Row>>, EvalFault>
    ensures { (means : Result Edits Fault) → IfOk made (λ all. unless (spec.edited_by all).fault (spec.edited_by all).edits ≡ means) → Gives (spec.entries_in result) means }
{
    match made {
        Ok(made) => match made.fault {
            Some(fault) => Err(fault),
            None => Ok(made.rows),
        },
        Err(NoMemory) => Err(EvalFault::NoMemory),
    }
}
