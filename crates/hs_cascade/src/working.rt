// The work that is done on changed rows.
ghost use Rattle.std.specs.Prelude.{◌≡◌, List, map, Option, Result, Ok, Some, OnOk, IfOk};
ghost use Rattle.std.specs.Option.{option_copied};
ghost use Rattle.hs_values.specs.declared.fault.EvalFault.{EvalFault};
ghost use Rattle.hs_values.specs.declared.value.Value.{Value};
ghost use Rattle.hs_values.specs.Outcome.{Gives};
ghost use Rattle.hs_rel.specs.Selection as selection;
ghost use Rattle.hs_actions.specs.Work as spec;
ghost use Rattle.hs_cascade.specs.Working.{work_of, marked};

use crate::before::RowsBefore;
use hs_actions::{Acted, Reference};
use hs_base::{NoMemory, RowName, RowNo};
use hs_values::{EvalFault, Row};
use std::alloc::Global;
use std::collections::{BTreeMap, BTreeSet, VecDeque};

/// The work: what the rows are, None where they are deleted, the rows that are still to be worked, from the front, what
/// was done, and the least fault of a value so far.
#[derive(Drop)]
pub(crate) struct Working {
    pub(crate) edits: BTreeMap<RowName, Option<Row>>,
    pub(crate) list: VecDeque<RowName>,
    pub(crate) acted: BTreeSet<Acted>,
    pub(crate) fault: Option<EvalFault>,
}

impl Working {
    /// The work begins with the rows that the statement itself changed.
    pub(crate) fn begun(
        alloc: Global,
        edits: BTreeMap<RowName, Option<Row>>,
    ) -> Result<Working, NoMemory>
        ensures { IfOk result (λ work. work_of work ≡ spec.begun edits.entries) }
    {
        let list = names_of(alloc, &edits)?;
        Ok(Working {
            edits,
            list,
            acted: BTreeSet::new(alloc),
            fault: None,
        })
    }

    /// What a row is now.
    pub(crate) fn now<'a, B: RowsBefore>(&'a self, before: &'a B, name: RowName) -> Option<&'a Row>
        ensures { option_copied result ≡ spec.is_now (B.maps before.now) self.now.edits.entries name }
    {
        match self.edits.get(&name) {
            Some(row) => row.as_ref(),
            None => before.row(name),
        }
    }

    /// Whether a child row is deleted already, or this foreign key acted on it already.
    pub(crate) fn is_left_out(&self, key: &Reference, row: RowNo) -> bool
        ensures { result ≡ spec.is_left_out key.now (work_of self.now) row.0 }
    {
        let name = RowName {
            table: key.child,
            row,
        };
        let acted = Acted {
            place: key.place,
            row,
        };
        is_deleted(self.edits.get(&name)) || self.acted.contains(&acted)
    }

    /// A foreign key acted on a child row.
    pub(crate) fn mark(&mut self, place: u32, row: RowNo) -> Result<(), NoMemory>
        ensures { OnOk result (work_of self.new ≡ marked (work_of self.old) place row.0) }
    {
        self.acted.insert(Acted { place, row })?;
        Ok(())
    }

    /// A row gets these values, or is deleted, and is put at the list's end; or its fault counts.
    pub(crate) fn settle(
        &mut self,
        name: RowName,
        made: Result<Option<Row>, EvalFault>,
    ) -> Result<(), NoMemory>
        ensures { OnOk result ((means : Result (Option (List Value)) EvalFault) → Gives made means → work_of self.new ≡ spec.settled name (work_of self.old) means) }
    {
        match made {
            Ok(values) => self.edit(name, values),
            Err(EvalFault::NoMemory) => Err(NoMemory),
            Err(fault) => {
                self.fault = Some(lesser_of(self.fault, fault));
                Ok(())
            }
        }
    }

    fn edit(&mut self, name: RowName, values: Option<Row>) -> Result<(), NoMemory>
        ensures { OnOk result (work_of self.new ≡ spec.settled name (work_of self.old) (Ok values)) }
    {
        self.list.push_back(name)?;
        self.edits.insert(name, values)?;
        Ok(())
    }
}

fn names_of(
    alloc: Global,
    edits: &BTreeMap<RowName, Option<Row>>,
) -> Result<VecDeque<RowName>, NoMemory>
    ensures { IfOk result (λ list. list.items ≡ map (λ e. e.0) edits.now.entries) }
{
    let mut list = VecDeque::new(alloc);
    for name in edits.keys() {
        list.push_back(*name)?;
    }
    Ok(list)
}

fn is_deleted(edit: Option<&Option<Row>>) -> bool
    ensures { result ≡ spec.is_deleted (option_copied edit.entry) }
{
    match edit {
        Some(None) => true,
        Some(Some(_)) | None => false,
    }
}

// Of a fault or none, and another one, the least.
fn lesser_of(fault: Option<EvalFault>, other: EvalFault) -> EvalFault
    ensures { Some result ≡ selection.lesser_of fault other }
{
    match fault {
        Some(fault) => fault.lesser(other),
        None => other,
    }
}
