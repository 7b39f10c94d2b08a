// Groups of rows of which some are kept.
ghost use Rattle.std.specs.Prelude.{◌≡◌, [], None, length, IfOk};
ghost use Rattle.hs_rel.specs.Outcome.{Answers, IsMemoryAlone, stop_of};
ghost use Rattle.hs_answer.specs.Places.{first_row};
ghost use Rattle.hs_places.specs.Groups.{group_at};
ghost use Rattle.hs_places.specs.Picking.{kept_by};

use crate::picking::{least_from, pick_numbers};
use hs_rel::EvalStop;
use hs_stages::Groups;
use hs_values::{EvalFault, Row, Value};
use std::alloc::Global;
use std::marker::Model;

/// Groups of rows of which some are kept. Contracts see the list of those that are kept, each with its rows.
#[derive(Drop)]
pub struct KeptGroups {
    groups: Groups,
    kept: Vec<usize>,
    // What stands for a group without rows.
    none: Row,
    ghost no_columns: { none ≡ [] },
}

impl Model for KeptGroups {
    ghost use Rattle.std.specs.Prelude.{List, map};
    ghost use Rattle.hs_values.specs.declared.value.Value.{Value as SqlValue};
    ghost use Rattle.hs_places.specs.Groups.{group_at};

    ghost Value = { List (List (List SqlValue)) };

    ghost view = { λ g. map (group_at g.groups) g.kept.items };
}

/// The rows of a group, and none where there is no such group.
#[tactic(auto, using(crate::proofs::AtPlaces::group_read, crate::proofs::AtPlaces::group_past))]
fn group_at(groups: &Groups, at: usize) -> &[Row]
    ensures { result.now ≡ group_at groups.now at }
{
    if at < groups.len() {
        groups.group(at)
    } else {
        &[]
    }
}

impl KeptGroups {
    /// All of these groups. An `Err` is want of memory.
    #[tactic(auto, using(crate::proofs::AtPlaces::group_next))]
    pub fn all(alloc: Global, groups: Groups) -> Result<KeptGroups, EvalStop>
        ensures groups { IfOk result (λ all. all ≡ groups) }
        ensures err { IsMemoryAlone result }
    {
        let mut kept = Vec::with_capacity(alloc, groups.len())?;
        for at in 0..groups.len() {
            kept.push(at)?;
        }
        Ok(KeptGroups {
            groups,
            kept,
            none: Row::new(alloc),
        })
    }

    /// How many are kept. Takes no memory.
    pub fn len(&self) -> usize
        ensures { result ≡ length self.now }
    {
        self.kept.len()
    }

    /// The rows of one that is kept, counted from 0, and none where there is no such group. Takes no memory.
    #[tactic(auto, using(crate::proofs::AtPlaces::numbered_group, crate::proofs::AtPlaces::no_numbered_group))]
    pub fn group(&self, at: usize) -> &[Row]
        ensures { result.now ≡ group_at self.now at }
    {
        match self.kept.get(at) {
            Some(number) => group_at(&self.groups, *number),
            None => &[],
        }
    }

    /// The row that stands for one that is kept: its first, or one without columns. Takes no memory.
    pub fn first(&self, at: usize) -> &Row
        ensures { result.now ≡ first_row (group_at self.now at) }
    {
        match self.group(at).get(0) {
            Some(row) => row,
            None => &self.none,
        }
    }

    /// Those for which a condition is TRUE, or the least of its faults. Else an `Err` is want of memory.
    #[tactic(auto, using(crate::proofs::Keeping::picked_map))]
    pub fn keep(self, outcomes: &[Result<Value, EvalFault>]) -> Result<KeptGroups, EvalStop>
        ensures groups { Answers (kept_by self outcomes.now) result }
        ensures never_stops { stop_of result ≡ None }
    {
        if let Some(fault) = least_from(None, outcomes) {
            return Err(EvalStop::Fault(fault));
        }
        let KeptGroups { groups, kept, none } = self;
        Ok(KeptGroups {
            groups,
            kept: pick_numbers(kept, outcomes)?,
            none,
        })
    }
}
