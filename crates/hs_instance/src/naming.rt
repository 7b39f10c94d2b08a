// The name of the first constraint that rows violate.
ghost use Rattle.std.specs.Prelude.{◌≡◌, ℕ, [], IfOk};
ghost use Rattle.std.specs.Option.{option_map};
ghost use Rattle.hs_changes.specs.Settings.{Maps};
ghost use Rattle.hs_draft.specs.Drafted.{after};
ghost use Rattle.hs_language.specs.Validity.{lets_pass};
ghost use Rattle.hs_sentences.specs.Violations as spec;
ghost use Rattle.hs_instance.specs.Instance.{name_of};

use hs_base::NoMemory;
use hs_checks::Conditions;
use hs_draft::{Draft, whole_violated};
use hs_schema::Catalog;
use hs_sentences::Violation;
use hs_values::Name;
use std::alloc::Global;

// The name of the violated constraint.
fn name(violation: Violation) -> Name
    ensures { result ≡ name_of violation }
{
    match violation {
        Violation::Null(name) => name,
        Violation::Check(name) => name,
        Violation::Unique(name) => name,
        Violation::Parent(name) => name,
        Violation::Child(name) => name,
    }
}

/// The name of the first constraint of a catalogue that the rows of a draft violate; None where all hold. An `Err` is want of
/// memory.
pub(crate) fn first_violated(
    cat: &Catalog,
    draft: &Draft,
    alloc: Global,
) -> Result<Option<Name>, NoMemory>
    ensures { (maps : Maps) → ((t : ℕ) → after draft.now t ≡ maps t) → IfOk result (λ first. first ≡ option_map name_of (spec.first_violated lets_pass cat.now (λ t. []) maps)) }
{
    let first = whole_violated(cat, draft, &Conditions { alloc })?;
    match first {
        Some(violation) => Ok(Some(name(violation))),
        None => Ok(None),
    }
}
