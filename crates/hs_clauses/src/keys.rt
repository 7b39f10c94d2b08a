// Keys of ORDER BY.
ghost use Rattle.std.specs.Prelude.{◌≡◌, ◌≢◌, option_map};
ghost use Rattle.hs_clauses.specs.Forms.{name_of, sorted};
ghost use Rattle.hs_meaning.specs.Queries as spec;
ghost use Rattle.hs_meaning.specs.Surroundings as surroundings;
ghost use Rattle.hs_meaning.specs.Trees.{key_of, part_of};
ghost use Rattle.hs_plan.specs.declared.query.Key.TheVariants as plan_key;
ghost use Rattle.hs_schema.specs.Catalogue.{Things};
ghost use Rattle.hs_meaning.specs.Finding.{Finds};

use hs_ast::{Expression, ExpressionKind};
use hs_base::NoMemory;
use hs_meaning::{note_ambiguous, note_types};
use hs_plan::{Key, SortKey};
use hs_scope::{KeyMeaning, Outputs};
use hs_typed::{Faults, Typed};
use std::alloc::Global;

/// What a key means among the output columns. `plain` says that a key may be an expression.
pub fn key_meaning(key: &Expression, outputs: &Outputs, plain: bool) -> KeyMeaning
    ensures { (things : Things) → result ≡ spec.key_by plain outputs.now (part_of things key.now).form.literal (part_of things key.now).form.column }
{
    outputs.key_meaning(key, plain)
}

/// A key that is an expression, with its bound value.
pub fn value_key(value: Option<Typed>, descending: bool) -> Option<SortKey>
    ensures { result ≡ option_map (λ t. spec.placed_key descending (plan_key.Value t.tree)) value }
{
    match value {
        Some(typed) => Some(SortKey {
            key: Key::Value(typed.tree),
            descending,
        }),
        None => None,
    }
}

fn name_of(e: &Expression) -> &str
    ensures { result.now ≡ name_of e.now }
{
    match &e.kind {
        ExpressionKind::Column(name) => name.column.as_str(),
        _ => "",
    }
}

fn sorted(
    key: &hs_ast::SortKey,
    meaning: KeyMeaning,
    faults: &mut Faults,
    alloc: Global,
) -> Result<Option<SortKey>, NoMemory>
    ensures { Finds (sorted key.now meaning) faults.old faults.new result }
{
    match meaning {
        KeyMeaning::Output(at) => Ok(Some(SortKey {
            key: Key::Output(at),
            descending: key.descending,
        })),
        KeyMeaning::Value => Ok(None),
        KeyMeaning::Types => {
            note_types(key.at, faults);
            Ok(None)
        }
        KeyMeaning::Ambiguous => {
            note_ambiguous(key.value.at, name_of(&key.value), faults, alloc)?;
            Ok(None)
        }
    }
}

/// A key that is no expression: an output column, or a fault, which is noted: a name that several output columns have, and
/// where it is none of them a fault of types. An `Err` is want of memory.
pub fn other_key(
    key: &hs_ast::SortKey,
    meaning: KeyMeaning,
    faults: &mut Faults,
    alloc: Global,
) -> Result<Option<SortKey>, NoMemory>
    requires { meaning ≢ KeyMeaning.Value }
    ensures { (things : Things) (s : surroundings.Surroundings) → Finds (spec.sort_by s (key_of things key.now) meaning) faults.old faults.new result }
{
    sorted(key, meaning, faults, alloc)
}
