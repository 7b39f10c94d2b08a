// The replies of statements.
ghost use Rattle.std.specs.Prelude.{◌≡◌, ◌++◌, ℕ, [], OnOk, if◌then◌else◌};
ghost use Rattle.hs_claims.specs.declared.footprint.Footprint.{Footprint};
ghost use Rattle.hs_language.specs.Outcomes.{kept_unless_violated};
ghost use Rattle.hs_language.specs.Words as words;
ghost use Rattle.hs_nametext.specs.Names.{name_text};
ghost use Rattle.hs_rowlimit.specs.Long.{has_long};
ghost use Rattle.hs_turns.specs.Dialect.{refused_words};
ghost use Rattle.hs_outcome.specs.Given.{changes_in, finished};

use crate::given::Given;
use hs_base::NoMemory;
use hs_nametext::print_name;
use hs_plan::Changes;
use hs_rowlimit::has_long_row;
use hs_schema::Catalog;
use hs_sentences::Violation;
use hs_values::{Chars, EvalFault, Name};
use itoa::Buffer;

// ---- parts

fn fault_text(fault: EvalFault) -> &'static str
    ensures { result.now ≡ words.fault_words fault }
{
    match fault {
        EvalFault::DivisionByZero => "division by zero",
        EvalFault::Range => "range",
        EvalFault::TooLong => "too long value",
        EvalFault::BadDate => "bad date",
        EvalFault::MoreThanOne => "more than one row",
        EvalFault::NoMemory => "memory",
    }
}

fn print_count(count: usize, out: &mut Chars) -> Result<(), NoMemory>
    ensures { OnOk result (out.new ≡ out.old ++ words.count_words count) }
{
    if count == 1 {
        return Ok(out.push_text("ok 1 row")?);
    }
    out.push_text("ok ")?;
    out.push_text(Buffer::new().format(count))?;
    Ok(out.push_text(" rows")?)
}

fn print_refused(why: &str, out: &mut Chars) -> Result<(), NoMemory>
    ensures { OnOk result (out.new ≡ out.old ++ refused_words why.now) }
{
    out.push_text("refused ")?;
    Ok(out.push_text(why)?)
}

fn print_named(kind: &str, name: &Name, out: &mut Chars) -> Result<(), NoMemory>
    ensures { OnOk result (out.new ≡ out.old ++ refused_words (kind.now ++ name_text name.now)) }
{
    print_refused(kind, out)?;
    print_name(name.as_str(), out)
}

fn print_violation(violation: &Violation, out: &mut Chars) -> Result<(), NoMemory>
    ensures { OnOk result (out.new ≡ out.old ++ refused_words (words.violation_words violation.now)) }
{
    match violation {
        Violation::Null(name) => print_named("null ", name, out),
        Violation::Check(name) => print_named("check ", name, out),
        Violation::Unique(name) => print_named("unique ", name, out),
        Violation::Parent(name) => print_named("parent ", name, out),
        Violation::Child(name) => print_named("child ", name, out),
    }
}

// ---- changes

// Whether changes put a row that is too long.
fn is_long(cat: &Catalog, changes: &Changes) -> bool
    ensures { result ≡ has_long cat.now changes.now }
{
    has_long_row(cat, changes.as_slice())
}

fn print_changed(
    cat: &Catalog,
    violation: &Option<Violation>,
    changes: &Changes,
    count: usize,
    out: &mut Chars,
) -> Result<(), NoMemory>
    ensures { (foot : Footprint) → OnOk result (out.new ≡ out.old ++ (kept_unless_violated violation.now cat.now count changes.now foot).reply) }
{
    match violation {
        Some(violation) => print_violation(violation, out),
        None => {
            if is_long(cat, changes) {
                return print_refused("limit row", out);
            }
            print_count(count, out)
        }
    }
}

fn are_kept(cat: &Catalog, violation: &Option<Violation>, changes: &Changes) -> bool
    ensures { (count : ℕ) (foot : Footprint) → (kept_unless_violated violation.now cat.now count changes.now foot).changes ≡ (if result then changes.now else []) }
{
    match violation {
        Some(_) => false,
        None => !is_long(cat, changes),
    }
}

// ---- the whole

/// Adds the reply of a statement that gives this, without the number of a commit and a line's end, where this is the
/// first constraint that its changes violate: `ok` and how many rows it answered, put or deleted; `refused` and its
/// fault; the violated constraint; or `limit row` where a row that it puts takes more than 4,000 bytes. An `Err` is
/// want of memory, and then a part of the reply may be there.
pub fn print_reply(
    cat: &Catalog,
    violation: &Option<Violation>,
    given: &Given,
    out: &mut Chars,
) -> Result<(), NoMemory>
    ensures { (foot : Footprint) → OnOk result (out.new ≡ out.old ++ (finished violation.now cat.now given.now foot).reply) }
{
    match given {
        Given::Rows(rows) => print_count(rows.len(), out),
        Given::Changes(changes, count) => print_changed(cat, violation, changes, *count, out),
        Given::Locked => Ok(out.push_text("ok")?),
        Given::Nothing => Ok(()),
        Given::Fault(fault) => print_refused(fault_text(*fault), out),
    }
}

/// Whether the changes of a statement are kept, where this is the first constraint that they violate: where there is
/// none, and no row that it puts is too long. Else it changes nothing. Takes no memory.
pub fn is_kept(cat: &Catalog, violation: &Option<Violation>, given: &Given) -> bool
    ensures { (foot : Footprint) → (finished violation.now cat.now given.now foot).changes ≡ (if result then changes_in given.now else []) }
{
    match given {
        Given::Rows(_) => true,
        Given::Changes(changes, _) => are_kept(cat, violation, changes),
        Given::Locked => true,
        Given::Nothing => true,
        Given::Fault(_) => true,
    }
}
