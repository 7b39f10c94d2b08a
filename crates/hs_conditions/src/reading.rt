// Conditions and their texts.
ghost use Rattle.std.specs.Prelude.{◌≡◌, ◌↔◌, IsTrue, true, None, Some, IfOk};
ghost use Rattle.std.specs.Option.{option_map_or};
ghost use Rattle.hs_conditions.specs.Reading as spec;
ghost use Rattle.hs_conditions.specs.Texts.{HasText, MayStand, checks, is_short};
ghost use Rattle.hs_conditiontext.specs.Conditions.{condition_text};
ghost use Rattle.hs_tabletext.specs.Conditions.{IsConditionText};
ghost use Rattle.hs_sameness.specs.Plain as plainness;
ghost use Rattle.hs_valuetext.specs.Finding.{Knows};
ghost use Rattle.hs_valuetext.specs.Texts as texts;

use crate::binding::meant_over;
use crate::tree::{of_statement, read_check};
use hs_ast::Stmt;
use hs_base::NoMemory;
use hs_binding::Binder;
use hs_conditiontext::print_condition;
use hs_plan::{Column, Expr};
use hs_sameness::is_same;
use hs_values::Chars;
use std::alloc::Global;

fn is_control(byte: u8) -> bool
    ensures { result ≡ texts.is_control byte }
{
    byte < 32 || byte == 127
}

fn has_control(text: &[u8]) -> bool
    ensures { result ≡ texts.has_control text.now }
{
    text.iter().any(|byte| is_control(*byte))
}

// Whether a text may stand in a log.
fn may_stand(text: &str) -> bool
    ensures { IsTrue result ↔ MayStand text.now }
{
    text.len() < 0x8000_0000 && !has_control(text.as_bytes())
}

// What the CHECK means that a statement adds.
fn meant_in<B: Binder>(
    alloc: Global,
    binder: &B,
    statement: &Stmt,
    columns: &[Column],
) -> Result<Option<Expr>, NoMemory>
    ensures { IfOk result (λ found. found ≡ option_map_or (spec.meant_over columns.now) (spec.of_statement statement.now) None) }
{
    match of_statement(statement) {
        Some(e) => meant_over(binder, columns, e, alloc),
        None => Ok(None),
    }
}

// The condition of a text.
#[tactic(auto, using(crate::proofs::Trees::meant, crate::proofs::Trees::none_read))]
fn condition_of<B: Binder>(
    alloc: Global,
    binder: &B,
    text: &str,
    columns: &[Column],
) -> Result<Option<Expr>, NoMemory>
    requires { is_short text.now ≡ true }
    ensures { IfOk result (λ found. found ≡ spec.condition_of columns.now text.now) }
{
    match read_check(alloc, text)? {
        Some(statement) => meant_in(alloc, binder, &statement, columns),
        None => Ok(None),
    }
}

// What is written of a condition.
fn text_of(alloc: Global, e: &Expr, columns: &[Column]) -> Result<Chars, NoMemory>
    ensures { IfOk result (λ text. text ≡ condition_text columns.now e.now) }
{
    let mut text = Chars::new(alloc);
    print_condition(alloc, e, columns, &mut text)?;
    Ok(text)
}

// Whether a condition has no query and no aggregate.
#[tactic(auto, using(crate::proofs::Texts::plain_told))]
fn is_plain(e: &Expr) -> bool
    ensures { result ≡ plainness.is_plain e.now }
{
    is_same(e, e)
}

// The condition of a text, where this is what is written of it.
#[tactic(auto, using(crate::proofs::Texts::known, crate::proofs::Texts::queried, crate::proofs::Texts::otherwise_written))]
fn if_written(
    alloc: Global,
    e: Expr,
    columns: &[Column],
    text: &str,
) -> Result<Option<Expr>, NoMemory>
    requires stands { MayStand text.now }
    requires read { spec.condition_of columns.now text.now ≡ Some e }
    ensures { IfOk result (λ found. Knows (λ x. x) (IsConditionText checks columns.now text.now) found) }
{
    if !is_plain(&e) {
        return Ok(None);
    }
    let written = text_of(alloc, &e, columns)?;
    if written.as_str() == text {
        Ok(Some(e))
    } else {
        Ok(None)
    }
}

/// The condition over these columns whose text this is. None exactly where there is none. There is never more than one. An `Err` is want
/// of memory.
#[tactic(auto, using(crate::proofs::Texts::no_place, crate::proofs::Texts::none))]
pub(crate) fn read_condition<B: Binder>(
    alloc: Global,
    binder: &B,
    text: &str,
    columns: &[Column],
) -> Result<Option<Expr>, NoMemory>
    ensures { IfOk result (λ found. Knows (λ e. e) (IsConditionText checks columns.now text.now) found) }
{
    if !may_stand(text) {
        return Ok(None);
    }
    match condition_of(alloc, binder, text, columns)? {
        Some(e) => if_written(alloc, e, columns, text),
        None => Ok(None),
    }
}

// Whether a text, which is what is written of a condition, is read as it again.
#[tactic(auto, using(crate::proofs::Texts::told, crate::proofs::Texts::untold, crate::proofs::Texts::unplaced))]
fn is_read<B: Binder>(
    alloc: Global,
    binder: &B,
    e: &Expr,
    columns: &[Column],
    text: &str,
) -> Result<bool, NoMemory>
    requires { text.now ≡ condition_text columns.now e.now }
    ensures { IfOk result (λ is. IsTrue is ↔ HasText columns.now e.now) }
{
    if !may_stand(text) {
        return Ok(false);
    }
    match condition_of(alloc, binder, text, columns)? {
        Some(found) => Ok(is_same(e, &found)),
        None => Ok(false),
    }
}

/// Whether a condition over these columns has a text: what is written of it is read as it again. An `Err` is want of memory.
pub(crate) fn is_read_again<B: Binder>(
    alloc: Global,
    binder: &B,
    e: &Expr,
    columns: &[Column],
) -> Result<bool, NoMemory>
    ensures { IfOk result (λ is. IsTrue is ↔ HasText columns.now e.now) }
{
    let text = text_of(alloc, e, columns)?;
    is_read(alloc, binder, e, columns, text.as_str())
}
