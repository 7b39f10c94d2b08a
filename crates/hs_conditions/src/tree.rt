// The tree of a condition, read from its text.
ghost use Rattle.std.specs.Prelude.{◌≡◌, ◌<◌, ◌^◌, true, length, IfOk, Ok};
ghost use Rattle.std.specs.Option.{option_copied};
ghost use Rattle.std.specs.Result.{result_ok};
ghost use Rattle.hs_conditions.specs.Reading as spec;
ghost use Rattle.hs_conditions.specs.Texts.{is_short};
ghost use Rattle.hs_lexer.specs.Reading.{tokens_of};
ghost use Rattle.hs_read.specs.Read.{statement_in};

use hs_ast::{AlterAction, Condition, Stmt, TableRule};
use hs_base::NoMemory;
use hs_lexer::{LexFault, Tokens, tokens};
use hs_parser::{SyntaxFault, statement};
use hs_values::Chars;
use std::alloc::Global;

// The statement that the tokens of a text are.
#[tactic(auto, using(crate::proofs::Trees::read, crate::proofs::Trees::unread))]
fn parsed(alloc: Global, text: &str, tokens: &Tokens) -> Result<Option<Stmt>, NoMemory>
    requires { tokens_of text.now ≡ Ok tokens.now }
    ensures { IfOk result (λ found. found ≡ result_ok (statement_in text.now)) }
{
    match statement(alloc, text, tokens) {
        Ok(statement) => Ok(Some(statement)),
        Err(SyntaxFault::NoMemory) => Err(NoMemory),
        Err(_) => Ok(None),
    }
}

// The statement that a text is.
#[tactic(auto, using(crate::proofs::Trees::uncut))]
fn read_statement(alloc: Global, text: &str) -> Result<Option<Stmt>, NoMemory>
    requires { length text.now < 2 ^ 32 }
    ensures { IfOk result (λ found. found ≡ result_ok (statement_in text.now)) }
{
    match tokens(alloc, text) {
        Ok(tokens) => parsed(alloc, text, &tokens),
        Err(LexFault::NoMemory) => Err(NoMemory),
        Err(_) => Ok(None),
    }
}

fn of_rule(rule: &TableRule) -> Option<&Condition>
    ensures { option_copied result ≡ spec.of_rule rule.now }
{
    match rule {
        TableRule::Check(e) => Some(e),
        TableRule::PrimaryKey(_) | TableRule::Unique(_) | TableRule::ForeignKey(..) => None,
    }
}

fn of_action(action: &AlterAction) -> Option<&Condition>
    ensures { option_copied result ≡ spec.of_action action.now }
{
    match action {
        AlterAction::AddConstraint(constraint) => of_rule(&constraint.rule),
        AlterAction::AddColumn(_) | AlterAction::DropConstraint(_) => None,
    }
}

/// The condition of the CHECK that a statement adds.
pub(crate) fn of_statement(statement: &Stmt) -> Option<&Condition>
    ensures { option_copied result ≡ spec.of_statement statement.now }
{
    match statement {
        Stmt::AlterTable(alter) => of_action(&alter.action),
        _ => None,
    }
}

// The statement that adds a CHECK with this condition.
fn with_check(alloc: Global, text: &str) -> Result<Chars, NoMemory>
    ensures { IfOk result (λ statement. statement ≡ spec.with_check text.now) }
{
    let mut statement = Chars::from_text(alloc, "ALTER TABLE T ADD CHECK(")?;
    statement.push_text(text)?;
    statement.push_text(")")?;
    Ok(statement)
}

/// The statement that adds a CHECK with the condition of a text, none where there is none. An `Err` is want of memory.
#[tactic(auto, using(crate::proofs::Trees::fits))]
pub(crate) fn read_check(alloc: Global, text: &str) -> Result<Option<Stmt>, NoMemory>
    requires { is_short text.now ≡ true }
    ensures { IfOk result (λ found. found ≡ result_ok (statement_in (spec.with_check text.now))) }
{
    let statement = with_check(alloc, text)?;
    read_statement(alloc, statement.as_str())
}
