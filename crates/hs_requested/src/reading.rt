// Statements read from texts, and plans over a catalogue.
ghost use Rattle.std.specs.Prelude.{◌≡◌, ◌+◌, ◌<◌, ◌^◌, true, length, IfOk, Ok};
ghost use Rattle.hs_entries.specs.Entry.{is_session, place_of, statement_of};
ghost use Rattle.hs_lexer.specs.Reading.{tokens_of};
ghost use Rattle.hs_read.specs.Read.{IsReadAs, statement_in};
ghost use Rattle.hs_requested.specs.Asked as spec;
ghost use Rattle.hs_requests.specs.Plans.{IsPlan, plan_of};
ghost use Rattle.hs_requests.specs.Requests.{asked_by, request_by, request_of};
ghost use Rattle.hs_schema.specs.Catalogue.{Text};
ghost use Rattle.hs_turns.specs.Turns.{whole_text};

use crate::request::Request;
use crate::words::{bind_words, grammar_words, not_offered, token_words};
use hs_ast::{Stmt, Word};
use hs_base::NoMemory;
use hs_binder::bind;
use hs_lexer::{Tokens, tokens};
use hs_parser::statement;
use hs_plan::Plan;
use hs_schema::Catalog;
use hs_sessions::Control;
use hs_values::{Chars, Name};
use std::alloc::Global;

// The statement that the tokens of a text are, or why they are none.
fn read_tokens(
    alloc: Global,
    at: u32,
    text: &str,
    tokens: &Tokens,
) -> Result<Result<Stmt, Chars>, NoMemory>
    requires { tokens_of text.now ≡ Ok tokens.now }
    ensures { IfOk result (λ answer. answer ≡ spec.told at (statement_in text.now)) }
{
    match statement(alloc, text, tokens) {
        Ok(statement) => Ok(Ok(statement)),
        Err(fault) => Ok(Err(grammar_words(alloc, at, fault)?)),
    }
}

// The statement that a text is, or why it is none.
fn read_statement(alloc: Global, at: u32, text: &str) -> Result<Result<Stmt, Chars>, NoMemory>
    requires { length text.now < 2 ^ 32 }
    ensures { IfOk result (λ answer. answer ≡ spec.told at (statement_in text.now)) }
{
    match tokens(alloc, text) {
        Ok(tokens) => read_tokens(alloc, at, text, &tokens),
        Err(fault) => Ok(Err(token_words(alloc, at, fault)?)),
    }
}

fn name_of(word: Word) -> Name
    ensures { result ≡ word }
{
    Name::from_string(word.into_string())
}

// What a statement asks for, by its kind.
fn request_for(alloc: Global, at: u32, statement: Stmt) -> Result<Request, NoMemory>
    ensures asked { IfOk result (λ request. spec.asked request ≡ asked_by at statement) }
    ensures tree { IfOk result (λ request. spec.HasTree (Ok statement) request) }
{
    match statement {
        Stmt::Query(query) => Ok(Request::OfData(Stmt::Query(query))),
        Stmt::Insert(insert) => Ok(Request::OfData(Stmt::Insert(insert))),
        Stmt::Update(update) => Ok(Request::OfData(Stmt::Update(update))),
        Stmt::Delete(delete) => Ok(Request::OfData(Stmt::Delete(delete))),
        Stmt::LockTable(locks) => Ok(Request::OfData(Stmt::LockTable(locks))),
        Stmt::CreateTable(create) => Ok(Request::OfDefinition(Stmt::CreateTable(create))),
        Stmt::CreateIndex(create) => Ok(Request::OfDefinition(Stmt::CreateIndex(create))),
        Stmt::AlterTable(alter) => Ok(Request::OfDefinition(Stmt::AlterTable(alter))),
        Stmt::DropTable(name) => Ok(Request::OfDefinition(Stmt::DropTable(name))),
        Stmt::DropIndex(name) => Ok(Request::OfDefinition(Stmt::DropIndex(name))),
        Stmt::SetControl(kind) => Ok(Request::OfDefinition(Stmt::SetControl(kind))),
        Stmt::SetDefaultLevel(level) => Ok(Request::OfDefinition(Stmt::SetDefaultLevel(level))),
        Stmt::SetAutocommit(on) => Ok(Request::OnSettings(Control::Autocommit(on))),
        Stmt::SetCharacteristics(modes) => Ok(Request::OnSettings(Control::Characteristics(modes))),
        Stmt::SetTransaction(modes) => Ok(Request::OnSettings(Control::Transaction(modes))),
        Stmt::StartTransaction(modes) => Ok(Request::Starts(modes)),
        Stmt::Commit => Ok(Request::Commits),
        Stmt::Rollback => Ok(Request::RollsBack),
        Stmt::Savepoint(name) => Ok(Request::OnSettings(Control::Savepoint(name_of(name)))),
        Stmt::RollbackTo(name) => Ok(Request::OnSettings(Control::RollbackTo(name_of(name)))),
        Stmt::ReleaseSavepoint(name) => Ok(Request::OnSettings(Control::Release(name_of(name)))),
        Stmt::WriteDelayFalse => Ok(Request::OnSettings(Control::WriteDelayFalse)),
        Stmt::Checkpoint => Ok(Request::Faulty(not_offered(alloc, at)?)),
        Stmt::Shutdown => Ok(Request::Faulty(not_offered(alloc, at)?)),
    }
}

/// What an entry asks for, whose statement is this text and stands at byte `at` of the entry, behind the session's
/// name and the colon: by the statement's kind, with its tree. A text that is no statement asks for nothing, and is
/// told why, in the words that stand behind `refused `: `syntax at P` or `not offered at P`, P being a byte's place
/// in the entry, or `limit depth`. An `Err` is want of memory.
pub fn read_request(alloc: Global, at: u32, text: &str) -> Result<Request, NoMemory>
    requires { length text.now < 2 ^ 32 }
    ensures asked { IfOk result (λ request. spec.asked request ≡ request_by at (statement_in text.now)) }
    ensures tree { IfOk result (λ request. spec.HasTree (statement_in text.now) request) }
    ensures entry { (name : Text) → is_session name ≡ true → at ≡ length name + 1 → IfOk result (λ request. spec.asked request ≡ request_of (whole_text name text.now)) }
{
    match read_statement(alloc, at, text)? {
        Ok(statement) => request_for(alloc, at, statement),
        Err(why) => Ok(Request::Faulty(why)),
    }
}

/// What a statement means over a catalogue, whose text stands at byte `at` of its entry; else its least fault, in the
/// words that stand behind `refused `: `no such N`, `exists N`, `ambiguous N`, `types at P`, `count` or a limit. An
/// `Err` is want of memory.
pub fn plan_statement(
    catalog: &Catalog,
    at: u32,
    statement: &Stmt,
) -> Result<Result<Plan, Chars>, NoMemory>
    ensures plan { IfOk result (λ answer. IsPlan catalog.now at statement.now answer) }
    ensures exact { (entry : Text) → IsReadAs (statement_of entry) (Ok statement.now) → at ≡ place_of entry → IfOk result (λ answer. answer ≡ plan_of catalog.now entry) }
{
    match bind(catalog, statement) {
        Ok(plan) => Ok(Ok(plan)),
        Err(fault) => Ok(Err(bind_words(catalog.alloc(), at, &fault)?)),
    }
}
