//! Laws of requests and plans, each on a function that does nothing.
ghost use Rattle.std.specs.Prelude.{◌≡◌, ◌+◌, true, length, Result, Ok, Err};
ghost use Rattle.hs_ast.specs.declared.statement.Stmt.{Stmt};
ghost use Rattle.hs_entries.specs.Entry.{is_session, place_of, statement_of};
ghost use Rattle.hs_plan.specs.declared.plan.Plan.{Plan};
ghost use Rattle.hs_read.specs.Read.{IsReadAs, Refusal};
ghost use Rattle.hs_requests.specs.Plans.{IsPlan, goes_with, plan_of};
ghost use Rattle.hs_requests.specs.Requests.{request_by, request_of};
ghost use Rattle.hs_requests.specs.Words.{refusal_words};
ghost use Rattle.hs_schema.specs.Catalogue.{Text, Things};
ghost use Rattle.hs_statements.specs.Statements.{AnswersStatement};
ghost use Rattle.hs_turns.specs.Turns.{whole_text};

/// The text behind the colon tells what an entry asks for: by the kind of the statement that it is, or for which
/// reason it is none.
pub fn requests_are_told_by_texts()
    ensures { (entry : Text) (answer : Result Stmt Refusal) → IsReadAs (statement_of entry) answer → request_of entry ≡ request_by (place_of entry) answer }
{}

/// An entry that is a statement means over a catalogue what is answered to that statement; and where it is none, it
/// means nothing for the same reason. A plan is of the kind that the entry asks for.
pub fn plans_are_answers_to_statements()
    ensures answered { (things : Things) (entry : Text) (statement : Stmt) → IsReadAs (statement_of entry) (Ok statement) → IsPlan things (place_of entry) statement (plan_of things entry) }
    ensures unread { (things : Things) (entry : Text) (refusal : Refusal) → IsReadAs (statement_of entry) (Err refusal) → plan_of things entry ≡ Err (refusal_words (place_of entry) refusal) }
    ensures meant { (things : Things) (entry : Text) (plan : Plan) → plan_of things entry ≡ Ok plan → (statement : Stmt) × IsReadAs (statement_of entry) (Ok statement) × AnswersStatement things statement (Ok plan) }
    ensures kind { (things : Things) (entry : Text) (plan : Plan) → plan_of things entry ≡ Ok plan → goes_with (request_of entry) plan ≡ true }
{}

/// The statement of an entry stands behind the session's name and the colon.
pub fn statements_stand_behind_their_session()
    ensures statement { (name statement : Text) → is_session name ≡ true → statement_of (whole_text name statement) ≡ statement }
    ensures place { (name statement : Text) → is_session name ≡ true → place_of (whole_text name statement) ≡ length name + 1 }
{}
