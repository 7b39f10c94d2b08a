//! Laws of bound statements, each on a function that does nothing.
ghost use Rattle.std.specs.Prelude.{◌≡◌, Err};
ghost use Rattle.hs_ast.specs.declared.statement.Stmt.{Stmt};
ghost use Rattle.hs_statements.specs.Bound.{HasFreeNames, bound};
ghost use Rattle.hs_plan.specs.declared.fault.BindFault.TheVariants as fault;
ghost use Rattle.hs_schema.specs.Catalogue.{Things};
ghost use Rattle.hs_statements.specs.Statements.{Answer, AnswersStatement};

/// `bound` answers a statement over a catalogue by what it means there, or by its least fault. No other answer is
/// one, beside want of memory.
pub fn statements_have_one_answer()
    ensures answered { (things : Things) (statement : Stmt) → AnswersStatement things statement (bound things statement) }
    ensures only { (things : Things) (statement : Stmt) (answer : Answer) → AnswersStatement things statement answer → ¬ (answer ≡ Err fault.NoMemory) → answer ≡ bound things statement }
{}

/// What a statement means is never want of memory: where it has no fault, it means something, and each constraint that
/// has no name of its own is given one. Names end in a number of at most 64 digits, so that the catalogue and the
/// statement must have fewer constraints and indexes than there are such numbers.
pub fn what_is_meant_is_no_want_of_memory()
    ensures { (things : Things) (statement : Stmt) → HasFreeNames things statement → ¬ (bound things statement ≡ Err fault.NoMemory) }
{}
