//! Laws of the items of statements, each on a function that does nothing.
ghost use Rattle.std.specs.Prelude.{◌≡◌, ℕ, List, Err, MatchResult};
ghost use Rattle.hs_grammar.specs.Answer.{Faulty, Only};
ghost use Rattle.hs_grammar.specs.declared.types.Fault.TheVariants as faults;
ghost use Rattle.hs_items.specs.Items.{items_of};
ghost use Rattle.hs_syntax.specs.Meant.{IsMeantBy};
ghost use Rattle.hs_syntax.specs.Sql.{sql};
ghost use Rattle.hs_syntax.specs.Statement.{IsFaultOf};

/// `items_of` gives the items by which the literal grammar reads the classes of a statement's tokens, as they are
/// meant, and of all other classes their fault; and want of memory is none. The same by the grammar of the table.
pub fn classes_have_one_answer()
    ensures statement { (classes : List ℕ) → MatchResult (items_of classes) (λ items. IsMeantBy classes items) (λ fault. IsFaultOf classes fault) }
    ensures table { (classes : List ℕ) → MatchResult (items_of classes) (λ items. Only sql classes items) (λ fault. Faulty sql classes fault) }
    ensures memory { (classes : List ℕ) → ¬ (items_of classes ≡ Err faults.NoMemory) }
{}
