//! Laws of trees, each on a function that does nothing.
ghost use Rattle.std.specs.Prelude.{◌≡◌, ◌↔◌, ℕ};
ghost use Rattle.hs_ast.specs.Places.{placed, placed_query, placed_statement, AreAlike, AreAlikeQueries, AreAlikeStatements};
ghost use Rattle.hs_ast.specs.Depth.{depth_of, query_depth_of};
ghost use Rattle.hs_ast.specs.Lawful.{is_lawful, is_lawful_query};
ghost use Rattle.hs_ast.specs.declared.expression.Expression.{Expression};
ghost use Rattle.hs_ast.specs.declared.query.Query.{Query};
ghost use Rattle.hs_ast.specs.declared.statement.Stmt.{Stmt};

/// Of places that are set twice those set last stand.
pub fn places_are_set_anew()
    ensures expressions { (p q : ℕ) (e : Expression) → placed p (placed q e) ≡ placed p e }
    ensures queries { (p q : ℕ) (query : Query) → placed_query p (placed_query q query) ≡ placed_query p query }
    ensures statements { (p q : ℕ) (statement : Stmt) → placed_statement p (placed_statement q statement) ≡ placed_statement p statement }
{}

/// Two trees are equal but for places exactly where setting all places, to whichever place, makes them equal.
pub fn alike_trees_differ_in_places_alone()
    ensures expressions { (p : ℕ) (a b : Expression) → AreAlike a b ↔ (placed p a ≡ placed p b) }
    ensures queries { (p : ℕ) (a b : Query) → AreAlikeQueries a b ↔ (placed_query p a ≡ placed_query p b) }
    ensures statements { (p : ℕ) (a b : Stmt) → AreAlikeStatements a b ↔ (placed_statement p a ≡ placed_statement p b) }
{}

/// Trees that are equal but for places have the same depth, and are lawful together.
pub fn places_make_no_depth_and_break_no_law()
    ensures depth { (a b : Expression) → AreAlike a b → depth_of a ≡ depth_of b }
    ensures query_depth { (a b : Query) → AreAlikeQueries a b → query_depth_of a ≡ query_depth_of b }
    ensures lawful { (a b : Expression) → AreAlike a b → is_lawful a ≡ is_lawful b }
    ensures lawful_query { (a b : Query) → AreAlikeQueries a b → is_lawful_query a ≡ is_lawful_query b }
{}
