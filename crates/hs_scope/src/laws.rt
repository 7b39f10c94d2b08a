//! Laws of names, each on a function that does nothing.
ghost use Rattle.std.specs.Prelude.{◌≡◌, ℕ, true, false, List, ◌∷◌, Option, Some, slice_get};
ghost use Rattle.hs_ast.specs.declared.expression.ColumnName.{ColumnName};
ghost use Rattle.hs_plan.specs.declared.kind.Kind.{Kind};
ghost use Rattle.hs_scope.specs.declared.from_table.FromTable.{FromTable};
ghost use Rattle.hs_scope.specs.declared.sought.Found.{Found};
ghost use Rattle.hs_scope.specs.declared.sought.Found.TheVariants as found;
ghost use Rattle.hs_scope.specs.declared.sought.Sought.TheVariants as sought;
ghost use Rattle.hs_scope.specs.Names.{Text, Offer, offers, is_meant, sought_in, outward, found_in};

/// The column that a name means in a FROM has that name, and it is the only one there: it stands at the place that is
/// answered, and a column that has the name too stands at the same place. Where nothing is found, no column has the name.
pub fn the_column_that_is_found_is_the_only_one()
    ensures found { (tables : List FromTable) (table : Option Text) (name : Text) (at : ℕ) (kind : Option Kind) → sought_in tables table name ≡ sought.One at kind → (o : Offer) × (slice_get (offers tables) at ≡ Some o) × (is_meant table name o ≡ true) × (o.1.kind ≡ kind) }
    ensures only { (tables : List FromTable) (table : Option Text) (name : Text) (at : ℕ) (kind : Option Kind) → sought_in tables table name ≡ sought.One at kind → (i : ℕ) (o : Offer) → slice_get (offers tables) i ≡ Some o → is_meant table name o ≡ true → i ≡ at }
    ensures missing { (tables : List FromTable) (table : Option Text) (name : Text) → sought_in tables table name ≡ sought.Missing → (i : ℕ) (o : Offer) → slice_get (offers tables) i ≡ Some o → is_meant table name o ≡ false }
{}

/// The FROM of the own query is looked at before those around it: what it has, once or twice, hides all that stands
/// around it, and only what it hasn't is looked for farther out.
pub fn the_inner_query_comes_before_the_outer_ones()
    ensures one { (tables : List FromTable) (around : List (List FromTable)) (name : ColumnName) (at : ℕ) (kind : Option Kind) → sought_in tables name.table name.column ≡ sought.One at kind → found_in (tables ∷ around) name ≡ found.Column 0 at kind }
    ensures several { (tables : List FromTable) (around : List (List FromTable)) (name : ColumnName) → sought_in tables name.table name.column ≡ sought.Several → found_in (tables ∷ around) name ≡ found.Ambiguous }
    ensures missing { (tables : List FromTable) (around : List (List FromTable)) (name : ColumnName) → sought_in tables name.table name.column ≡ sought.Missing → found_in (tables ∷ around) name ≡ outward (found_in around name) }
{}
