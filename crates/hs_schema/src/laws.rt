//! Laws of catalogues as lists of things, each on a function that does nothing. Proofs of other crates cite them from
//! `After.antt` in `proofs/`.
ghost use Rattle.std.specs.Prelude.{◌≡◌, ℕ, ◌<◌, ◌≤◌, nat_eq, List, [], ◌∷◌, Option, None, Some, if◌then◌else◌};
ghost use Rattle.std.specs.List.{All};
ghost use Rattle.std.specs.Option.{option_map};
ghost use Rattle.hs_ast.specs.declared.definition.Storage.{Storage};
ghost use Rattle.hs_base.specs.declared.numbers.TableNo.{TableNo};
ghost use Rattle.hs_plan.specs.declared.definition.Column.{Column};
ghost use Rattle.hs_plan.specs.declared.definition.Constraint.{Constraint};
ghost use Rattle.hs_plan.specs.declared.definition.Definition.{Definition};
ghost use Rattle.hs_plan.specs.declared.definition.Definition.TheVariants as d;
ghost use Rattle.hs_schema.specs.declared.table.Table.{Table};
ghost use Rattle.hs_schema.specs.declared.thing.Thing.{Thing};
ghost use Rattle.hs_schema.specs.Catalogue.{Text, Things, number_of, table_numbered, with_more, parts_made, after, AreNew, IsBound, IsNext};
ghost use Rattle.hs_schema.specs.Kept.{grown, without};
ghost use Rattle.hs_schema.specs.Whole.{IsWhole};

/// The empty catalogue is whole, and a definition that fits keeps it so: numbers ascend, no two tables have one name or
/// one number, and no two constraints or indexes one name.
pub fn a_definition_keeps_a_catalogue_whole()
    ensures empty { IsWhole [] }
    ensures kept { (things : Things) (number : ℕ) → IsWhole things → (definition : Definition) → IsBound things definition → IsNext things definition number → IsWhole (after things definition number) }
{}

/// Names and numbers of tables belong together: the table of a name's number has that name, and the table of a number
/// is found by its name.
pub fn a_table_is_found_by_its_name_and_its_number()
    ensures by_name { (things : Things) (name : Text) (n : TableNo) → IsWhole things → number_of things name ≡ Some n → (t : Table) × (table_numbered things n ≡ Some t) × (t.name ≡ name) × (t.number ≡ n) }
    ensures by_number { (things : Things) (n : TableNo) (t : Table) → IsWhole things → table_numbered things n ≡ Some t → number_of things t.name ≡ Some n }
{}

/// A definition makes or changes its own table, and no other one. What is added stands behind what was there.
pub fn a_definition_changes_its_own_table_alone()
    ensures create { (things : Things) (number : ℕ) → All (λ t. t.table.0 ≤ t.number) things → (storage : Storage) (name : Text) (columns : List Column) (constraints : List Constraint) → number_of things name ≡ None → AreNew things constraints → All (λ t. t.number < number) things → (m : TableNo) → table_numbered (after things (d.CreateTable storage name columns constraints) number) m ≡ (if nat_eq number m.0 then Some (record { name = name; number = record { 0 = number }; storage = storage; columns = columns; constraints = constraints }) else table_numbered things m) }
    ensures alter { (things : Things) (number : ℕ) → All (λ t. t.table.0 ≤ t.number) things → (table : Text) (n : TableNo) (found : Table) (column : Option Column) (constraints : List Constraint) → number_of things table ≡ Some n → table_numbered things n ≡ Some found → AreNew things constraints → All (λ t. t.number ≤ number) things → (m : TableNo) → table_numbered (with_more things table (parts_made number column constraints)) m ≡ (if nat_eq n.0 m.0 then Some (grown found column constraints) else table_numbered things m) }
    ensures drop_table { (things : Things) (name : Text) (n m : TableNo) (number : ℕ) → number_of things name ≡ Some n → table_numbered (after things (d.DropTable name) number) m ≡ (if nat_eq n.0 m.0 then None else table_numbered things m) }
    ensures drop_constraint { (things : Things) (table name : Text) (n m : TableNo) (number : ℕ) → number_of things table ≡ Some n → table_numbered (after things (d.DropConstraint table name) number) m ≡ (if nat_eq n.0 m.0 then option_map (without name) (table_numbered things m) else table_numbered things m) }
{}
