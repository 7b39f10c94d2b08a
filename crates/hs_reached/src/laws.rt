//! Laws of the tables that statements reach, each on a function that does nothing.
ghost use Rattle.std.specs.Prelude.{◌↔◌};
ghost use Rattle.std.specs.List.{Contains};
ghost use Rattle.std.specs.List.Sorted.{IsStrictlyIncreasing};
ghost use Rattle.hs_base.specs.declared.numbers.TableNo.{TableNo};
ghost use Rattle.hs_closure.specs.Changing.{IsRead, IsWritten};
ghost use Rattle.hs_closure.specs.Steps.{numbers};
ghost use Rattle.hs_plan.specs.declared.plan.Plan.{Plan};
ghost use Rattle.hs_reached.specs.Reached.{tables_read, tables_written};
ghost use Rattle.hs_schema.specs.Catalogue.{Things};

/// `tables_read` and `tables_written` have exactly the tables that a statement reads, and those that it writes, with
/// those to which foreign keys lead.
pub fn reached_tables_are_read_and_written()
    ensures read { (things : Things) (plan : Plan) (table : TableNo) → Contains (tables_read things plan) table ↔ IsRead things plan table }
    ensures written { (things : Things) (plan : Plan) (table : TableNo) → Contains (tables_written things plan) table ↔ IsWritten things plan table }
{}

/// Both list tables by ascending numbers, each once.
pub fn reached_tables_ascend()
    ensures read { (things : Things) (plan : Plan) → IsStrictlyIncreasing (numbers (tables_read things plan)) }
    ensures written { (things : Things) (plan : Plan) → IsStrictlyIncreasing (numbers (tables_written things plan)) }
{}
