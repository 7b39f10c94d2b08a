// SQL as a database system.
use hs_system::Governed;

/// SQL, as a database system whose runs have the laws of `hs_system`.
pub struct Sql;

impl Governed for Sql {
    ghost use Rattle.hs_plainsql.specs.Naming.{are_named};
    ghost use Rattle.hs_engine.specs.Sql.{IsRegular, sql_system};
    ghost use Rattle.hs_engine.specs.Meets.{sql_governed};

    ghost system = { sql_system };

    ghost is_named = { are_named };

    ghost regular = { IsRegular };

    ghost governed = { sql_governed };
}
