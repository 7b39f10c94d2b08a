// Database systems that runs may be over.
ghost use Rattle.std.specs.Prelude.{Bool};
ghost use Rattle.hs_turns.specs.Database.{Database};
ghost use Rattle.hs_schema.specs.Catalogue.{Things};
ghost use Rattle.hs_system.specs.Governed.{IsGoverned};
ghost use Rattle.hs_system.specs.System.{System};

/// A database system that runs may be over. It has no calls: what a run does with it says `hs_program`.
pub trait Governed {
    ghost system: { System };

    /// Which catalogues have names that may stand in a line.
    ghost is_named: { Things → Bool };

    /// What is so of a database whichever constraints hold.
    ghost regular: { Database → Type 0 };

    /// It meets what is asked of a system.
    ghost governed: { IsGoverned is_named regular system };
}
