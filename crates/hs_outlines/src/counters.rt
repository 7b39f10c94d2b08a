// Which numbers of names are known to be taken.
ghost use Rattle.std.specs.Prelude.{Bool};
ghost use Rattle.hs_elements.specs.Faults.{Text};
ghost use Rattle.hs_outlines.specs.Counters as spec;

use hs_elements::ConstraintKind;

/// For each kind of constraint a number below which those from 1 on are taken. So no number is tried again and again.
#[derive(Clone, Copy)]
pub struct Counters {
    pub null: u64,
    pub primary: u64,
    pub unique: u64,
    pub check: u64,
    pub foreign: u64,
}

impl Counters {
    pub(crate) fn new() -> Counters
        ensures { (taken : Text → Bool) (table : Text) → spec.AreTried taken table result }
    {
        Counters {
            null: 1,
            primary: 1,
            unique: 1,
            check: 1,
            foreign: 1,
        }
    }

    pub(crate) fn of(&self, kind: ConstraintKind) -> u64
        ensures { (taken : Text → Bool) (table : Text) → spec.AreTried taken table self.now → spec.IsTried taken table kind result }
    {
        match kind {
            ConstraintKind::NotNull => self.null,
            ConstraintKind::PrimaryKey => self.primary,
            ConstraintKind::Unique => self.unique,
            ConstraintKind::Check => self.check,
            ConstraintKind::ForeignKey => self.foreign,
        }
    }

    pub(crate) fn set(&mut self, kind: ConstraintKind, n: u64)
        ensures { (taken : Text → Bool) (table : Text) → spec.AreTried taken table self.old → spec.IsTried taken table kind n → spec.AreTried taken table self.new }
    {
        match kind {
            ConstraintKind::NotNull => self.null = n,
            ConstraintKind::PrimaryKey => self.primary = n,
            ConstraintKind::Unique => self.unique = n,
            ConstraintKind::Check => self.check = n,
            ConstraintKind::ForeignKey => self.foreign = n,
        }
    }
}
