// Models of transactions.
ghost use Rattle.std.specs.Prelude.{◌≡◌, ◌⊎◌, Bool, true, false, List, IfOk};
ghost use Rattle.hs_claims.specs.declared.claim.Claim.{Claim as TheClaim};
ghost use Rattle.hs_claims.specs.declared.footprint.Footprint.{Footprint as TheFootprint};
ghost use Rattle.hs_claims.specs.declared.model.ControlKind.{ControlKind as TheKind};
ghost use Rattle.hs_claims.specs.declared.model.Level.{Level as TheLevel};
ghost use Rattle.hs_claims.specs.declared.model.Level.TheVariants.{Ser};
ghost use Rattle.hs_claims.specs.Compatible.{fits};
ghost use Rattle.hs_claims.specs.Footprint.{Reference, IsLawful, IsClear, IsApart};
ghost use Rattle.hs_claims.specs.Wants.{wants_of, keeps_of, reads_start_of, offers, IsIn};

use crate::claims::Claims;
use crate::footprint::Footprint;
use hs_base::NoMemory;
use std::alloc::Global;

/// Which model of transactions a database has.
#[derive(Clone, Copy, Debug, PartialEq, Eq)]
pub enum ControlKind {
    /// Two-phase locks on tables.
    Locks,
    /// The same, but for read-only transactions, which read the state at their start.
    MvLocks,
    /// Claims on rows and keys, and snapshots.
    Mvcc,
}

/// The level that a transaction has under its model.
#[derive(Clone, Copy, Debug, PartialEq, Eq)]
pub enum Level {
    /// READ COMMITTED.
    Rc,
    /// SERIALIZABLE, by locks that are kept.
    Ser,
    /// Snapshot isolation.
    Snap,
}

/// A model of transactions: what data statements want and keep, and which state they read. What code over any model
/// may rely on stands here alone.
pub trait TxModel {
    /// Which model it is.
    ghost model: { TheKind };

    fn kind() -> ControlKind
        ensures { result ≡ model };

    /// Whether a statement reads the state at the start of its transaction, and not the present one.
    fn reads_start(level: Level, read_only: bool) -> bool
        ensures { result ≡ reads_start_of model level read_only };

    /// The claims that a statement with this footprint wants. An `Err` is want of memory.
    fn wants(
        alloc: Global,
        level: Level,
        read_only: bool,
        footprint: &Footprint,
    ) -> Result<Claims, NoMemory>
        ensures { IfOk result (λ claims. claims ≡ wants_of model level read_only footprint.now) };

    /// The claims that it keeps until its transaction ends. An `Err` is want of memory.
    fn keeps(
        alloc: Global,
        level: Level,
        read_only: bool,
        footprint: &Footprint,
    ) -> Result<Claims, NoMemory>
        ensures { IfOk result (λ claims. claims ≡ keeps_of model level read_only footprint.now) };

    /// What is kept is wanted.
    ghost kept_is_wanted: { (level : TheLevel) (read_only : Bool) (f : TheFootprint) (c : TheClaim) → IsIn c (keeps_of model level read_only f) → IsIn c (wants_of model level read_only f) };

    /// Cover: what goes together changes no common row or key, nor a parent key that the other names.
    ghost cover: { (references : List Reference) (level other : TheLevel) (read_only other_read_only : Bool) (f g : TheFootprint) → IsLawful references read_only f → IsLawful references other_read_only g
        → fits (wants_of model other other_read_only g) (keeps_of model level read_only f) ≡ true → IsClear f g };

    /// Hold: what goes together with a statement at SERIALIZABLE, where this one reads the present state, writes none
    /// of its tables.
    ghost hold: { (references : List Reference) (level other : TheLevel) (read_only other_read_only : Bool) (f g : TheFootprint) → IsLawful references read_only f → IsLawful references other_read_only g
        → offers model level ≡ true → level ≡ Ser → reads_start_of model level read_only ≡ false
        → (fits (wants_of model other other_read_only g) (keeps_of model level read_only f) ≡ true) ⊎ (fits (wants_of model level read_only f) (keeps_of model other other_read_only g) ≡ true) → IsApart f g };
}
