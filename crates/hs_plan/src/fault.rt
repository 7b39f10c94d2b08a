// The faults of binding, their classes and their order.
ghost use Rattle.std.specs.Prelude.{◌≡◌};
ghost use Rattle.hs_plan.specs.Fault.{rank_of, is_before, fault_of};

use hs_base::NoMemory;
use hs_values::Name;
use std::alloc::AllocError;

/// Which limit a statement passes.
#[derive(Clone, Copy, Debug)]
pub enum Which {
    Tables,
    Columns,
    Constraints,
}

/// Why a statement has no meaning over a catalogue.
#[derive(Debug, Drop)]
pub enum BindFault {
    /// There is no such table, column, constraint or index.
    NoSuch(Name),
    /// The name is taken, or named twice.
    Exists(Name),
    /// The name may mean several things.
    Ambiguous(Name),
    /// A rule of types is broken at this place, counted in bytes.
    Types(u32),
    /// Numbers of columns differ where they must be equal.
    Count,
    /// A limit would be passed.
    Limit(Which),
    /// Memory was refused. No rule says when.
    NoMemory,
}

impl From<AllocError> for BindFault {
    ghost use Rattle.std.specs.Prelude.{◌≡◌};
    ghost use Rattle.hs_plan.specs.declared.fault.BindFault.TheVariants.{NoMemory};

    ghost from_gives = { λ _ fault. fault ≡ NoMemory };

    fn from(_: AllocError) -> Self {
        BindFault::NoMemory
    }
}

impl From<NoMemory> for BindFault {
    ghost use Rattle.std.specs.Prelude.{◌≡◌};
    ghost use Rattle.hs_plan.specs.declared.fault.BindFault.TheVariants as fault;

    ghost from_gives = { λ _ given. given ≡ fault.NoMemory };

    fn from(_: NoMemory) -> Self {
        BindFault::NoMemory
    }
}

/// What is wrong at one place of a statement, in the order in which such causes count.
#[derive(Drop)]
pub enum Cause {
    NoSuchTable(Name),
    /// No such column, constraint or index.
    NoSuchColumn(Name),
    Exists(Name),
    Ambiguous(Name),
    Types,
    Count,
    Limit(Which),
}

impl Cause {
    /// The place of its class in the order, from 0.
    fn rank(&self) -> u8
        ensures { result ≡ rank_of self.now }
    {
        match self {
            Cause::NoSuchTable(_) => 0,
            Cause::NoSuchColumn(_) => 1,
            Cause::Exists(_) => 2,
            Cause::Ambiguous(_) => 3,
            Cause::Types => 4,
            Cause::Count => 5,
            Cause::Limit(Which::Tables) => 6,
            Cause::Limit(Which::Columns) => 7,
            Cause::Limit(Which::Constraints) => 8,
        }
    }
}

/// A cause and its place, counted in bytes. Of the faults of a statement the one that comes before all others
/// is answered.
#[derive(Drop)]
pub struct PlacedFault {
    pub at: u32,
    pub cause: Cause,
}

impl PlacedFault {
    /// Whether it counts before another one: it is of an earlier class, or of the same and further to the left.
    pub fn is_before(&self, other: &PlacedFault) -> bool
        ensures { result ≡ is_before self.now other.now }
    {
        let (mine, its) = (self.cause.rank(), other.cause.rank());
        mine < its || mine == its && self.at < other.at
    }

    /// The answer that it stands for.
    pub fn into_fault(self) -> BindFault
        ensures { result ≡ fault_of self }
    {
        let PlacedFault { at, cause } = self;
        match cause {
            Cause::NoSuchTable(name) => BindFault::NoSuch(name),
            Cause::NoSuchColumn(name) => BindFault::NoSuch(name),
            Cause::Exists(name) => BindFault::Exists(name),
            Cause::Ambiguous(name) => BindFault::Ambiguous(name),
            Cause::Types => BindFault::Types(at),
            Cause::Count => BindFault::Count,
            Cause::Limit(which) => BindFault::Limit(which),
        }
    }
}
