// Why texts can't be made again.
use hs_base::NoMemory;

/// Why texts can't be made again.
#[derive(Clone, Copy, Debug, PartialEq, Eq)]
pub enum ReplayFault {
    /// The text of this number, counted from 1, is the first that is no commit's that may be made there.
    Broken(u64),
    /// Memory was refused. No rule says when.
    NoMemory,
}

impl From<NoMemory> for ReplayFault {
    ghost use Rattle.std.specs.Prelude.{◌≡◌};
    ghost use Rattle.hs_logged.specs.declared.fault.ReplayFault.TheVariants as fault;

    ghost from_gives = { λ f given. given ≡ fault.NoMemory };

    fn from(_: NoMemory) -> Self {
        ReplayFault::NoMemory
    }
}
