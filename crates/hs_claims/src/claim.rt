// A claim, and whether two go together.
ghost use Rattle.std.specs.Prelude.{◌≡◌, IfOk};
ghost use Rattle.hs_claims.specs.Compatible as spec;

use crate::resource::Resource;
use hs_base::NoMemory;

/// A claim on a resource: exclusive to write it, and else shared, to read it.
#[derive(Debug, Drop)]
pub struct Claim {
    pub resource: Resource,
    pub exclusive: bool,
}

impl Claim {
    /// The same claim in memory of its own. An `Err` is want of memory.
    pub fn copy(&self) -> Result<Claim, NoMemory>
        ensures { IfOk result (λ copied. copied ≡ self.now) }
    {
        Ok(Claim {
            resource: self.resource.copy()?,
            exclusive: self.exclusive,
        })
    }
}

/// Whether two sessions may hold these claims at once: exactly where they are on two resources, or both are shared.
/// Takes no memory.
pub fn compatible(a: &Claim, b: &Claim) -> bool
    ensures { result ≡ spec.compatible a.now b.now }
{
    !a.resource.is_same(&b.resource) || !(a.exclusive || b.exclusive)
}
