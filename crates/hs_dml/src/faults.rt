// Faults of several rows.
ghost use Rattle.std.specs.Prelude.{◌≡◌, Some};
ghost use Rattle.hs_rel.specs.Selection as selection;

use hs_values::EvalFault;

/// Of a fault or none, and another one, the least.
pub(crate) fn lesser_of(fault: Option<EvalFault>, other: EvalFault) -> EvalFault
    ensures { Some result ≡ selection.lesser_of fault other }
{
    match fault {
        Some(fault) => fault.lesser(other),
        None => other,
    }
}
