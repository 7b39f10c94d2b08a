// Values and faults of the rows of a group.
ghost use Rattle.std.specs.Prelude.{◌≡◌, Ok, Err, Some, None, OnOk};
ghost use Rattle.hs_rel.specs.Selection.{lesser_of, unless};
ghost use Rattle.hs_valued.specs.Gathering as spec;

use hs_values::{EvalFault, Row, Value};
use std::alloc::{AllocError, Global};

/// The values of the rows so far, and their least fault so far.
#[derive(Drop)]
pub(crate) struct Gathered {
    values: Row,
    fault: Option<EvalFault>,
}

fn lesser_of(a: Option<EvalFault>, b: EvalFault) -> EvalFault
    ensures { Some result ≡ lesser_of a b }
{
    match a {
        None => b,
        Some(a) => a.lesser(b),
    }
}

impl Gathered {
    /// Of no row. Takes no memory.
    pub(crate) fn new(alloc: Global) -> Gathered
        ensures { result ≡ spec.nothing }
    {
        Gathered {
            values: Row::new(alloc),
            fault: None,
        }
    }

    /// Adds the value of the next row.
    pub(crate) fn add(&mut self, value: Value) -> Result<(), AllocError>
        ensures { OnOk result (self.new ≡ spec.gathered self.old (Ok value)) }
    {
        self.values.push(value)
    }

    /// Adds the fault of the next row.
    pub(crate) fn add_fault(&mut self, fault: EvalFault)
        ensures { self.new ≡ spec.gathered self.old (Err fault) }
    {
        self.fault = Some(lesser_of(self.fault, fault));
    }

    /// The values, or the least fault.
    pub(crate) fn ended(self) -> Result<Row, EvalFault>
        ensures { result ≡ unless self.fault self.values }
    {
        match self.fault {
            None => Ok(self.values),
            Some(fault) => Err(fault),
        }
    }
}
