// What is counted in a run over generated input.
ghost use Rattle.std.specs.Prelude.{◌≡◌, ◌++◌, IfOk, OnOk};
ghost use Rattle.std.specs.Fmt.{decimal};
ghost use Rattle.hs_workload.specs.Generator.{summary_line};

use hs_base::NoMemory;
use hs_values::Bytes;
use itoa::Buffer;
use std::alloc::{AllocError, Global};

/// The entries, the final replies of each kind, the lines `waits for` and the lines `end` of a run.
#[derive(Clone, Copy, Debug, PartialEq, Eq)]
pub struct Summary {
    pub entries: u64,
    pub ok: u64,
    pub refused: u64,
    pub waits: u64,
    pub rolled_back: u64,
}

/// Adds the digits of a number.
pub fn push_number(out: &mut Bytes, number: u64) -> Result<(), AllocError>
    ensures { OnOk result (out.new ≡ out.old ++ decimal number) }
{
    let mut buffer = Buffer::new();
    out.extend(buffer.format(number).as_bytes())
}

impl Summary {
    /// The line `summary entries E ok O refused R waits W rolled back B` of these counts, with its end of line.
    pub fn line(&self, alloc: Global) -> Result<Bytes, NoMemory>
        ensures { IfOk result (λ line. line ≡ summary_line self.now) }
    {
        let mut line = Bytes::new(alloc);
        line.extend(b"summary entries ")?;
        push_number(&mut line, self.entries)?;
        line.extend(b" ok ")?;
        push_number(&mut line, self.ok)?;
        line.extend(b" refused ")?;
        push_number(&mut line, self.refused)?;
        line.extend(b" waits ")?;
        push_number(&mut line, self.waits)?;
        line.extend(b" rolled back ")?;
        push_number(&mut line, self.rolled_back)?;
        line.extend(b"\n")?;
        Ok(line)
    }
}
