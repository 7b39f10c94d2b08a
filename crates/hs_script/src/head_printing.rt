// The first group of a slot as it is written.
ghost use Rattle.std.specs.Prelude.{◌≡◌, ◌++◌, codes, OnOk};
ghost use Rattle.std.specs.Fmt.{decimal};
ghost use Rattle.hs_script.specs.Heads.{control_text, last_text, settings_text, head_text};

use crate::head::Head;
use hs_base::NoMemory;
use hs_claims::ControlKind;
use hs_values::Chars;
use itoa::Buffer;

/// Adds this front, and the digits of a number.
fn print_count(front: &str, number: u64, out: &mut Chars) -> Result<(), NoMemory>
    ensures { OnOk result (out.new ≡ out.old ++ (front.now ++ decimal number)) }
{
    out.push_text(front)?;
    Ok(out.push_text(Buffer::new().format(number))?)
}

/// Adds the word of a model.
fn print_control(control: ControlKind, out: &mut Chars) -> Result<(), NoMemory>
    ensures { OnOk result (out.new ≡ out.old ++ control_text control) }
{
    match control {
        ControlKind::Locks => Ok(out.push_text("LOCKS")?),
        ControlKind::MvLocks => Ok(out.push_text("MVLOCKS")?),
        ControlKind::Mvcc => Ok(out.push_text("MVCC")?),
    }
}

/// Adds the words of a level with a line feed behind them.
fn print_last(serializable: bool, out: &mut Chars) -> Result<(), NoMemory>
    ensures { OnOk result (out.new ≡ out.old ++ last_text serializable) }
{
    if serializable {
        Ok(out.push_text("SERIALIZABLE\n")?)
    } else {
        Ok(out.push_text("READ COMMITTED\n")?)
    }
}

fn print_settings(control: ControlKind, serializable: bool, out: &mut Chars) -> Result<(), NoMemory>
    ensures { OnOk result (out.new ≡ out.old ++ settings_text control serializable) }
{
    out.push_text("\nCONTROL ")?;
    print_control(control, out)?;
    out.push_text("\nLEVEL ")?;
    print_last(serializable, out)
}

/// Adds the first group of a slot: six lines, each with a line feed at its end. An `Err` is want of memory, and then a part of
/// the text may be there.
pub fn print_head(head: &Head, out: &mut Chars) -> Result<(), NoMemory>
    ensures { OnOk result (out.new ≡ out.old ++ head_text head.now) }
{
    print_count("FORMAT 1\nCOMMITS ", head.commits.0, out)?;
    print_count("\nCHANGES ", head.changes, out)?;
    print_count("\nPAGES ", head.pages, out)?;
    print_settings(head.control, head.serializable, out)
}
