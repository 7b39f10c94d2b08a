// Rules as they are written.
ghost use Rattle.std.specs.Prelude.{◌≡◌, ◌++◌, OnOk};
ghost use Rattle.hs_keytext.specs.Owners.{seen};
ghost use Rattle.hs_tabletext.specs.Rules.{not_null_text, key_text, check_text, rule_text, IsPrintable};

use crate::conditions::Conditions;
use hs_base::NoMemory;
use hs_keytext::{Owner, print_foreign_key, print_places};
use hs_plan::{Column, Expr, Rule};
use hs_values::Chars;
use std::alloc::Global;

/// Adds NOT NULL with its column.
fn print_not_null(place: u32, columns: &[Column], out: &mut Chars) -> Result<(), NoMemory>
    ensures { OnOk result (out.new ≡ out.old ++ not_null_text columns.now place) }
{
    out.push_text("NOT NULL(")?;
    print_places(&[place], columns, out)?;
    Ok(out.push_text(")")?)
}

/// Adds this front, and columns with a closing parenthesis.
fn print_key(
    front: &str,
    places: &[u32],
    columns: &[Column],
    out: &mut Chars,
) -> Result<(), NoMemory>
    ensures { OnOk result (out.new ≡ out.old ++ key_text front.now columns.now places.now) }
{
    out.push_text(front)?;
    print_places(places, columns, out)?;
    Ok(out.push_text(")")?)
}

/// Adds CHECK with its condition.
fn print_check<C: Conditions>(
    alloc: Global,
    condition: &Expr,
    columns: &[Column],
    conditions: &C,
    out: &mut Chars,
) -> Result<(), NoMemory>
    requires { (C.wording conditions.now).Has columns.now condition.now }
    ensures { OnOk result (out.new ≡ out.old ++ check_text (C.wording conditions.now) columns.now condition.now) }
{
    out.push_text("CHECK(")?;
    conditions.print(alloc, condition, columns, out)?;
    Ok(out.push_text(")")?)
}

/// Adds the text of a rule of a constraint of this owner: `NOT NULL(C)`, `PRIMARY KEY(C,D)`, `UNIQUE(C)`, `CHECK(e)` or
/// `FOREIGN KEY(C) REFERENCES P(D) ON DELETE a ON UPDATE a`. The condition of a CHECK has a text. An index has none, and
/// nothing is added. A place that no column has has the empty name. An `Err` is want of memory, and then a part of the text
/// may be there.
pub fn print_rule<C: Conditions>(
    alloc: Global,
    rule: &Rule,
    owner: &Owner<'_>,
    conditions: &C,
    out: &mut Chars,
) -> Result<(), NoMemory>
    requires { IsPrintable (C.wording conditions.now) (seen owner.now).columns rule.now }
    ensures { OnOk result (out.new ≡ out.old ++ rule_text (C.wording conditions.now) (seen owner.now) rule.now) }
{
    match rule {
        Rule::NotNull(place) => print_not_null(*place, owner.columns, out),
        Rule::PrimaryKey(places) => {
            print_key("PRIMARY KEY(", places.as_slice(), owner.columns, out)
        }
        Rule::Unique(places) => print_key("UNIQUE(", places.as_slice(), owner.columns, out),
        Rule::Check(condition) => print_check(alloc, condition, owner.columns, conditions, out),
        Rule::ForeignKey(key) => print_foreign_key(key, owner, out),
        Rule::Index(_) => Ok(()),
    }
}
