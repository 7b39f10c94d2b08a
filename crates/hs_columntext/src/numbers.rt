// Numbers in types.
ghost use Rattle.std.specs.Prelude.{◌≡◌, true};
ghost use Rattle.hs_valuetext.specs.Finding.{Finds};
ghost use Rattle.hs_valuetext.specs.Values.{is_end};
ghost use Rattle.hs_columntext.specs.Types.{IsBoundedAt};

use hs_valuetext::read_unsigned;

/// The number at the front in these bounds, with this byte behind it, and what is behind that.
pub(crate) fn read_bounded(text: &str, least: u16, most: u16, close: char) -> Option<(u16, &str)>
    requires { is_end close ≡ true }
    ensures { Finds (λ n. n) (IsBoundedAt least most close text.now) result }
{
    match text.split_once(close) {
        Some((digits, rest)) => match read_unsigned(digits) {
            Some(number) => {
                if number < u64::from(least) {
                    None
                } else if number > u64::from(most) {
                    None
                } else {
                    Some((number as u16, rest))
                }
            }
            None => None,
        },
        None => None,
    }
}
