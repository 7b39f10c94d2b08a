// The form in which equal values are identical.
ghost use Rattle.std.specs.Prelude.{◌≡◌, ◌-◌, ◌<◌, ◌↔◌, IsTrue, IfSome, IsNone, pos, int_div, int_rem};
ghost use Rattle.hs_values.specs.Order.{number_cmp};
ghost use Rattle.hs_values.specs.Key.{without_zeros, key_of};
ghost use Rattle.std.specs.declared.cmp.Ordering.TheVariants.{Equal};

use crate::decimal::cut;
use crate::value::{Dec, Value};

impl Dec {
    /// Whether the last digit is a zero.
    fn ends_in_zero(self) -> bool
        ensures { IsTrue result ↔ (int_rem self.units (pos 10) ≡ pos 0) }
    {
        self.units % 10 == 0
    }

    /// The number without its last digit behind the point.
    fn without_last_digit(self) -> Dec
        requires { 0 < self.scale }
        ensures { result ≡ record { units = int_div self.units (pos 10); scale = self.scale - 1 } }
    {
        Dec {
            units: cut(self.units, 1),
            scale: self.scale - 1,
        }
    }

    #[tactic(auto, using(crate::proofs::Keys::zero_dropped, crate::proofs::Keys::none_at_end, crate::proofs::Keys::none_behind))]
    /// The same number without one zero at its end behind the point, where there is one.
    fn without_last_zero(self) -> Option<Dec>
        ensures shorter { IfSome result (λ short. short.scale < self.scale) }
        ensures same { IfSome result (λ short. without_zeros short.units short.scale ≡ without_zeros self.units self.scale) }
        ensures none { IsNone result → self ≡ without_zeros self.units self.scale }
    {
        if self.scale == 0 {
            return None;
        }
        if !self.ends_in_zero() {
            return None;
        }
        Some(self.without_last_digit())
    }

    #[tactic(auto, using(crate::proofs::Keys::shortened_ties))]
    /// The same number without the zeros at the end of its digits behind the point: 12.00 becomes 12,
    /// 0.50 becomes 0.5, and 120 stays. Two decimals are the same number exactly where these are
    /// identical.
    pub fn without_trailing_zeros(self) -> Dec
        ensures value { result ≡ without_zeros self.units self.scale }
        ensures same { number_cmp result self ≡ Equal }
    {
        let mut short = self;
        while let Some(shorter) = short.without_last_zero() {
            short = shorter;
        }
        short
    }
}

impl Value {
    /// The value that stands for this one and all that are equal to it: a number as a decimal without
    /// zeros at its end, and any other value as it is. Two values are equal, by `order` and by `cmp`,
    /// exactly where their keys are identical. Takes no memory.
    pub fn into_key(self) -> Value
        ensures { result ≡ key_of self }
    {
        match self {
            Value::Int(n) => Value::Dec(Dec {
                units: i128::from(n),
                scale: 0,
            }),
            Value::Dec(d) => Value::Dec(d.without_trailing_zeros()),
            other => other,
        }
    }
}
