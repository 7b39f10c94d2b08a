// Values and rows by `==` and `<`, as maps and sorts want them.
use crate::compare::{order, order_rows};
use crate::row::Row;
use crate::value::Value;
use std::cmp::Ordering;

// Values compare by `order`: two are equal where they tie there, so NULL and NULL are, and 1 and 1.00.
impl PartialEq for Value {
    ghost use Rattle.std.specs.Ordering.{eq_by_cmp};
    ghost use Rattle.std.specs.Cmp.{partial_equiv_from_equiv, eq_by_cmp_equiv};
    ghost use Rattle.hs_values.specs.Order.{order_of};
    ghost use Rattle.hs_values.specs.TotalOrder.{order_of_total};

    ghost eq = { eq_by_cmp order_of };

    ghost laws = { partial_equiv_from_equiv (eq_by_cmp_equiv order_of_total) };

    fn eq(&self, other: &Self) -> bool {
        self.cmp(other) == Ordering::Equal
    }
}

impl Eq for Value {
    ghost use Rattle.std.specs.Cmp.{eq_by_cmp_equiv};
    ghost use Rattle.hs_values.specs.TotalOrder.{order_of_total};

    ghost laws = { eq_by_cmp_equiv order_of_total };
}

impl PartialOrd for Value {
    ghost use Rattle.std.specs.Prelude.{Some, refl};
    ghost use Rattle.std.specs.Cmp.{partial_order_from_agreeing_total};
    ghost use Rattle.hs_values.specs.Order.{order_of};
    ghost use Rattle.hs_values.specs.TotalOrder.{order_of_total};

    ghost partial_cmp = { λ a b. Some (order_of a b) };

    ghost laws = { partial_order_from_agreeing_total order_of order_of_total (λ a b. refl) (λ a b. refl) };

    fn partial_cmp(&self, other: &Self) -> Option<Ordering> {
        Some(self.cmp(other))
    }
}

impl Ord for Value {
    ghost use Rattle.std.specs.Prelude.{refl};
    ghost use Rattle.hs_values.specs.Order.{order_of};
    ghost use Rattle.hs_values.specs.TotalOrder.{order_of_total};

    ghost cmp = { order_of };

    ghost total = { order_of_total };

    ghost matches_partial_cmp = { λ a b. refl };

    ghost matches_eq = { λ a b. refl };

    fn cmp(&self, other: &Self) -> Ordering {
        order(self.as_value_ref(), other.as_value_ref())
    }
}

// Rows compare by `order_rows`: two are equal where they tie there.
impl PartialEq for Row {
    ghost use Rattle.std.specs.Ordering.{eq_by_cmp};
    ghost use Rattle.std.specs.Cmp.{partial_equiv_from_equiv, eq_by_cmp_equiv};
    ghost use Rattle.hs_values.specs.Order.{row_order_of};
    ghost use Rattle.hs_values.specs.TotalOrder.{row_order_of_total};

    ghost eq = { eq_by_cmp row_order_of };

    ghost laws = { partial_equiv_from_equiv (eq_by_cmp_equiv row_order_of_total) };

    fn eq(&self, other: &Self) -> bool {
        self.cmp(other) == Ordering::Equal
    }
}

impl Eq for Row {
    ghost use Rattle.std.specs.Cmp.{eq_by_cmp_equiv};
    ghost use Rattle.hs_values.specs.TotalOrder.{row_order_of_total};

    ghost laws = { eq_by_cmp_equiv row_order_of_total };
}

impl PartialOrd for Row {
    ghost use Rattle.std.specs.Prelude.{Some, refl};
    ghost use Rattle.std.specs.Cmp.{partial_order_from_agreeing_total};
    ghost use Rattle.hs_values.specs.Order.{row_order_of};
    ghost use Rattle.hs_values.specs.TotalOrder.{row_order_of_total};

    ghost partial_cmp = { λ a b. Some (row_order_of a b) };

    ghost laws = { partial_order_from_agreeing_total row_order_of row_order_of_total (λ a b. refl) (λ a b. refl) };

    fn partial_cmp(&self, other: &Self) -> Option<Ordering> {
        Some(self.cmp(other))
    }
}

impl Ord for Row {
    ghost use Rattle.std.specs.Prelude.{refl};
    ghost use Rattle.hs_values.specs.Order.{row_order_of};
    ghost use Rattle.hs_values.specs.TotalOrder.{row_order_of_total};

    ghost cmp = { row_order_of };

    ghost total = { row_order_of_total };

    ghost matches_partial_cmp = { λ a b. refl };

    ghost matches_eq = { λ a b. refl };

    fn cmp(&self, other: &Self) -> Ordering {
        order_rows(self.as_slice(), other.as_slice())
    }
}
