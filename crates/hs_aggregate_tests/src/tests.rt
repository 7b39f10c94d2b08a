// Aggregates of short lists of values.
use crate::texts::{is_wanted, read_value, read_wanted};
use Aggregate::{Avg, Count, Max, Min, Sum};
use hs_expression::{aggregate_value, count_value};
use hs_plan::Aggregate;
use hs_values::{EvalFault, Value};
use std::alloc::{AllocError, Global};
use std::test::Fail;

/// An aggregate, whether DISTINCT is written, the values, and what it gives.
static CASES: [(Aggregate, bool, &str, &str); 36] = [
    (Count, false, "1 - 2 2", "3"),
    (Count, true, "1 - 2 2", "2"),
    (Count, false, "-", "0"),
    (Count, true, "- -", "0"),
    (Count, true, "'a 'A 'a", "2"),
    (Sum, false, "1 2 3", "6"),
    (Sum, false, "1 - 3", "4"),
    (Sum, true, "2 2 3", "5"),
    (Sum, false, "-", "-"),
    (Sum, false, "0", "0"),
    (Sum, false, "-1 -2", "-3"),
    (Sum, false, "1.50 2.25 -0.75", "3.00"),
    (Sum, false, "0.00 -", "0.00"),
    (Sum, false, "9223372036854775807 -1 1", "!range"),
    (Sum, false, "9223372036854775807 -1", "9223372036854775806"),
    (Sum, false, "-9223372036854775808 -1", "!range"),
    (Sum, false, "-9223372036854775808 9223372036854775807", "-1"),
    (
        Sum,
        true,
        "9223372036854775807 9223372036854775807",
        "9223372036854775807",
    ),
    (
        Sum,
        false,
        "9999999999999999999999999999999999999.9 0.1",
        "!range",
    ),
    (Avg, false, "1 2", "1"),
    (Avg, false, "-1 -2", "-1"),
    (Avg, false, "1.00 2.00 2.00", "1.66"),
    (Avg, true, "1.00 2.00 2.00", "1.50"),
    (Avg, false, "1 - 3", "2"),
    (Avg, false, "-", "-"),
    (Avg, false, "9223372036854775807 1", "!range"),
    (Min, false, "3 1 2", "1"),
    (Min, false, "- 3", "3"),
    (Min, false, "-", "-"),
    (Min, false, "'b 'a", "'a"),
    (Min, true, "FALSE TRUE", "FALSE"),
    (Max, false, "3 1 -", "3"),
    (Max, false, "0.50 -1.25", "0.50"),
    (Max, false, "'Z 'a", "'a"),
    (Max, true, "1 1", "1"),
    (Max, false, "- -", "-"),
];

fn read_values(alloc: Global, text: &str) -> Result<Vec<Value>, AllocError> {
    let mut values = Vec::new(alloc);
    for one in text.split(' ') {
        values.push(read_value(alloc, one)?)?;
    }
    Ok(values)
}

fn answer(
    alloc: Global,
    function: Aggregate,
    distinct: bool,
    text: &str,
) -> Result<Value, EvalFault> {
    aggregate_value(alloc, function, distinct, read_values(alloc, text)?)
}

#[test]
fn aggregates_give_their_values(rt: HostRuntime) -> Result<(), Fail> {
    let alloc = rt.alloc();
    for (function, distinct, text, wanted) in CASES {
        let given = answer(alloc, function, distinct, text);
        assert!(rt;
            is_wanted(&given, &read_wanted(alloc, wanted)),
            "{function:?} of {text} wants {wanted} and gives {given:?}"
        );
    }
    let none = aggregate_value(alloc, Sum, false, Vec::new(alloc));
    assert!(rt; matches!(&none, Ok(Value::Null)));
    assert!(rt; matches!(&count_value(3), Ok(Value::Int(3))));
    Ok(())
}
