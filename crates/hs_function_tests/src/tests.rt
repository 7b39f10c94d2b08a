// Each operation with its values, its NULLs and its faults, from the rules that docs/SQL.md tells.
use crate::operations::*;
use crate::texts::{is_wanted, read_operands, read_value, read_wanted};
use hs_expression::{
    between_value, binary_value, equal_test, given_at, greatest_test, is_below_zero, is_null,
    is_true, least_test, negated_if, plus, quotient, read_value as read_as, readable, sum,
    ternary_value, unary_value,
};
use hs_plan::{Kind, Reading};
use hs_values::{EvalFault, Value};
use std::alloc::Global;
use std::test::Fail;

/// An operation, its operands, and what it gives.
static CASES: [(Operation, &str, &str); 234] = [
    (MINUS, "5", "-5"),
    (MINUS, "-9223372036854775808", "!range"),
    (MINUS, "1.50", "-1.50"),
    (MINUS, "-", "-"),
    (PLUS, "5", "5"),
    (PLUS, "-1.50", "-1.50"),
    (PLUS, "-", "-"),
    (NOT, "TRUE", "FALSE"),
    (NOT, "FALSE", "TRUE"),
    (NOT, "-", "-"),
    (IS_NULL, "-", "TRUE"),
    (IS_NULL, "0", "FALSE"),
    (IS_NULL, "'", "FALSE"),
    (IS_NOT_NULL, "-", "FALSE"),
    (IS_NOT_NULL, "FALSE", "TRUE"),
    (ABS, "-5", "5"),
    (ABS, "5", "5"),
    (ABS, "0", "0"),
    (ABS, "-0.50", "0.50"),
    (ABS, "-9223372036854775808", "!range"),
    (ABS, "-", "-"),
    (UPPER, "'añb", "'AñB"),
    (UPPER, "-", "-"),
    (LOWER, "'ABÑ", "'abÑ"),
    (LOWER, "-", "-"),
    (CHAR_LENGTH, "'añb", "3"),
    (CHAR_LENGTH, "'", "0"),
    (CHAR_LENGTH, "-", "-"),
    (TRIM, "'  a b  ", "'a b"),
    (TRIM, "-", "-"),
    (TRIM_LEADING, "'  a ", "'a "),
    (TRIM_TRAILING, "'  a ", "'  a"),
    (YEAR, "D2024-02-29", "2024"),
    (MONTH, "D2024-02-29", "2"),
    (DAY, "D2024-02-29", "29"),
    (YEAR, "T2024-02-29 08:05:09.5", "2024"),
    (HOUR, "T2024-02-29 08:05:09.5", "8"),
    (MINUTE, "T2024-02-29 08:05:09.5", "5"),
    (SECOND, "T2024-02-29 08:05:09.5", "9"),
    (SECOND, "T0001-01-01 00:00:59.999999", "59"),
    (YEAR, "-", "-"),
    (HOUR, "-", "-"),
    (NEXT_DAY, "D2024-02-28", "D2024-02-29"),
    (NEXT_DAY, "D2024-12-31", "D2025-01-01"),
    (NEXT_DAY, "D9999-12-31", "!range"),
    (NEXT_DAY, "T2024-02-28 08:05:09.5", "T2024-02-29 08:05:09.5"),
    (NEXT_DAY, "T9999-12-31 00:00:00", "!range"),
    (NEXT_DAY, "-", "-"),
    (DAY_BEFORE, "D2024-03-01", "D2024-02-29"),
    (DAY_BEFORE, "D0001-01-01", "!range"),
    (NEXT_MONTH, "D2024-01-31", "D2024-02-29"),
    (NEXT_MONTH, "D2023-01-31", "D2023-02-28"),
    (NEXT_MONTH, "D2023-12-15", "D2024-01-15"),
    (NEXT_MONTH, "D9999-12-01", "!range"),
    (
        NEXT_MONTH,
        "T2024-01-31 23:59:59.999999",
        "T2024-02-29 23:59:59.999999",
    ),
    (NEXT_MONTH, "-", "-"),
    (MONTH_BEFORE, "D2024-03-31", "D2024-02-29"),
    (MONTH_BEFORE, "D0001-01-31", "!range"),
    (FAR_DAYS, "D2024-03-31", "!range"),
    (TO_SMALL, "50.5", "50"),
    (TO_SMALL, "-50.9", "-50"),
    (TO_SMALL, "40000", "!range"),
    (TO_SMALL, "-32768", "-32768"),
    (TO_SMALL, "-", "-"),
    (TO_BIG, "#9223372036854775807", "9223372036854775807"),
    (TO_BIG, "#9223372036854775808", "!range"),
    (TO_DECIMAL, "50.5", "50.50"),
    (TO_DECIMAL, "5", "5.00"),
    (TO_DECIMAL, "-0.999", "-0.99"),
    (TO_DECIMAL, "9999999999", "9999999999.00"),
    (TO_DECIMAL, "10000000000", "!range"),
    (TO_DECIMAL, "-", "-"),
    (TO_TEXT, "-12", "'-12"),
    (TO_TEXT, "0", "'0"),
    (TO_TEXT, "-9223372036854775808", "'-9223372036854775808"),
    (TO_TEXT, "-0.33", "'-0.33"),
    (TO_TEXT, "#12", "'12"),
    (TO_TEXT, "'it's", "'it's"),
    (TO_TEXT, "TRUE", "'TRUE"),
    (TO_TEXT, "FALSE", "'FALSE"),
    (TO_TEXT, "D2024-02-29", "'2024-02-29"),
    (
        TO_TEXT,
        "T2024-02-29 08:05:00",
        "'2024-02-29 08:05:00.000000",
    ),
    (TO_TEXT, "-", "-"),
    (TO_SHORT_TEXT, "'añbc", "'añbc"),
    (TO_SHORT_TEXT, "'añbcd", "!long"),
    (TO_SHORT_TEXT, "TRUE", "'TRUE"),
    (TO_SHORT_TEXT, "FALSE", "!long"),
    (TO_SHORT_TEXT, "12345", "!long"),
    (TO_SHORT_TEXT, "D2024-02-29", "!long"),
    (TO_BOOLEAN, "TRUE", "TRUE"),
    (TO_BOOLEAN, "-", "-"),
    (TO_DATE, "'2024-02-29", "D2024-02-29"),
    (TO_DATE, "'2023-02-29", "!date"),
    (TO_DATE, "'", "!date"),
    (TO_DATE, "T2024-02-29 23:59:59.9", "D2024-02-29"),
    (TO_DATE, "D2024-02-29", "D2024-02-29"),
    (TO_DATE, "-", "-"),
    (
        TO_TIMESTAMP,
        "'2024-02-29 08:05:00.5",
        "T2024-02-29 08:05:00.5",
    ),
    (TO_TIMESTAMP, "'2024-02-29", "!date"),
    (TO_TIMESTAMP, "D2024-02-29", "T2024-02-29 00:00:00"),
    (TO_TIMESTAMP, "T2024-02-29 08:05:00", "T2024-02-29 08:05:00"),
    (TO_TIMESTAMP, "-", "-"),
    (ADD, "1|2", "3"),
    (ADD, "9223372036854775807|1", "!range"),
    (ADD, "-9223372036854775808|-1", "!range"),
    (ADD, "1|0.5", "1.5"),
    (ADD, "1.25|-0.5", "0.75"),
    (ADD, "#99999999999999999999999999999999999999|1", "!range"),
    (ADD, "#10000000000000000000000000000000000000|0.5", "!range"),
    (ADD, "1|-", "-"),
    (ADD, "-|0.5", "-"),
    (SUBTRACT, "1|2", "-1"),
    (SUBTRACT, "-9223372036854775808|1", "!range"),
    (SUBTRACT, "1.00|3", "-2.00"),
    (SUBTRACT, "-|-", "-"),
    (MULTIPLY, "3|-4", "-12"),
    (MULTIPLY, "3037000500|3037000500", "!range"),
    (MULTIPLY, "7.5|2.0", "15.00"),
    (MULTIPLY, "2|0.25", "0.50"),
    (
        MULTIPLY,
        "0.00000000000000000001|0.00000000000000000001",
        "!range",
    ),
    (MULTIPLY, "-|2", "-"),
    (DIVIDE, "-7|2", "-3"),
    (DIVIDE, "7|-2", "-3"),
    (DIVIDE, "7|0", "!division"),
    (DIVIDE, "1.00|3", "0.33"),
    (DIVIDE, "-1|3.000", "-0.333"),
    (DIVIDE, "2|0.5", "4.0"),
    (DIVIDE, "1|0.00", "!division"),
    (DIVIDE, "-9223372036854775808|-1", "!range"),
    (
        DIVIDE,
        "#10000000000000000000000000000000000000|0.1",
        "!range",
    ),
    (DIVIDE, "-|0", "-"),
    (DIVIDE, "1|-", "-"),
    (MOD, "-7|2", "-1"),
    (MOD, "7|-2", "1"),
    (MOD, "-9223372036854775808|-1", "0"),
    (MOD, "5|0", "!division"),
    (MOD, "-|0", "-"),
    (CONCATENATE, "'a|'b", "'ab"),
    (CONCATENATE, "'a|'", "'a"),
    (CONCATENATE, "'a|-", "-"),
    (CONCATENATE, "-|'b", "-"),
    (EQUAL, "1|1.00", "TRUE"),
    (EQUAL, "1|2", "FALSE"),
    (EQUAL, "'a|'A", "FALSE"),
    (EQUAL, "'|'", "TRUE"),
    (EQUAL, "D2024-02-29|D2024-02-29", "TRUE"),
    (EQUAL, "-|-", "-"),
    (EQUAL, "1|-", "-"),
    (NOT_EQUAL, "1|1.00", "FALSE"),
    (NOT_EQUAL, "1|2", "TRUE"),
    (NOT_EQUAL, "-|1", "-"),
    (LESS, "2|10", "TRUE"),
    (LESS, "'2|'10", "FALSE"),
    (LESS, "'z|'ä", "TRUE"),
    (LESS, "FALSE|TRUE", "TRUE"),
    (LESS, "1.5|1.49", "FALSE"),
    (LESS, "1|1", "FALSE"),
    (LESS, "-|1", "-"),
    (LESS_OR_EQUAL, "1|1.0", "TRUE"),
    (LESS_OR_EQUAL, "2|1", "FALSE"),
    (GREATER, "D2024-03-01|D2024-02-29", "TRUE"),
    (GREATER, "1|1", "FALSE"),
    (GREATER, "1|-", "-"),
    (
        GREATER_OR_EQUAL,
        "T2024-02-29 08:05:00|T2024-02-29 08:05:00.000001",
        "FALSE",
    ),
    (GREATER_OR_EQUAL, "0.10|0.1", "TRUE"),
    (AND, "TRUE|TRUE", "TRUE"),
    (AND, "TRUE|FALSE", "FALSE"),
    (AND, "FALSE|TRUE", "FALSE"),
    (AND, "FALSE|FALSE", "FALSE"),
    (AND, "TRUE|-", "-"),
    (AND, "-|TRUE", "-"),
    (AND, "FALSE|-", "FALSE"),
    (AND, "-|FALSE", "FALSE"),
    (AND, "-|-", "-"),
    (OR, "TRUE|TRUE", "TRUE"),
    (OR, "TRUE|FALSE", "TRUE"),
    (OR, "FALSE|TRUE", "TRUE"),
    (OR, "FALSE|FALSE", "FALSE"),
    (OR, "TRUE|-", "TRUE"),
    (OR, "-|TRUE", "TRUE"),
    (OR, "FALSE|-", "-"),
    (OR, "-|FALSE", "-"),
    (OR, "-|-", "-"),
    (NULL_IF, "1|1.0", "-"),
    (NULL_IF, "1|2", "1"),
    (NULL_IF, "'a|'b", "'a"),
    (NULL_IF, "-|1", "-"),
    (NULL_IF, "1|-", "1"),
    (NULL_IF_DAY, "'2024-02-29|D2024-02-29", "-"),
    (NULL_IF_DAY, "'2024-02-29|D2024-03-01", "'2024-02-29"),
    (NULL_IF_NO_DAY, "'x|D2024-03-01", "!date"),
    (LIKE, "'abc|'a%", "TRUE"),
    (LIKE, "'abc|'a_", "FALSE"),
    (LIKE, "-|'a", "-"),
    (LIKE, "'a|-", "-"),
    (NOT_LIKE, "'abc|'a%", "FALSE"),
    (NOT_LIKE, "'abc|'b%", "TRUE"),
    (NOT_LIKE, "-|'b%", "-"),
    (LIKE_ESCAPE, "'50%|'50!%", "TRUE"),
    (LIKE_ESCAPE, "'50x|'50!%", "FALSE"),
    (TRIM_OF, "'x|'xxaxbxx", "'axb"),
    (TRIM_OF, "'xy|'a", "!long"),
    (TRIM_OF, "'|'a", "!long"),
    (TRIM_OF, "-|'a", "-"),
    (TRIM_OF, "'x|-", "-"),
    (TRIM_OF, "'xy|-", "-"),
    (TRIM_LEADING_OF, "'x|'xxax", "'ax"),
    (SUBSTRING, "'añbc|2", "'ñbc"),
    (SUBSTRING, "'abc|0", "'abc"),
    (SUBSTRING, "'abc|-5", "'abc"),
    (SUBSTRING, "'abc|4", "'"),
    (SUBSTRING, "-|1", "-"),
    (SUBSTRING, "'abc|-", "-"),
    (SUBSTRING_FOR, "'abc|0|2", "'a"),
    (SUBSTRING_FOR, "'añbc|2|2", "'ñb"),
    (SUBSTRING_FOR, "'abc|1|0", "'"),
    (SUBSTRING_FOR, "'abc|1|-1", "'"),
    (SUBSTRING_FOR, "'abc|2|9223372036854775807", "'bc"),
    (SUBSTRING_FOR, "-|1|1", "-"),
    (SUBSTRING_FOR, "'abc|-|1", "-"),
    (SUBSTRING_FOR, "'abc|1|-", "-"),
    (BETWEEN, "2|1|3", "TRUE"),
    (BETWEEN, "1|1|1.0", "TRUE"),
    (BETWEEN, "0|1|3", "FALSE"),
    (BETWEEN, "4|1|3", "FALSE"),
    (BETWEEN, "2|3|1", "FALSE"),
    (BETWEEN, "-|1|3", "-"),
    (BETWEEN, "2|1|-", "-"),
    (BETWEEN, "0|1|-", "FALSE"),
    (BETWEEN, "2|-|1", "FALSE"),
    (NOT_BETWEEN, "2|1|3", "FALSE"),
    (NOT_BETWEEN, "0|1|-", "TRUE"),
    (NOT_BETWEEN, "2|1|-", "-"),
    (
        BETWEEN_READ,
        "'2024-02-29|D2024-02-01|T2024-02-01 00:00:00",
        "!date",
    ),
];

fn answer(alloc: Global, operation: Operation, text: &str) -> Result<Value, EvalFault> {
    let (a, b, c) = read_operands(alloc, text)?;
    let (a, b, c) = (a.as_value_ref(), b.as_value_ref(), c.as_value_ref());
    match operation {
        Operation::One(operator) => unary_value(alloc, operator, a),
        Operation::Two(operator) => binary_value(alloc, operator, a, b),
        Operation::Three(operator) => ternary_value(alloc, operator, a, b, c),
    }
}

#[test]
fn operations_give_their_values(rt: HostRuntime) -> Result<(), Fail> {
    let alloc = rt.alloc();
    for (i, (operation, operands, wanted)) in CASES.iter().enumerate() {
        let given = answer(alloc, *operation, operands);
        assert!(rt;
            is_wanted(&given, &read_wanted(alloc, wanted)),
            "case {i}: {operands} wants {wanted} and gives {given:?}"
        );
    }
    Ok(())
}

/// A kind, a value, and what it is at that kind.
static GIVEN: [(Kind, &str, &str); 11] = [
    (Kind::Decimal(2), "5", "5.00"),
    (Kind::Decimal(2), "-0.5", "-0.50"),
    (Kind::Decimal(0), "5", "#5"),
    (Kind::Decimal(38), "5", "!range"),
    (
        Kind::Decimal(37),
        "0",
        "0.0000000000000000000000000000000000000",
    ),
    (Kind::Decimal(2), "-", "-"),
    (Kind::TooWide, "0", "!range"),
    (Kind::TooWide, "-", "-"),
    (Kind::Whole, "5", "5"),
    (Kind::Text, "'a", "'a"),
    (Kind::Date, "D2024-02-29", "D2024-02-29"),
];

#[test]
fn values_are_given_at_their_kinds(rt: HostRuntime) -> Result<(), Fail> {
    let alloc = rt.alloc();
    for (kind, text, wanted) in GIVEN {
        let given = match read_value(alloc, text) {
            Ok(a) => given_at(kind, a),
            Err(fault) => Err(fault),
        };
        assert!(rt;
            is_wanted(&given, &read_wanted(alloc, wanted)),
            "{text} at {kind:?} is {wanted}"
        );
    }
    Ok(())
}

/// The calls that no table above makes.
#[test]
fn each_call_once(rt: HostRuntime) -> Result<(), Fail> {
    let two = Value::Int(2);
    let two = two.as_value_ref();
    let yes = Value::Bool(true);
    let yes = yes.as_value_ref();
    let null = Value::Null;
    let null = null.as_value_ref();
    assert!(rt; matches!(&sum(two, two), Ok(Value::Int(4))));
    assert!(rt; matches!(&quotient(two, two), Ok(Value::Int(1))));
    assert!(rt; matches!(&plus(two), Value::Int(2)));
    assert!(rt; !is_below_zero(two) && is_null(null) && is_true(yes) && !is_true(null));
    assert!(rt; matches!(&least_test(None, two, null), Ok(Value::Null)));
    assert!(rt; matches!(&greatest_test(None, two, two), Ok(Value::Bool(true))));
    assert!(rt;
        matches!(
            &equal_test(Some(Reading::BadDate), two, two),
            Err(EvalFault::BadDate)
        )
    );
    assert!(rt; matches!(&between_value(true, yes, null), Value::Null));
    assert!(rt; matches!(&negated_if(true, Value::Bool(true)), Value::Bool(false)));
    assert!(rt; matches!(&readable(None), Ok(())));
    assert!(rt;
        matches!(
            &readable(Some(Reading::BadTimestamp)),
            Err(EvalFault::BadDate)
        )
    );
    assert!(rt; matches!(&read_as(Reading::Micros(7)), Ok(Value::Micros(7))));
    Ok(())
}
