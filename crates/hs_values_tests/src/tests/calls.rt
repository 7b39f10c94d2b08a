// Each call that takes no memory and has no cases of its own, once.
use hs_temporal::{day_and_time, moment_at};
use hs_values::EvalFault::{DivisionByZero, NoMemory, Range};
use hs_values::{Dec, EvalFault, checked_decimal, laws, rescale, ten_to, whole};
use std::alloc::AllocError;

#[test]
fn faults_have_numbers(rt: HostRuntime) {
    assert!(rt; EvalFault::from(AllocError) == NoMemory);
    assert!(rt; Range.lesser(DivisionByZero).number() == 1);
}

#[test]
fn decimals_are_made(rt: HostRuntime) {
    assert!(rt; whole(-7).units == -7 && whole(-7).scale == 0);
    assert!(rt; ten_to(3) == 1000);
    assert!(rt; checked_decimal(5, 39) == Err(Range));
    let long = Dec {
        units: -199,
        scale: 2,
    };
    let cut = Dec {
        units: -1,
        scale: 0,
    };
    assert!(rt; rescale(long, 0) == Ok(cut));
}

#[test]
fn the_laws_can_be_cited() {
    laws::values_are_ordered();
    laws::rows_are_ordered();
    laws::rows_have_one_order();
    laws::a_bag_has_one_order();
    laws::equal_values_have_one_key();
    laws::values_of_a_type_are_assigned_as_they_are();
    laws::values_of_a_type_are_lawful();
    laws::ties_of_one_type_are_identical();
    laws::the_least_fault_counts();
    hs_scalar::laws::a_text_is_like_its_pieces();
    hs_temporal::laws::lawful_days_are_of_the_years_1_to_9999();
    hs_temporal::laws::a_day_is_one_date();
    hs_temporal::laws::a_timestamp_is_a_day_and_a_time();
    hs_temporal::laws::a_text_is_of_one_day();
}

#[test]
fn a_timestamp_is_a_day_and_a_time(rt: HostRuntime) {
    assert!(rt; day_and_time(-1) == (-1, 86_399_999_999));
    assert!(rt; moment_at(19_782, 29_100_000_000) == 1_709_193_900_000_000);
}
