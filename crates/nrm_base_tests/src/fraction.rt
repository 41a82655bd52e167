//! Fractions over one denominator, worked by hand, and at the limit.
use nrm_fraction::{Fraction, RowFault, over_common};
use std::test::Fail;

#[test]
fn gives_least_denominators(rt: HostRuntime) -> Result<(), Fail> {
    let parts = [
        Fraction::new(1, 2),
        Fraction::new(1, 3),
        Fraction::new(10, 12),
    ];
    let (den, nums) = over_common(rt.alloc(), &parts).expect(&rt, "parts");
    assert_eq!(rt; den, 6);
    assert_eq!(rt; nums.as_slice(), [3, 2, 5].as_slice());

    let wholes = [Fraction::new(0, 7), Fraction::new(3, 1)];
    let (den, nums) = over_common(rt.alloc(), &wholes).expect(&rt, "wholes");
    assert_eq!(rt; den, 1);
    assert_eq!(rt; nums.as_slice(), [0, 3].as_slice());

    let (den, nums) = over_common(rt.alloc(), &[]).expect(&rt, "none");
    assert_eq!(rt; den, 1);
    assert!(rt; nums.is_empty());
    Ok(())
}

#[test]
fn allows_what_is_just_below_the_limit(rt: HostRuntime) -> Result<(), Fail> {
    let least = [
        Fraction::new(1, 281_474_976_710_655),
        Fraction::new(281_474_976_710_655, 281_474_976_710_655),
    ];
    let (den, nums) = over_common(rt.alloc(), &least).expect(&rt, "least");
    assert_eq!(rt; den, 281_474_976_710_655);
    assert_eq!(rt; nums.as_slice(), [1, 281_474_976_710_655].as_slice());
    Ok(())
}

fn large(rt: HostRuntime, fractions: &[Fraction]) -> Option<i128> {
    match over_common(rt.alloc(), fractions) {
        Err(RowFault::Large { number }) => Some(number),
        _ => None,
    }
}

#[test]
fn tells_the_first_number_that_is_large(rt: HostRuntime) -> Result<(), Fail> {
    // The least common denominators are 2^47, 3 * 2^47 and 15 * 2^47.
    let running = [
        Fraction::new(1, 1 << 47),
        Fraction::new(1, 3),
        Fraction::new(1 << 40, 5),
    ];
    assert_eq!(rt; large(rt, &running), Some(3 << 47));

    let numerator = [Fraction::new(1 << 40, 1), Fraction::new(1, 1 << 10)];
    assert_eq!(rt; large(rt, &numerator), Some(1 << 50));

    // Both the last denominator and the first numerator are too large.
    let both = [
        Fraction::new(1 << 60, 1),
        Fraction::new(1, 281_474_976_710_656),
    ];
    assert_eq!(rt; large(rt, &both), Some(281_474_976_710_656));
    Ok(())
}
