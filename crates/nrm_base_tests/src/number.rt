//! Divisors worked by hand.
use nrm_number::{gcd, short_gcd};

#[test]
fn divisors(rt: HostRuntime) {
    assert_eq!(rt; short_gcd(84, 36), 12);
    assert_eq!(rt; short_gcd(36, 84), 12);
    assert_eq!(rt; short_gcd(0, 7), 7);
    assert_eq!(rt; short_gcd(7, 0), 7);
    assert_eq!(rt; short_gcd(0, 0), 0);
    assert_eq!(rt; gcd(1 << 100, 6), 2);
    assert_eq!(rt; gcd(1 << 100, 0), 1 << 100);
    // 6 and 15 times 2 ^ 70 + 25
    assert_eq!(rt;
        gcd(
            7_083_549_724_304_467_820_694,
            17_708_874_310_761_169_551_735
        ),
        3_541_774_862_152_233_910_347
    );
    // neighbours among the Fibonacci numbers, which take the most remainders
    let last = 332_825_110_087_067_562_321_196_029_789_634_457_848;
    let before = 205_697_230_343_233_228_174_223_751_303_346_572_685;
    assert_eq!(rt; gcd(last, before), 1);
}
