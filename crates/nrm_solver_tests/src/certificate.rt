//! The sample program of two legs of 40 seats and five products at 400, 150, 500, 80 and 229, and its certificate, worked by
//! hand, then changed in one place at a time.
use nrm_dual::{Verdict, check};
use nrm_lp::{Certificate, Numbers, Program};
use nrm_samples::two_legs_five_products_program;
use std::alloc::{AllocError, Global};
use std::test::Fail;

// What the certificate allots to the products, and its prices of the legs.
pub(crate) const ALLOTTED: &[i64] = &[12, 12, 16, 24, 0];

pub(crate) const PRICES: &[i64] = &[150, 80];

// One leg of no seats, and one product at 100.
pub(crate) fn no_seats(alloc: Global) -> Result<Program, AllocError> {
    let caps = vec![in alloc; 0]?;
    let bounds = vec![in alloc; 5]?;
    let fares = vec![in alloc; 100]?;
    let leg = vec![in alloc; 0]?;
    let legs = vec![in alloc; leg]?;
    Ok(Program::new(caps, bounds, fares, legs))
}

fn certificate(
    alloc: Global,
    (q, x): (i64, &[i64]),
    (den, p): (i64, &[i64]),
    value: i64,
) -> Result<Certificate, AllocError> {
    let x = Numbers::new(x.to_vec(alloc)?);
    let p = Numbers::new(p.to_vec(alloc)?);
    Ok(Certificate {
        q,
        x,
        den,
        p,
        value,
    })
}

// What the checker says of these numbers for a program.
fn checked_on(
    alloc: Global,
    program: &Program,
    (q, x): (i64, &[i64]),
    (den, p): (i64, &[i64]),
    value: i64,
) -> Result<Verdict, AllocError> {
    let certificate = certificate(alloc, (q, x), (den, p), value)?;
    Ok(check(program, &certificate))
}

// The same for the sample program.
fn checked(
    alloc: Global,
    (q, x): (i64, &[i64]),
    (den, p): (i64, &[i64]),
    value: i64,
) -> Result<Verdict, AllocError> {
    let program = two_legs_five_products_program(alloc)?;
    checked_on(alloc, &program, (q, x), (den, p), value)
}

#[test]
fn passes_in_any_terms(rt: HostRuntime) -> Result<(), Fail> {
    let own = checked(rt.alloc(), (1, ALLOTTED), (1, PRICES), 16_520)?;
    assert_eq!(rt; own, Verdict::Optimal);
    let halves = checked(rt.alloc(), (2, &[24, 24, 32, 48, 0]), (1, PRICES), 16_520)?;
    assert_eq!(rt; halves, Verdict::Optimal);
    let thirds = checked(rt.alloc(), (1, ALLOTTED), (3, &[450, 240]), 49_560)?;
    assert_eq!(rt; thirds, Verdict::Optimal);
    Ok(())
}

// What the checker says of a price on a leg of no seats.
fn verdict_at_price(alloc: Global, price: i64, value: i64) -> Result<Verdict, AllocError> {
    let program = no_seats(alloc)?;
    checked_on(alloc, &program, (1, &[0]), (1, &[price]), value)
}

#[test]
fn passes_at_either_price(rt: HostRuntime) -> Result<(), Fail> {
    for price in [100, 150] {
        let priced = verdict_at_price(rt.alloc(), price, 0)?;
        assert_eq!(rt; priced, Verdict::Optimal, "at {price}");
    }
    let cheap = verdict_at_price(rt.alloc(), 99, 5)?;
    assert_eq!(rt; cheap, Verdict::WrongProduct(0));
    Ok(())
}

#[test]
fn single_numbers_are_checked(rt: HostRuntime) -> Result<(), Fail> {
    for (q, den, value, verdict) in [
        (0, 1, 16_520, Verdict::WrongShape),
        (-1, 1, 16_520, Verdict::WrongShape),
        (1 << 48, 1, 16_520, Verdict::WrongShape),
        (1, 0, 16_520, Verdict::WrongShape),
        (1, -1, 16_520, Verdict::WrongShape),
        (1, 1 << 48, 16_520, Verdict::WrongShape),
        (1, 1, -16_520, Verdict::WrongShape),
        (1, 1, 1 << 48, Verdict::WrongShape),
        (1, 1, (1 << 48) - 1, Verdict::WrongValue),
        (1, 1, 16_519, Verdict::WrongValue),
        (1, 1, 16_521, Verdict::WrongValue),
        (1, 3, 16_520, Verdict::WrongProduct(1)),
        (2, 1, 16_520, Verdict::WrongLeg(0)),
    ] {
        let changed = checked(rt.alloc(), (q, ALLOTTED), (den, PRICES), value)?;
        assert_eq!(rt; changed, verdict, "at {q}, {den}, {value}");
    }
    Ok(())
}

#[test]
fn lists_have_the_programs_lengths(rt: HostRuntime) -> Result<(), Fail> {
    let short_x = checked(rt.alloc(), (1, &[12, 12, 16, 24]), (1, PRICES), 16_520)?;
    assert_eq!(rt; short_x, Verdict::WrongShape);
    let x = &[12, 12, 16, 24, 0, 0];
    let long_x = checked(rt.alloc(), (1, x), (1, PRICES), 16_520)?;
    assert_eq!(rt; long_x, Verdict::WrongShape);
    let short_p = checked(rt.alloc(), (1, ALLOTTED), (1, &[150]), 16_520)?;
    assert_eq!(rt; short_p, Verdict::WrongShape);
    let long_p = checked(rt.alloc(), (1, ALLOTTED), (1, &[150, 80, 0]), 16_520)?;
    assert_eq!(rt; long_p, Verdict::WrongShape);
    Ok(())
}

#[test]
fn allotments_are_checked(rt: HostRuntime) -> Result<(), Fail> {
    for (x, verdict) in [
        ([-1, 12, 16, 24, 0].as_slice(), Verdict::WrongShape),
        ([12, 12, 16, 24, -1].as_slice(), Verdict::WrongShape),
        ([12, 12, 16, 24, 1 << 48].as_slice(), Verdict::WrongShape),
        // above the bound
        ([13, 11, 16, 24, 0].as_slice(), Verdict::WrongProduct(0)),
        ([12, 12, 16, 24, 1].as_slice(), Verdict::WrongProduct(4)),
        ([13, 12, 16, 24, 1].as_slice(), Verdict::WrongProduct(0)),
        // above the cap
        ([12, 13, 16, 24, 0].as_slice(), Verdict::WrongLeg(0)),
        ([12, 12, 16, 25, 0].as_slice(), Verdict::WrongLeg(1)),
        ([12, 13, 16, 25, 0].as_slice(), Verdict::WrongLeg(0)),
        // priced and short, and one more with the other leg above the cap
        ([12, 11, 16, 24, 0].as_slice(), Verdict::WrongLeg(0)),
        ([12, 12, 16, 23, 0].as_slice(), Verdict::WrongLeg(1)),
        ([12, 11, 16, 25, 0].as_slice(), Verdict::WrongLeg(1)),
        // short of the bound and dear
        ([11, 13, 16, 24, 0].as_slice(), Verdict::WrongProduct(0)),
        ([12, 13, 15, 25, 0].as_slice(), Verdict::WrongProduct(2)),
        ([11, 14, 15, 25, 0].as_slice(), Verdict::WrongProduct(0)),
    ] {
        let changed = checked(rt.alloc(), (1, x), (1, PRICES), 16_520)?;
        assert_eq!(rt; changed, verdict, "at {x:?}");
    }
    Ok(())
}

#[test]
fn prices_are_checked(rt: HostRuntime) -> Result<(), Fail> {
    for (p, verdict) in [
        ([-150, 80].as_slice(), Verdict::WrongShape),
        ([150, -80].as_slice(), Verdict::WrongShape),
        ([150, 1 << 48].as_slice(), Verdict::WrongShape),
        // sold and cheap
        ([151, 80].as_slice(), Verdict::WrongProduct(1)),
        ([150, 81].as_slice(), Verdict::WrongProduct(3)),
    ] {
        let changed = checked(rt.alloc(), (1, ALLOTTED), (1, p), 16_520)?;
        assert_eq!(rt; changed, verdict, "at {p:?}");
    }
    // product 1 is sold and cheap, product 2 is short and dear
    let x = &[12, 13, 15, 25, 0];
    let both = checked(rt.alloc(), (1, x), (1, &[151, 80]), 16_520)?;
    assert_eq!(rt; both, Verdict::WrongProduct(2));
    Ok(())
}
