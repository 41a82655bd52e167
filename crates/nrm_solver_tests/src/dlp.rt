//! The programs of a network of two legs, AB with 3 seats and BC with 2, of two products and two histories of two
//! periods, and of one with 4 and 1 of those seats authorised, worked by hand.
ghost use Rattle.std.specs.Prelude.{IfOk};
ghost use Rattle.nrm_fraction.specs.Large.{size_limit};
ghost use Rattle.nrm_lp.specs.Shape.{HasShape};

use nrm_dlp::{
    hindsight, hindsight_program, mean_value, opening_program, prices, program_at, program_of,
};
use nrm_lp::{Certificate, Numbers, Program};
use nrm_samples::{
    two_legs, two_legs_authorised, two_legs_five_products_program, two_legs_last_first,
};
use nrm_simplex::{SolveFault, solve};
use std::alloc::{AllocError, Global};
use std::process::Abort;
use std::test::Fail;

// These are the caps and the bounds of a program, and its fares and legs those of the network.
fn assert_program(rt: &impl Abort, program: &Program, caps: &[u32], bounds: &[u32]) {
    assert_eq!(rt; program.caps(), caps);
    assert_eq!(rt; program.bounds(), bounds);
    assert_eq!(rt; program.fares(), [500, 200].as_slice());
    assert_eq!(rt; program.product_count(), 2);
    assert_eq!(rt; program.legs_of(0), [1, 0].as_slice());
    assert_eq!(rt; program.legs_of(1), [0].as_slice());
}

pub(crate) fn program_at_opening(alloc: Global) -> Result<Program, AllocError> {
    let net = two_legs_last_first(alloc)?;
    opening_program(alloc, &net)
}

#[test]
fn at_opening(rt: HostRuntime) -> Result<(), Fail> {
    let program = program_at_opening(rt.alloc())?;
    assert_program(&rt, &program, &[6, 4], &[6, 10]);
    Ok(())
}

// One seat is sold on the first leg, and the second one is full.
fn program_in_second_period(alloc: Global) -> Result<Program, AllocError> {
    let net = two_legs_last_first(alloc)?;
    program_at(alloc, &net, &[2, 0], 2)
}

#[test]
fn in_the_second_period(rt: HostRuntime) -> Result<(), Fail> {
    let program = program_in_second_period(rt.alloc())?;
    assert_program(&rt, &program, &[4, 0], &[5, 1]);
    Ok(())
}

// The program of one history alone, the second one.
fn program_of_one_history(alloc: Global) -> Result<Program, AllocError> {
    let caps = Vec::from_array(alloc, [3, 2])?;
    let bounds = Vec::from_array(alloc, [3, 6])?;
    let net = two_legs_last_first(alloc)?;
    program_of(alloc, &net, caps, bounds)
}

#[test]
fn with_caps_and_bounds(rt: HostRuntime) -> Result<(), Fail> {
    let program = program_of_one_history(rt.alloc())?;
    assert_program(&rt, &program, &[3, 2], &[3, 6]);
    Ok(())
}

fn assert_certificate(rt: &impl Abort, certificate: &Certificate) {
    assert_eq!(rt; (certificate.q, certificate.den), (1, 1));
    assert_eq!(rt; certificate.x.as_slice(), [4, 2].as_slice());
    assert_eq!(rt; certificate.p.as_slice(), [200, 300].as_slice());
    assert_eq!(rt; certificate.value, 2400);
}

// The mean value of what is optimised before anything is sold.
fn mean_at_opening(rt: &impl Abort, alloc: Global) -> Result<(u64, u64), SolveFault> {
    let net = two_legs(alloc)?;
    let certificate = prices(alloc, &net, &[3, 2], 1)?;
    assert_certificate(rt, &certificate);
    Ok(mean_value(&net, &certificate))
}

// Four seats of the through product fill the second leg in both histories together, two of the local one what is left of
// the first; so a seat of the first leg is worth the local fare, and one of the second the rest of the through fare.
#[test]
fn optimises_by_hand(rt: HostRuntime) {
    assert!(rt; mean_at_opening(&rt, rt.alloc()) == Ok((1200, 1)));
}

// The opening linear program of two legs and five products, which another program solved in exact fractions.
#[test]
fn solves_five_products(rt: HostRuntime) -> Result<(), Fail> {
    let program = two_legs_five_products_program(rt.alloc())?;
    let certificate = solve(rt.alloc(), &program).ok().expect(&rt, "two legs");
    assert_eq!(rt; certificate.q, 1);
    assert_eq!(rt; certificate.x.as_slice(), [12, 12, 16, 24, 0].as_slice());
    assert_eq!(rt; certificate.den, 1);
    assert_eq!(rt; certificate.p.as_slice(), [150, 80].as_slice());
    assert_eq!(rt; certificate.value, 16520);
    Ok(())
}

// The opening program where the authorised seats are not the physical ones, and the mean value of what is optimised there.
pub(crate) fn program_at_authorised(alloc: Global) -> Result<Program, AllocError> {
    let net = two_legs_authorised(alloc)?;
    opening_program(alloc, &net)
}

fn mean_at_authorised(alloc: Global) -> Result<(u64, u64), SolveFault> {
    let net = two_legs_authorised(alloc)?;
    let certificate = prices(alloc, &net, &[4, 1], 1)?;
    Ok(mean_value(&net, &certificate))
}

// BC has the one seat for a through request, at 500, and so AB three for local ones, at 199.
#[test]
fn caps_are_the_authorised_seats(rt: HostRuntime) -> Result<(), Fail> {
    let program = program_at_authorised(rt.alloc())?;
    assert_eq!(rt; program.caps(), [4, 1].as_slice());
    assert_eq!(rt; program.bounds(), [2, 3].as_slice());
    assert!(rt; mean_at_authorised(rt.alloc()) == Ok((1097, 1)));
    Ok(())
}

// A certificate in quarters of a currency unit.
fn in_quarters(alloc: Global) -> Result<Certificate, AllocError>
    ensures { IfOk result (λ certificate. HasShape size_limit 2 2 certificate) }
{
    Ok(Certificate {
        q: 1,
        x: Numbers::new(Vec::from_array(alloc, [4, 2])?),
        den: 4,
        p: Numbers::new(Vec::from_array(alloc, [800, 1200])?),
        value: 9604,
    })
}

fn mean_of_quarters(alloc: Global) -> Result<(u64, u64), AllocError> {
    let quarters = in_quarters(alloc)?;
    let net = two_legs(alloc)?;
    Ok(mean_value(&net, &quarters))
}

// Over two histories, 9604 quarters are 9604 eighths.
#[test]
fn mean_values_are_in_lowest_terms(rt: HostRuntime) -> Result<(), Fail> {
    assert_eq!(rt; mean_of_quarters(rt.alloc())?, (2401, 2));
    Ok(())
}

// Hindsight with requests for two seats of the through product and three of the local one.
pub(crate) fn program_by_hindsight(alloc: Global) -> Result<Program, AllocError> {
    let net = two_legs_last_first(alloc)?;
    hindsight_program(alloc, &net, &[2, 3])
}

#[test]
fn by_hindsight(rt: HostRuntime) -> Result<(), Fail> {
    let program = program_by_hindsight(rt.alloc())?;
    assert_program(&rt, &program, &[3, 2], &[2, 3]);
    Ok(())
}

fn value_of_hindsight(alloc: Global) -> Result<(u64, u64), SolveFault> {
    let net = two_legs_last_first(alloc)?;
    hindsight(alloc, &net, &[2, 3])
}

// Both through requests, and the local fare for the seat that they leave.
#[test]
fn looks_back_by_hand(rt: HostRuntime) -> Result<(), Fail> {
    assert!(rt; value_of_hindsight(rt.alloc()) == Ok((1200, 1)));
    Ok(())
}
