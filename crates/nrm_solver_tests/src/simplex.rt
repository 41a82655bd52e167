//! Linear programs whose answers were worked out without this code: by hand, and in exact fractions by another program.
ghost use Rattle.std.specs.Prelude.{◌≡◌, ◌∷◌, ◌++◌, [], map, IfOk};
ghost use Rattle.std.specs.List.{range_with_len};

use nrm_lp::Program;
use nrm_simplex::{SolveFault, solve};
use std::alloc::{AllocError, Global};
use std::test::Fail;

// Three legs of one seat, and three products on two of them each.
pub(crate) fn triangle(alloc: Global) -> Result<Program, AllocError> {
    let caps = vec![in alloc; 1, 1, 1]?;
    let bounds = vec![in alloc; 1, 1, 1]?;
    let fares = vec![in alloc; 2, 2, 3]?;
    let legs = vec![in alloc;
        vec![in alloc; 0, 1]?,
        vec![in alloc; 1, 2]?,
        vec![in alloc; 2, 0]?,
    ]?;
    Ok(Program::new(caps, bounds, fares, legs))
}

// A product on each of the first 61 legs.
fn legs_of_singles(alloc: Global) -> Result<Vec<Vec<u8>>, AllocError>
    ensures { IfOk result (λ legs. map (λ v. v.items) legs.items ≡ map (λ j. j ∷ []) (range_with_len 0 61)) }
{
    let mut legs = Vec::new(alloc);
    for leg in 0..61u8 {
        let own = vec![in alloc; leg]?;
        legs.push(own)?;
    }
    Ok(legs)
}

// And three on two each of the last three legs.
fn legs_with_triangle(alloc: Global) -> Result<Vec<Vec<u8>>, AllocError>
    ensures { IfOk result (λ legs. map (λ v. v.items) legs.items
        ≡ map (λ j. j ∷ []) (range_with_len 0 61) ++ (61 ∷ 62 ∷ []) ∷ (62 ∷ 63 ∷ []) ∷ (63 ∷ 61 ∷ []) ∷ []) }
{
    let mut legs = legs_of_singles(alloc)?;
    let first = vec![in alloc; 61, 62]?;
    legs.push(first)?;
    let second = vec![in alloc; 62, 63]?;
    legs.push(second)?;
    let third = vec![in alloc; 63, 61]?;
    legs.push(third)?;
    Ok(legs)
}

// 64 legs, bounds and fares at their greatest, with the triangle and without it.
pub(crate) fn dear_triangle(alloc: Global) -> Result<Program, AllocError> {
    let caps = vec![in alloc; 31_968u32; 64]?;
    let bounds = vec![in alloc; 31_968u32; 64]?;
    let fares = vec![in alloc; 99_999_999u32; 64]?;
    let legs = legs_with_triangle(alloc)?;
    Ok(Program::new(caps, bounds, fares, legs))
}

pub(crate) fn dear_singles(alloc: Global) -> Result<Program, AllocError> {
    let caps = vec![in alloc; 31_968u32; 64]?;
    let bounds = vec![in alloc; 31_968u32; 61]?;
    let fares = vec![in alloc; 99_999_999u32; 61]?;
    let legs = legs_of_singles(alloc)?;
    Ok(Program::new(caps, bounds, fares, legs))
}

// Half a seat of each product; the prices of the legs are 3/2, 1/2 and 3/2.
#[test]
fn solves_by_halves(rt: HostRuntime) -> Result<(), Fail> {
    let program = triangle(rt.alloc())?;
    let certificate = solve(rt.alloc(), &program).ok().expect(&rt, "triangle");
    assert_eq!(rt; certificate.q, 2);
    assert_eq!(rt; certificate.x.as_slice(), [1, 1, 1].as_slice());
    assert_eq!(rt; certificate.den, 2);
    assert_eq!(rt; certificate.p.as_slice(), [3, 1, 3].as_slice());
    assert_eq!(rt; certificate.value, 7);
    Ok(())
}

// The 65th pivot is Large: its right side is 399,599,996,004,000 over 2.
#[test]
fn tells_a_large_pivot(rt: HostRuntime) -> Result<(), Fail> {
    let program = dear_triangle(rt.alloc())?;
    let fault = solve(rt.alloc(), &program).err();
    let large = SolveFault::Overflow {
        pivots: 64,
        number: 399_599_996_004_000,
    };
    assert!(rt; fault == Some(large));
    Ok(())
}

// Without the triangle each product has its whole bound, and no leg a price.
#[test]
fn solves_what_is_just_not_large(rt: HostRuntime) -> Result<(), Fail> {
    let program = dear_singles(rt.alloc())?;
    let certificate = solve(rt.alloc(), &program).ok().expect(&rt, "singles");
    assert_eq!(rt; certificate.q, 1);
    assert_eq!(rt; certificate.x.as_slice(), [31_968; 61].as_slice());
    assert_eq!(rt; certificate.den, 1);
    assert_eq!(rt; certificate.p.as_slice(), [0; 64].as_slice());
    assert_eq!(rt; certificate.value, 61 * 31_968 * 99_999_999);
    Ok(())
}
