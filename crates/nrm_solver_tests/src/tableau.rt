//! Programs of few legs, from the first tableau to the closing.
use nrm_lp::{Certificate, Program};
use nrm_samples::two_legs_five_products_program;
use nrm_tableau::Tableau;
use std::alloc::Global;
use std::test::Fail;

#[test]
fn takes_the_pivots_of_two_legs(rt: HostRuntime) -> Result<(), Fail> {
    let alloc = rt.alloc();
    let program = two_legs_five_products_program(alloc)?;
    let mut tableau = Tableau::first(alloc, &program)?;
    for (col, row) in [(0, 2), (1, 3), (2, 0), (3, 5), (7, 1), (8, 1), (10, 4)] {
        let Some(enters) = tableau.entering() else {
            panic!(rt; "no column enters at {col}");
        };
        let leaves = tableau.leaving(enters);
        assert_eq!(rt; (enters, leaves), (col, row));
        tableau = tableau
            .pivot(alloc, leaves, enters)
            .expect(&rt, "a tableau");
    }
    assert!(rt; tableau.entering().is_none());
    let closing = tableau.closing(alloc).expect(&rt, "a certificate");
    assert_eq!(rt; (closing.q, closing.den, closing.value), (1, 1, 16_520));
    assert_eq!(rt; closing.x.as_slice(), [12, 12, 16, 24, 0].as_slice());
    assert_eq!(rt; closing.p.as_slice(), [150, 80].as_slice());
    Ok(())
}

// The certificate of the last tableau, if twenty pivots lead to it.
fn certificate(alloc: Global, program: &Program) -> Option<Certificate> {
    let mut tableau = Tableau::first(alloc, program).ok()?;
    for _ in 0..20 {
        let Some(col) = tableau.entering() else {
            return tableau.closing(alloc).ok();
        };
        let row = tableau.leaving(col);
        tableau = tableau.pivot(alloc, row, col).ok()?;
    }
    None
}

// Three legs of 2, 3 and 4 seats, and a product over each two of them, at 2, 2 and 3: allotted are 1/2, 5/2 and 3/2, at
// bid prices of 3/2, 1/2 and 3/2, and both come to 21/2.
#[test]
fn closes_over_denominators_above_one(rt: HostRuntime) -> Result<(), Fail> {
    let alloc = rt.alloc();
    let caps = vec![in alloc; 2, 3, 4]?;
    let bounds = vec![in alloc; 9, 9, 9]?;
    let fares = vec![in alloc; 2, 2, 3]?;
    let legs = vec![in alloc;
        vec![in alloc; 0, 1]?,
        vec![in alloc; 1, 2]?,
        vec![in alloc; 2, 0]?,
    ]?;
    let program = Program::new(caps, bounds, fares, legs);
    let closing = certificate(alloc, &program).expect(&rt, "a certificate");
    assert_eq!(rt; (closing.q, closing.den, closing.value), (2, 2, 21));
    assert_eq!(rt; closing.x.as_slice(), [1, 5, 3].as_slice());
    assert_eq!(rt; closing.p.as_slice(), [3, 1, 3].as_slice());
    Ok(())
}

// The same products over three legs of 1 seat, at 3, 4 and 5: allotted are three halves, at bid prices of 2, 1 and 3, and
// both come to 6.
#[test]
fn closes_over_two_denominators(rt: HostRuntime) -> Result<(), Fail> {
    let alloc = rt.alloc();
    let caps = vec![in alloc; 1, 1, 1]?;
    let bounds = vec![in alloc; 1, 1, 1]?;
    let fares = vec![in alloc; 3, 4, 5]?;
    let legs = vec![in alloc;
        vec![in alloc; 0, 1]?,
        vec![in alloc; 1, 2]?,
        vec![in alloc; 2, 0]?,
    ]?;
    let program = Program::new(caps, bounds, fares, legs);
    let closing = certificate(alloc, &program).expect(&rt, "a certificate");
    assert_eq!(rt; (closing.q, closing.den, closing.value), (2, 1, 6));
    assert_eq!(rt; closing.x.as_slice(), [1, 1, 1].as_slice());
    assert_eq!(rt; closing.p.as_slice(), [2, 1, 3].as_slice());
    Ok(())
}
