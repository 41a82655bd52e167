//! A linear program of two legs, in its parts.
use nrm_lp::Program;
use std::test::Fail;

#[test]
fn keeps_its_parts(rt: HostRuntime) -> Result<(), Fail> {
    let alloc = rt.alloc();
    let caps = vec![in alloc; 40, 30]?;
    let bounds = vec![in alloc; 12, 0, 16]?;
    let fares = vec![in alloc; 400, 150, 500]?;
    let first = vec![in alloc; 1]?;
    let second = vec![in alloc; 0]?;
    let third = vec![in alloc; 1, 0]?;
    let legs = vec![in alloc; first, second, third]?;
    let program = Program::new(caps, bounds, fares, legs);
    assert_eq!(rt; program.caps(), [40, 30].as_slice());
    assert_eq!(rt; program.bounds(), [12, 0, 16].as_slice());
    assert_eq!(rt; program.fares(), [400, 150, 500].as_slice());
    assert_eq!(rt; program.legs_of(0), [1].as_slice());
    assert_eq!(rt; program.legs_of(2), [1, 0].as_slice());
    assert_eq!(rt; (program.leg_count(), program.product_count()), (2, 3));
    assert!(rt; program.uses_leg(2, 0) && !program.uses_leg(0, 0));
    Ok(())
}
