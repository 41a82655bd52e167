//! Thresholds of leg AB of a network of five products, worked by hand: the fares on it are 500, 400, 229 and 150, and 16, 12, no
//! and 28 seats were asked for at them.
ghost use Rattle.std.specs.Prelude.{IfOk};
ghost use Rattle.std.specs.Int.{IsInRange};
ghost use Rattle.nrm_cluster.specs.Points.{ArePoints};
ghost use Rattle.nrm_cluster.specs.declared.limits.TheConstants.{MOST_GROUPS};

use nrm_cluster::{Cuts, Points, best_cuts, leg_points};
use nrm_samples::two_legs_five_products;
use std::alloc::{AllocError, Global};
use std::process::Abort;
use std::test::Fail;

// The fares on the leg, with what was asked for at each.
fn points_of_leg(alloc: Global) -> Result<Points, AllocError>
    ensures { IfOk result ArePoints }
{
    let net = two_legs_five_products(alloc)?;
    leg_points(alloc, &net, 0)
}

#[test]
fn the_fares_of_a_leg_are_gathered(rt: HostRuntime) -> Result<(), Fail> {
    let points = points_of_leg(rt.alloc())?;
    assert!(rt; points.values.as_slice() == [500, 400, 229, 150].as_slice());
    assert!(rt; points.weights.as_slice() == [16, 12, 0, 28].as_slice());
    Ok(())
}

// The cuts of the leg into so many groups, if a product uses it.
fn cuts_of_leg(alloc: Global, groups: u8) -> Result<Option<Cuts>, AllocError>
    requires { IsInRange 1 MOST_GROUPS groups }
{
    let points = points_of_leg(alloc)?;
    if points.values.is_empty() {
        return Ok(None);
    }
    Ok(Some(best_cuts(alloc, &points.values, &points.weights, groups)?))
}

fn assert_cuts(rt: &impl Abort, made: Option<Cuts>, cost: u64, cuts: &[u32], centres: &[u32]) {
    let made = made.unwrap_or_else(|| panic!(rt; "no product uses the leg"));
    assert_eq!(rt; made.cost, cost);
    assert_eq!(rt; made.cuts.as_slice(), cuts);
    assert_eq!(rt; made.centres.as_slice(), centres);
}

#[test]
fn fares_are_cut_into_groups(rt: HostRuntime) -> Result<(), Fail> {
    let alloc = rt.alloc();
    assert_cuts(&rt, cuts_of_leg(alloc, 1)?, 8600, &[], &[400]);
    assert_cuts(&rt, cuts_of_leg(alloc, 2)?, 1200, &[400], &[500, 150]);
    assert_cuts(
        &rt,
        cuts_of_leg(alloc, 10)?,
        0,
        &[500, 400],
        &[500, 400, 150],
    );
    Ok(())
}
