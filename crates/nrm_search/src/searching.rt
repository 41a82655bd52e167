//! The search: steps from the first basis until no leg is overfull and no product is outside its bounds.
ghost use Rattle.std.specs.Prelude.{IfOk};
ghost use Rattle.nrm_fraction.specs.Large.{size_limit};
ghost use Rattle.nrm_lp.specs.Certified.{Certifies};

use crate::basis::Basis;
use crate::closing::certificate;
use crate::entering::entering_column;
use crate::fault::SearchFault;
use crate::leaving::leaving_row;
use crate::pivot::pivot;
use crate::room::Room;
use crate::shape::Shape;
use nrm_dual::{Verdict, check};
use nrm_lp::{Certificate, Program};
use std::alloc::Global;

/// Searches for a certificate of a program: an optimal allocation, in seats of all histories over `q`, and optimal bid prices, in currency
/// units over `den`. No number of it is negative, and all are below 2^48.
///
/// The search begins with no price and all demand accepted, and repairs one overfull leg after another (the dual simplex method with
/// bounded variables, the leaving row by the steepest edge), in exact fractions of 64 bits. Where a program has several optimal
/// certificates it needn't be the one that `nrm_simplex::solve` gives; the values are equal.
///
/// # Errors
/// `GaveUp` where a number passes 64 bits, where 64 steps and 8 for each leg aren't enough, or where the checker doesn't find the
/// certificate optimal; `NoMemory`.
pub fn search(alloc: Global, program: &Program) -> Result<Certificate, SearchFault>
    ensures certified { IfOk result (Certifies size_limit program.now) }
{
    let found = proposal(alloc, program)?;
    match check(program, &found) {
        Verdict::Optimal => Ok(found),
        _ => Err(SearchFault::GaveUp),
    }
}

// What the search ends with, which nobody has checked.
fn proposal(alloc: Global, program: &Program) -> Result<Certificate, SearchFault> {
    let shape = Shape::of(alloc, program)?;
    let mut basis = Basis::first(alloc, &shape)?;
    let mut room = Room::new(alloc, &shape)?;
    for _ in 0..budget(program) {
        match leaving_row(&shape, &basis)? {
            None => return certificate(alloc, &shape, &basis),
            Some(leaving) => {
                let entering = entering_column(&shape, &mut basis, &mut room, &leaving)?;
                pivot(alloc, &shape, &mut basis, &mut room, &leaving, entering)?;
            }
        }
    }
    Err(SearchFault::GaveUp)
}

fn budget(program: &Program) -> u16 {
    64 + 8 * u16::from(program.leg_count())
}
