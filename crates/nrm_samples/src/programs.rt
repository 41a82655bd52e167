//! Sample linear programs.
ghost use Rattle.std.specs.Prelude.{◌≡◌, IfOk};
ghost use Rattle.nrm_samples.specs.Programs as programs;

use nrm_lp::Program;
use std::alloc::{AllocError, Global};

/// The opening program of the network of two legs and five products: 40 seats on each leg over four histories.
///
/// # Errors
/// Memory runs out.
pub fn two_legs_five_products_program(alloc: Global) -> Result<Program, AllocError>
    ensures { IfOk result (λ program. program ≡ programs.two_legs_five_products_program) }
{
    let caps = vec![in alloc; 40, 40]?;
    let bounds = vec![in alloc; 12, 28, 16, 32, 0]?;
    let fares = vec![in alloc; 400, 150, 500, 80, 229]?;
    let abh = vec![in alloc; 0]?;
    let abl = vec![in alloc; 0]?;
    let ach = vec![in alloc; 0, 1]?;
    let bcl = vec![in alloc; 1]?;
    let acl = vec![in alloc; 0, 1]?;
    let legs = vec![in alloc; abh, abl, ach, bcl, acl]?;
    Ok(Program::new(caps, bounds, fares, legs))
}
