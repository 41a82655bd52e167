//! The path of the simplex method, from the first tableau to the last.
ghost use Rattle.std.specs.Prelude.{IfOk, MatchResult};
ghost use Rattle.nrm_lp.specs.Certified.{Certifies};
ghost use Rattle.nrm_simplex.specs.Solving.{IsClosing, IsSolveFault};
ghost use Rattle.nrm_fraction.specs.Large.{size_limit};

use crate::fault::SolveFault;
use nrm_lp::{Certificate, Program};
use nrm_tableau::Tableau;
use std::alloc::Global;

/// Solves a program by the simplex method with the lexicographic rule (chapter 3 of Talluri and van Ryzin has the
/// program), in exact fractions: the certificate of its closing, with an optimal allocation and optimal bid prices.
///
/// It ends for every program: there is no budget of pivots, no tolerance and no restart.
///
/// # Errors
/// `Overflow` exactly where a number of the path or of its closing reaches the limit in size; `NoMemory`.
pub fn solve(alloc: Global, program: &Program) -> Result<Certificate, SolveFault>
    ensures path { MatchResult result (IsClosing program.now) (IsSolveFault program.now) }
    ensures certified { IfOk result (Certifies size_limit program.now) }
{
    let mut tableau = Tableau::first(alloc, program)?;
    let mut pivots = 0u32;
    while let Some(col) = tableau.entering() {
        let row = tableau.leaving(col);
        tableau = match tableau.pivot(alloc, row, col) {
            Ok(next) => next,
            Err(fault) => return Err(SolveFault::after(pivots, fault)),
        };
        pivots = pivots.saturating_add(1);
    }
    tableau
        .closing(alloc)
        .map_err(|fault| SolveFault::after(pivots, fault))
}
