//! The thresholds of the chosen division, with its centres and its cost.
ghost use Rattle.std.specs.Prelude.{◌≡◌, ◌<◌, ◌≤◌, ◌^◌, IfOk, length};
ghost use Rattle.std.specs.Int.{IsInRange};
ghost use Rattle.nrm_cluster.specs.declared.limits.TheConstants.{MOST_GROUPS};
ghost use Rattle.nrm_cluster.specs.Points.{ArePoints, points};
ghost use Rattle.nrm_cluster.specs.Divisions.{AreCuts, Grouping, IsDivision, IsGrouping, centres_from, cuts_from, grouping_cost};

use crate::chosen::chosen_division;
use crate::pieces::centre;
use std::alloc::{AllocError, Global};
use std::marker::Model;

/// Thresholds that cut a leg's fares into groups, with what they cost. Contracts see lists.
#[derive(Drop)]
pub struct Cuts {
    /// What the fares cost in all: of each its demand times its distance to the centre of its group.
    pub cost: u64,
    /// The lowest fare of each group but the last, falling: the thresholds, in whole currency units.
    pub cuts: Vec<u32>,
    /// The centre of each group: a fare of the group, a median by demand.
    pub centres: Vec<u32>,
}

impl Model for Cuts {
    ghost use Rattle.nrm_cluster.specs.Divisions.{CutsValue};

    ghost Value = { CutsValue };

    ghost view = { λ c. record { cost = c.cost; cuts = c.cuts.items; centres = c.centres.items } };
}

// The centres of the pieces of a division.
fn centres_of(
    alloc: Global,
    values: &[u32],
    weights: &[u32],
    lengths: &[usize],
) -> Result<Vec<u32>, AllocError>
    requires points { ArePoints (points values.now weights.now) }
    requires division { IsDivision (length values.now) lengths.now }
    ensures { IfOk result (λ centres. centres.items ≡ centres_from (points values.now weights.now) 0 lengths.now) }
{
    let mut centres = Vec::new(alloc);
    let mut a: usize = 0;
    for k in 0..lengths.len() {
        let n = lengths[k];
        centres.push(centre(values, weights, a, n))?;
        a += n;
    }
    Ok(centres)
}

// The last values of the pieces of a division but the last.
fn last_values(
    alloc: Global,
    values: &[u32],
    weights: &[u32],
    lengths: &[usize],
) -> Result<Vec<u32>, AllocError>
    requires points { ArePoints (points values.now weights.now) }
    requires division { IsDivision (length values.now) lengths.now }
    requires some { 0 < length lengths.now }
    ensures { IfOk result (λ cuts. cuts.items ≡ cuts_from (points values.now weights.now) 0 lengths.now) }
{
    let mut cuts = Vec::new(alloc);
    let mut a: usize = 0;
    for k in 0..lengths.len() - 1 {
        a += lengths[k];
        cuts.push(values[a - 1])?;
    }
    Ok(cuts)
}

/// The thresholds that cut these values into at most so many groups at the least cost: of the cheapest divisions the one with
/// the fewest pieces, and of those the one whose lengths come first in lexicographic order. `values` are fares, falling, and
/// `weights` the seats that were asked for at each.
///
/// # Errors
/// Memory runs out.
pub fn best_cuts(
    alloc: Global,
    values: &[u32],
    weights: &[u32],
    groups: u8,
) -> Result<Cuts, AllocError>
    requires points { ArePoints (points values.now weights.now) }
    requires some { 0 < length values.now }
    requires groups { IsInRange 1 MOST_GROUPS groups }
    ensures cuts { IfOk result (λ cuts. AreCuts (points values.now weights.now) groups cuts) }
    ensures least { IfOk result (λ cuts. (g : Grouping) → IsGrouping (points values.now weights.now) groups g
        → cuts.cost ≤ grouping_cost (points values.now weights.now) g) }
    ensures small { IfOk result (λ cuts. cuts.cost < 2 ^ 58) }
{
    let division = chosen_division(alloc, values, weights, groups)?;
    let cuts = last_values(alloc, values, weights, &division.lengths)?;
    let centres = centres_of(alloc, values, weights, &division.lengths)?;
    Ok(Cuts {
        cost: division.cost,
        cuts,
        centres,
    })
}
