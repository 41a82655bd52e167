//! Demands in falling order. At place m, from 0 on, stands the least number of seats that at most m of them exceed.
ghost use Rattle.std.specs.Prelude.{◌≡◌, slice_index};
ghost use Rattle.std.specs.List.Sorted.{IsPermutation};
ghost use Rattle.std.specs.Ordering.{nat_cmp};
ghost use Rattle.nrm_emsr.specs.Inner.Ranked.{Falls};

use std::cmp::Ordering;

/// Demands, sorted so that they fall.
pub(crate) fn falling(mut demands: Vec<u32>) -> Vec<u32>
    ensures moved { IsPermutation demands.items result.items }
    ensures falls { Falls result.items }
{
    demands.sort_unstable_by(greater_first);
    demands
}

// The order of two demands of which the greater comes first.
fn greater_first(demand: &u32, other: &u32) -> Ordering
    ensures { result ≡ nat_cmp other.now demand.now }
{
    other.cmp(demand)
}

/// The demand at a place, and 0 past the last.
pub(crate) fn demand_at(demands: &[u32], place: u8) -> u32
    ensures { result ≡ slice_index demands.now place }
{
    demands.get(place as usize).copied().unwrap_or(0)
}
