//! The thresholds that group the fares on a leg at the least cost, as they are written.
ghost use Rattle.std.specs.Prelude.{◌≡◌, ◌≤◌, ◌+◌, ◌*◌, ◌++◌, ◌∷◌, [], IfOk, MatchOption, codes, decimal, flat_map, length};
ghost use Rattle.std.specs.Int.{IsInRange};
ghost use Rattle.nrm_text.specs.Words.{spaced};
ghost use Rattle.nrm_cluster.specs.declared.limits.TheConstants.{MOST_GROUPS};
ghost use Rattle.nrm_findings.specs.LegThresholds.{IsCut, IsUnused, cuts_text, numbers_line};

use nrm_cluster::{Cuts, best_cuts, leg_points};
use nrm_model::Network;
use nrm_text::{Line, Name};
use std::alloc::{AllocError, Global};

// Appends numbers, each behind a space.
fn push_numbers(text: &mut Line, numbers: &[u32])
    requires room { length text.old + 21 * length numbers.now ≤ 512 }
    ensures text { text.new ≡ text.old ++ flat_map (λ number. spaced (decimal number)) numbers.now }
    ensures length { length text.new ≤ length text.old + 21 * length numbers.now }
{
    for number in numbers {
        text.push_spaced(u64::from(*number));
    }
}

// Appends the line of a word, the name of a leg and numbers.
fn push_line(text: &mut Line, word: &[u8], leg: &Name, numbers: &[u32])
    requires word { length word.now ≤ 10 }
    requires room { length text.old + 24 + 21 * length numbers.now ≤ 512 }
    ensures text { text.new ≡ text.old ++ numbers_line word.now leg.now numbers.now }
    ensures length { length text.new ≤ length text.old + 24 + 21 * length numbers.now }
{
    text.push_bytes(word);
    text.push_bytes(b" ");
    text.push_name(leg);
    push_numbers(text, numbers);
    text.push_bytes(b"\n");
}

// Appends the line of the cost.
fn push_cost(text: &mut Line, leg: &Name, cost: u64)
    requires { length text.old + 40 ≤ 512 }
    ensures { text.new ≡ text.old ++ numbers_line (codes "cost") leg.now (cost ∷ []) }
{
    text.push_bytes(b"cost ");
    text.push_name(leg);
    text.push_spaced(cost);
    text.push_bytes(b"\n");
}

// The thresholds, the centres and the cost.
fn text_of_cuts(leg: &Name, found: &Cuts) -> Line
    requires cuts { length found.now.cuts ≤ 9 }
    requires centres { length found.now.centres ≤ 10 }
    ensures { result ≡ cuts_text leg.now found.now }
{
    let mut text = Line::new();
    push_line(&mut text, b"cuts", leg, &found.cuts);
    push_line(&mut text, b"centres", leg, &found.centres);
    push_cost(&mut text, leg, found.cost);
    text
}

/// The thresholds that divide the fares on the leg of this name into at most so many groups at the least cost, as three
/// lines: the thresholds, the centres of the groups and the cost, each in whole currency units. `None` exactly if no
/// product uses a leg of this name.
///
/// # Errors
/// Memory runs out.
pub fn cuts_of(
    alloc: Global,
    net: &Network,
    name: &Name,
    groups: u8,
) -> Result<Option<Line>, AllocError>
    requires { IsInRange 1 MOST_GROUPS groups }
    ensures { IfOk result (λ text. MatchOption text (IsUnused net.now name.now) (λ told. IsCut net.now name.now groups told)) }
{
    let Some(leg) = net.find_leg(name) else {
        return Ok(None);
    };
    let points = leg_points(alloc, net, leg)?;
    if points.values.is_empty() {
        return Ok(None);
    }
    let found = best_cuts(alloc, &points.values, &points.weights, groups)?;
    Ok(Some(text_of_cuts(name, &found)))
}
