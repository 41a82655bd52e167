//! Lines on the nest of a product on a leg, and on what the seats that are protected from it are found from.
ghost use Rattle.std.specs.Prelude.{◌≡◌, ◌+◌, ◌-◌, ◌*◌, ◌≤◌, ◌<◌, ◌^◌, ◌++◌, codes, decimal, flat_map, length, unsigned_abs};
ghost use Rattle.std.specs.Int.{IsInRange};
ghost use Rattle.nrm_fraction.specs.Fraction.{◌over◌};
ghost use Rattle.nrm_text.specs.Fractions.{fraction_text};
ghost use Rattle.nrm_text.specs.Words.{spaced};
ghost use Rattle.nrm_model.specs.declared.limits.TheConstants.{MOST_HISTORIES, MOST_THRESHOLDS};
ghost use Rattle.nrm_account.specs.Lines.{counted, ended};
ghost use Rattle.nrm_account.specs.Nests.{below_text, from_text};

use crate::line::{ROOM, named, push_pair};
use nrm_text::{Name, Text};

// The most bytes of the line of the demand of a leg.
const DEMAND_ROOM: usize = 736;

// Appends the bounds of a bucket among a leg's thresholds.
fn push_bounds(line: &mut Text<ROOM>, cuts: &[u32], bucket: u8)
    requires cuts { length cuts.now ≤ MOST_THRESHOLDS }
    requires bucket { IsInRange 1 (length cuts.now + 1) bucket }
    requires room { length line.old ≤ 200 }
    ensures text { line.new ≡ line.old ++ from_text cuts.now (length cuts.now + 1) bucket ++ below_text cuts.now bucket }
    ensures length { length line.new ≤ length line.old + 60 }
{
    if (bucket as usize) <= cuts.len() {
        line.push_count(b"from", u64::from(cuts[bucket as usize - 1]));
    }
    if bucket > 1 {
        line.push_count(b"below", u64::from(cuts[bucket as usize - 2]));
    }
}

/// A fraction as it is found: a number over another.
#[derive(Clone, Copy)]
pub(crate) struct Quotient {
    pub(crate) num: i128,
    pub(crate) den: u128,
}

// Appends a word and a fraction, each behind a space.
#[tactic(auto, using(nrm_text::proofs::Fractions::short_fraction))]
fn push_fare(line: &mut Text<ROOM>, word: &[u8], fare: Quotient)
    requires some { 1 ≤ fare.den }
    requires num { unsigned_abs fare.num < 2 ^ 126 }
    requires den { fare.den < 2 ^ 126 }
    requires word { length word.now ≤ 10 }
    requires room { length line.old ≤ 200 }
    ensures text { line.new ≡ line.old ++ spaced word.now ++ spaced (fraction_text (fare.num over fare.den)) }
    ensures length { length line.new ≤ length line.old + 90 }
{
    line.push_bytes(b" ");
    line.push_bytes(word);
    line.push_bytes(b" ");
    line.push_fraction(fare.num, fare.den);
}

/// The adjusted fare of a product on a leg, its bucket, of how many, and the bucket's bounds.
pub(crate) fn nest(leg: &Name, fare: Quotient, bucket: u8, cuts: &[u32]) -> Text<ROOM>
    requires fare { (1 ≤ fare.den) × (unsigned_abs fare.num < 2 ^ 126) × (fare.den < 2 ^ 126) }
    requires cuts { length cuts.now ≤ MOST_THRESHOLDS }
    requires bucket { IsInRange 1 (length cuts.now + 1) bucket }
    ensures { result
        ≡ ended (codes "nest" ++ spaced leg.now ++ spaced (codes "fare") ++ spaced (fraction_text (fare.num over fare.den))
        ++ counted (codes "bucket") bucket ++ counted (codes "of") (length cuts.now + 1)
        ++ from_text cuts.now (length cuts.now + 1) bucket ++ below_text cuts.now bucket) }
{
    let mut line = named(b"nest", leg);
    push_fare(&mut line, b"fare", fare);
    push_pair(
        &mut line,
        b"bucket",
        u64::from(bucket),
        b"of",
        cuts.len() as u64 + 1,
    );
    push_bounds(&mut line, cuts, bucket);
    line.push_bytes(b"\n");
    line
}

/// What seats that are enough for some buckets are found from: the mean fare of these buckets, the fare of the next, and how many of the
/// histories have more demand.
pub(crate) fn enough(
    leg: &Name,
    seats: u16,
    buckets: u8,
    mean: Quotient,
    next: Quotient,
    histories: u8,
    passed: u8,
) -> Text<ROOM>
    requires mean { (1 ≤ mean.den) × (unsigned_abs mean.num < 2 ^ 126) × (mean.den < 2 ^ 126) }
    requires next { (1 ≤ next.den) × (unsigned_abs next.num < 2 ^ 126) × (next.den < 2 ^ 126) }
    ensures { result
        ≡ ended (codes "enough" ++ spaced leg.now ++ counted (codes "seats") seats ++ counted (codes "buckets") buckets
        ++ spaced (codes "mean") ++ spaced (fraction_text (mean.num over mean.den)) ++ spaced (codes "next")
        ++ spaced (fraction_text (next.num over next.den)) ++ counted (codes "histories") histories
        ++ counted (codes "over") passed) }
{
    let mut line = named(b"enough", leg);
    push_pair(
        &mut line,
        b"seats",
        u64::from(seats),
        b"buckets",
        u64::from(buckets),
    );
    push_fare(&mut line, b"mean", mean);
    push_fare(&mut line, b"next", next);
    push_pair(
        &mut line,
        b"histories",
        u64::from(histories),
        b"over",
        u64::from(passed),
    );
    line.push_bytes(b"\n");
    line
}

// Appends numbers, each behind a space.
fn push_each(line: &mut Text<DEMAND_ROOM>, demands: &[u32])
    requires few { length demands.now ≤ MOST_HISTORIES }
    requires room { length line.old ≤ 60 }
    ensures text { line.new ≡ line.old ++ flat_map (λ seats. spaced (decimal seats)) demands.now }
    ensures length { length line.new ≤ length line.old + 21 * length demands.now }
{
    for seats in demands {
        line.push_spaced(u64::from(*seats));
    }
}

/// The demand to come, history by history.
pub(crate) fn demand(leg: &Name, demands: &[u32]) -> Text<DEMAND_ROOM>
    requires { length demands.now ≤ MOST_HISTORIES }
    ensures { result
        ≡ ended (codes "demand" ++ spaced leg.now ++ flat_map (λ seats. spaced (decimal seats)) demands.now) }
{
    let mut line = Text::of_bytes(b"demand ");
    line.push_name(leg);
    push_each(&mut line, demands);
    line.push_bytes(b"\n");
    line
}
