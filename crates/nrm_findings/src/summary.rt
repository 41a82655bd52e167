//! The line that sums a made run up.
ghost use Rattle.std.specs.Prelude.{◌≡◌, ◌<◌, ◌≤◌, ◌+◌, ◌++◌, IfSome, length};
ghost use Rattle.std.specs.List.{join_with_byte};
ghost use Rattle.nrm_text.specs.Words.{text_line};
ghost use Rattle.nrm_findings.specs.Summary.{count_words, fraction_of, hindsight_word, nothing_counted, summary_words};

use nrm_text::Line;

/// How many replies there were of each kind, of those that a summary counts.
#[derive(Clone, Copy, Debug, PartialEq, Eq)]
pub struct Counts {
    /// Requests that were sold.
    pub sold: u32,
    /// Requests that a leg refused.
    pub no_leg: u32,
    /// Requests that the fare refused.
    pub no_fare: u32,
    /// Cancellations.
    pub cancelled: u32,
    /// Lines that name a product, a leg, a booking or a period that isn't there.
    pub unknown: u32,
    /// Legs that were told.
    pub legs: u32,
    /// New plans, those for which nothing was solved too.
    pub optimised: u32,
    /// Linear programs that were too large.
    pub overflow: u32,
}

impl Counts {
    /// None of any kind.
    pub fn new() -> Counts
        ensures { result ≡ nothing_counted }
    {
        Counts {
            sold: 0,
            no_leg: 0,
            no_fare: 0,
            cancelled: 0,
            unknown: 0,
            legs: 0,
            optimised: 0,
            overflow: 0,
        }
    }
}

// The words of the counts.
fn line_of_counts(counts: &Counts) -> Line
    ensures text { result ≡ join_with_byte 32 (count_words counts.now) }
    ensures length { length result ≤ 280 }
{
    let mut line = Line::of_bytes(b"made lines 10000");
    line.push_count(b"ok", u64::from(counts.sold));
    line.push_count(b"no", u64::from(counts.no_leg));
    line.push_count(b"fare", u64::from(counts.no_fare));
    line.push_count(b"cancelled", u64::from(counts.cancelled));
    line.push_count(b"unknown", u64::from(counts.unknown));
    line.push_count(b"legs", u64::from(counts.legs));
    line.push_count(b"optimised", u64::from(counts.optimised));
    line.push_count(b"overflow", u64::from(counts.overflow));
    line
}

// Appends the value of hindsight, or that its linear program is Large.
#[tactic(auto, using(nrm_text::proofs::Fractions::short_fraction))]
fn push_hindsight(line: &mut Line, hindsight: Option<(u64, u64)>)
    requires room { length line.old ≤ 400 }
    requires some { IfSome hindsight (λ value. 0 < value.1) }
    ensures text { line.new ≡ line.old ++ hindsight_word (fraction_of hindsight) }
    ensures length { length line.new ≤ length line.old + 78 }
{
    match hindsight {
        Some((num, den)) => line.push_fraction(i128::from(num), u128::from(den)),
        None => line.push_bytes(b"overflow"),
    }
}

/// The line that sums a made run up: how many lines it had, how many replies of each kind, the revenue of the bookings that
/// stand, and the value of hindsight as a numerator and a denominator, both in whole currency units; `None` where the linear program
/// of hindsight is too large.
pub fn line_of_summary(counts: &Counts, revenue: u64, hindsight: Option<(u64, u64)>) -> Line
    requires { IfSome hindsight (λ value. 0 < value.1) }
    ensures { result ≡ text_line (summary_words counts.now revenue (hindsight_word (fraction_of hindsight))) }
{
    let mut line = line_of_counts(counts);
    line.push_count(b"revenue", revenue);
    line.push_bytes(b" hindsight ");
    push_hindsight(&mut line, hindsight);
    line.push_bytes(b"\n");
    line
}
