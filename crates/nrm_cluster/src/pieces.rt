//! Pieces of a falling list of values, each longer by one value than the one before it. A piece carries the sums up to its last
//! value and up to the one above its centre, so that its centre and its cost come without a walk over it: as a piece grows, its
//! centre only moves on. A piece is told by its first place and by how many values it has.
ghost use Rattle.std.specs.Prelude.{◌≡◌, ◌+◌, ◌*◌, ◌<◌, ◌≤◌, ◌^◌, length};
ghost use Rattle.nrm_model.specs.declared.limits.TheConstants.{MOST_FARE};
ghost use Rattle.nrm_cluster.specs.declared.limits.TheConstants.{MOST_WEIGHT};
ghost use Rattle.nrm_cluster.specs.Points.{ArePoints, PointsValue, points};
ghost use Rattle.nrm_cluster.specs.Divisions.{centre_of, weight_from};
ghost use Rattle.nrm_cluster.specs.Inner.Pieces.{AreParts, IsSmallSum, cost_by, middle_of, piece_of};

/// The weight of some values, and what they are worth: weight times value, in all.
#[derive(Clone, Copy, Debug)]
pub(crate) struct Sum {
    pub(crate) weight: u64,
    pub(crate) worth: u64,
}

/// The place of a piece's centre, and the sum of what the piece has above it.
#[derive(Clone, Copy, Debug)]
pub(crate) struct Middle {
    pub(crate) place: usize,
    pub(crate) above: Sum,
}

/// A piece: its first place and how many values it has, their sum, its middle and its cost.
#[derive(Clone, Copy, Debug)]
pub(crate) struct Piece {
    pub(crate) start: usize,
    pub(crate) count: usize,
    pub(crate) whole: Sum,
    pub(crate) middle: Middle,
    pub(crate) cost: u64,
}

/// The sum of no value.
const NOTHING: Sum = Sum {
    weight: 0,
    worth: 0,
};

// A sum with one value more.
fn added(sum: Sum, weight: u32, value: u32) -> Sum
    requires small { IsSmallSum sum }
    requires weight { weight ≤ MOST_WEIGHT }
    requires value { value ≤ MOST_FARE }
    ensures weight { result.weight ≡ sum.weight + weight }
    ensures worth { result.worth ≡ sum.worth + weight * value }
{
    Sum {
        weight: sum.weight + u64::from(weight),
        worth: sum.worth + u64::from(weight) * u64::from(value),
    }
}

// What values cost at a centre: those above it, and the rest of all.
fn cost_at(centre: u32, above: Sum, whole: Sum) -> u64
    requires { AreParts centre above whole }
    ensures { result ≡ cost_by centre above whole }
{
    let centre = u64::from(centre);
    let dearer = above.worth - centre * above.weight;
    let cheaper = centre * (whole.weight - above.weight) - (whole.worth - above.worth);
    dearer + cheaper
}

impl Piece {
    /// The piece of no value at this place.
    pub(crate) fn at(start: usize) -> Piece
        ensures { (p : PointsValue) → result ≡ piece_of p start 0 }
    {
        Piece {
            start,
            count: 0,
            whole: NOTHING,
            middle: Middle {
                place: start,
                above: NOTHING,
            },
            cost: 0,
        }
    }

    // The middle of the piece with the next value, of which this is the weight: it is looked for from the piece's own middle on.
    fn next_middle(self, values: &[u32], weights: &[u32], whole: u64) -> Middle
        requires points { ArePoints (points values.now weights.now) }
        requires piece { self ≡ piece_of (points values.now weights.now) self.start self.count }
        requires more { self.start + self.count < length values.now }
        requires whole { whole ≡ weight_from (points values.now weights.now) self.start (self.count + 1) }
        ensures { result ≡ middle_of (points values.now weights.now) self.start (self.count + 1) }
    {
        let last = self.start + self.count;
        let mut above = self.middle.above;
        for place in self.middle.place..last {
            let upto = added(above, weights[place], values[place]);
            if whole <= 2 * upto.weight {
                return Middle { place, above };
            }
            above = upto;
        }
        Middle { place: last, above }
    }

    /// The piece with the next value.
    pub(crate) fn longer(self, values: &[u32], weights: &[u32]) -> Piece
        requires points { ArePoints (points values.now weights.now) }
        requires piece { self ≡ piece_of (points values.now weights.now) self.start self.count }
        requires more { self.start + self.count < length values.now }
        ensures piece { result ≡ piece_of (points values.now weights.now) self.start (self.count + 1) }
        ensures small { result.cost < 2 ^ 58 }
    {
        let last = self.start + self.count;
        let whole = added(self.whole, weights[last], values[last]);
        let middle = self.next_middle(values, weights, whole.weight);
        let cost = cost_at(values[middle.place], middle.above, whole);
        Piece {
            start: self.start,
            count: self.count + 1,
            whole,
            middle,
            cost,
        }
    }
}

/// The centre of the n values from place a on: a weighted median.
pub(crate) fn centre(values: &[u32], weights: &[u32], a: usize, n: usize) -> u32
    requires points { ArePoints (points values.now weights.now) }
    requires some { 0 < n }
    requires within { a + n ≤ length values.now }
    ensures whole { result ≡ centre_of (points values.now weights.now) a n }
    ensures small { result ≤ MOST_FARE }
{
    let mut piece = Piece::at(a);
    for _ in 0..n {
        piece = piece.longer(values, weights);
    }
    values[piece.middle.place]
}
