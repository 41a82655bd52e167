//! The ratios of two rows to their entries at one column, compared in the order of a dictionary by whole numbers: the
//! denominators of the rows cancel.
#![tactic(auto)]

ghost use Rattle.std.specs.Prelude.{◌≡◌, ◌<◌, ℕ, List, ◌∷◌, pos, length, get_or, unwrap_or, All};
ghost use Rattle.nrm_fraction.specs.Rows.{ratio_columns};
ghost use Rattle.nrm_row.specs.Inner.Crossed.{crossed_below};
ghost use Rattle.nrm_fraction.specs.Large.{IsSmall};

use crate::numbers::product;

// Whether the first of the ratios x / p and y / q at a column is less: None where they are the same.
fn ratio_below(xs: &[i64], ys: &[i64], p: i64, q: i64, col: usize) -> Option<bool>
    requires xs_small { All IsSmall xs.now }
    requires ys_small { All IsSmall ys.now }
    requires p_small { IsSmall p }
    requires q_small { IsSmall q }
    requires widths { length ys.now ≡ length xs.now }
    requires within { col < length xs.now }
    ensures { (cols : List ℕ) → crossed_below p q xs.now ys.now (col ∷ cols) ≡ unwrap_or result (crossed_below p q xs.now ys.now cols) }
{
    let x = xs[col];
    let y = ys[col];
    if x == 0 && y == 0 {
        return None;
    }
    let left = product(x, q);
    let right = product(y, p);
    if left != right {
        Some(left < right)
    } else {
        None
    }
}

// Whether the ratios to the number at `col`, of the last number and then of those from `from` on, come before those of
// the other numbers.
pub(crate) fn ratios_below(xs: &[i64], ys: &[i64], col: usize, from: usize) -> bool
    requires xs_small { All IsSmall xs.now }
    requires ys_small { All IsSmall ys.now }
    requires widths { length ys.now ≡ length xs.now }
    requires within { col < length xs.now }
    requires from_within { from < length xs.now }
    ensures { let columns = ratio_columns from (length xs.now) in
        result ≡ crossed_below (get_or xs.now col (pos 0)) (get_or ys.now col (pos 0)) xs.now ys.now columns }
{
    let p = xs[col];
    let q = ys[col];
    let last = xs.len() - 1;
    if let Some(below) = ratio_below(xs, ys, p, q, last) {
        return below;
    }
    for i in from..last {
        if let Some(below) = ratio_below(xs, ys, p, q, i) {
            return below;
        }
    }
    false
}
