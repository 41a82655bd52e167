//! Sets of constraint rows: a bit for each row, 64 in a word.
#![tactic(auto)]

ghost use Rattle.std.specs.Prelude.{◌≡◌, ◌<◌, ◌≤◌, ℕ, length};
ghost use Rattle.nrm_tableau.specs.RowSets.{row_bit};
ghost use Rattle.nrm_tableau.specs.declared.row_set.TheConstants.{MOST_ROWS};

use crate::walk::{Downwards, Upwards};
use nrm_lp::{MOST_BOUNDS, MOST_CAPS};
use std::marker::Model;

/// Constraint rows of a tableau: one for each leg, and one for each product.
pub(crate) const MOST_ROWS: u16 = (MOST_CAPS + MOST_BOUNDS) as u16;

/// A set of constraint rows. Contracts see its words.
#[derive(Clone, Copy)]
pub(crate) struct RowSet {
    words: [u64; 5],
}

impl Model for RowSet {
    ghost use Rattle.std.specs.Prelude.{ℕ, List, ◌≡◌, length};

    ghost Value = { List ℕ };

    ghost view = { λ set. set.words };

    ghost inverse = { λ words. record { words = words } };

    ghost invariant = { λ set. length set.words ≡ 5 };
}

impl RowSet {
    /// This row alone.
    pub(crate) fn of(row: u16) -> RowSet
        requires { row < MOST_ROWS }
        ensures { row_bit result row ≡ 1 }
    {
        let mut set = RowSet { words: [0; 5] };
        set.insert(row);
        set
    }

    /// Puts a row in.
    pub(crate) fn insert(&mut self, row: u16)
        requires { row < MOST_ROWS }
        ensures put { row_bit self.new row ≡ 1 }
        ensures stays { (r : ℕ) → row_bit self.old r ≡ 1 → row_bit self.new r ≡ 1 }
    {
        self.words[usize::from(row / 64)] |= 1 << (row % 64);
    }

    /// A walk upwards over the rows of the set, from a row on.
    pub(crate) fn upwards(&self, from: u16) -> Upwards<'_>
        ensures words { result.words.now ≡ self.now }
        ensures count { length result.words.now ≡ 5 }
        ensures from { result.from ≡ from }
    {
        Upwards::new(&self.words, from)
    }

    /// A walk downwards over the rows of the set before an end.
    pub(crate) fn downwards(&self, end: u16) -> Downwards<'_>
        requires { end ≤ MOST_ROWS }
        ensures words { result.words.now ≡ self.now }
        ensures end { result.end ≡ end }
    {
        Downwards::new(&self.words, end)
    }

    /// Puts all rows of another set in.
    pub(crate) fn join(&mut self, other: &RowSet)
        ensures { (r : ℕ) → row_bit self.new r ≡ 0 → (row_bit self.old r ≡ 0) × (row_bit other.now r ≡ 0) }
    {
        for i in 0..5 {
            self.words[i] |= other.words[i];
        }
    }
}
