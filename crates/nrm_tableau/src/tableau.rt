//! A tableau: its rows as exact fractions, and the basic column of each constraint row. It is kept on its program's path.
#![tactic(auto)]

ghost use Rattle.std.specs.Prelude.{◌≡◌, ◌<◌, pos, true, IfOk, IfErr, IfSome, MatchResult, OnOk, Some, None};
ghost use Rattle.std.specs.Option.{option_map};
ghost use Rattle.nrm_fraction.specs.Fraction.{less, whole};
ghost use Rattle.nrm_fraction.specs.Rows.{at};
ghost use Rattle.nrm_fraction.specs.Fault.{IsFault};
ghost use Rattle.nrm_lp.specs.Tableau.{first_tableau, right_side, entering, leaving, pivot};
ghost use Rattle.nrm_lp.specs.Closing.{certificate};
ghost use Rattle.nrm_lp.specs.Overflow.{closing_large, pivot_large};
ghost use Rattle.nrm_tableau.specs.Value.{IsOnPath};
ghost use Rattle.nrm_fraction.specs.Large.{size_limit};

use crate::columns::right_side;
use crate::ending::{allotted, leg_prices, numbers, value_over};
use crate::first::{first_basis, first_rows, first_sets, first_value};
use crate::leaving::{entering_column, leaving_row};
use crate::pivot::{combine_others, pivot_row, spread};
use crate::row_set::RowSet;
use nrm_lp::{Certificate, Numbers, Program};
use nrm_row::{Row, RowFault};
use std::alloc::{AllocError, Global};
use std::marker::Model;

/// A tableau of the simplex method on a program: its constraint rows, the value row, and the basic column of each
/// constraint row. For each column before the right side it keeps a set with every row that has an entry other than 0 there,
/// and maybe others, so that a pivot looks at these alone.
#[derive(Drop)]
pub struct Tableau<'a> {
    program: &'a Program,
    rows: Vec<Row>,
    value: Row,
    basis: Vec<u16>,
    sets: Vec<RowSet>,
}

impl<'a> Model for Tableau<'a> {
    ghost use Rattle.nrm_tableau.specs.Value.{TableauValue};
    ghost use Rattle.nrm_tableau.specs.RowSets.{IsTableau};

    ghost Value = { TableauValue };

    ghost view = { λ t. record {
      program = t.program.now;
      table = record { rows = t.rows.items; value = t.value; basis = t.basis.items };
    } };

    ghost invariant = { λ t. IsTableau
        (record { program = t.program.now; table = record { rows = t.rows.items; value = t.value; basis = t.basis.items } })
        t.sets.items };
}

impl<'a> Tableau<'a> {
    /// The first tableau of a program: every slack is basic.
    pub fn first(alloc: Global, program: &'a Program) -> Result<Tableau<'a>, AllocError>
        ensures { IfOk result (λ t. t ≡ record { program = program.now; table = first_tableau program.now }) }
    {
        let rows = first_rows(alloc, program)?;
        let value = first_value(alloc, program)?;
        let basis = first_basis(alloc, program)?;
        let sets = first_sets(alloc, program)?;
        Ok(Tableau {
            program,
            rows,
            value,
            basis,
            sets,
        })
    }

    /// The lowest-numbered column before the right side with a negative entry in the value row; `None` exactly where
    /// there is none.
    #[tactic(auto, using(crate::proofs::Paths::found_before, crate::proofs::Paths::found_negative))]
    pub fn entering(&self) -> Option<u16>
        ensures column { result ≡ entering self.now.table }
        ensures on_path { IsOnPath self.now }
        ensures before { IfSome result (λ col. col < right_side self.now.program) }
        ensures negative { IfSome result (λ col. less (at self.now.table.value col) (whole (pos 0)) ≡ true) }
    {
        entering_column(&self.value)
    }

    /// The row that leaves for the column: among the rows with a positive entry in it, the one whose list (right side,
    /// then the slack columns), divided by that entry, is lexicographically least.
    pub fn leaving(&self, col: u16) -> u16
        requires before { col < right_side self.now.program }
        requires negative { less (at self.now.table.value col) (whole (pos 0)) ≡ true }
        ensures row { option_map (λ found. found.0) (leaving self.now.program self.now.table col) ≡ Some result }
    {
        leaving_row(self.program, &self.rows, col, &self.sets[usize::from(col)]).unwrap()
    }

    /// The next tableau: the pivot row is made first, then the other constraint rows by number, then the value row, each in
    /// its place, so that a tableau whose pivot fails is gone. The number of a fault is the first that reaches the limit in
    /// size, in this order.
    pub fn pivot(self, alloc: Global, row: u16, col: u16) -> Result<Tableau<'a>, RowFault>
        requires enters { entering self.table ≡ Some col }
        requires leaves { option_map (λ found. found.0) (leaving self.program self.table col) ≡ Some row }
        ensures next { IfOk result (λ t. t ≡ record self.entry { table = pivot self.entry.table row col }) }
        ensures small { OnOk result (pivot_large size_limit self.entry.program self.entry.table ≡ None) }
        ensures fault { IfErr result (λ f. IsFault f (pivot_large size_limit self.entry.program self.entry.table)) }
    {
        let place = usize::from(row);
        let mut rows = self.rows;
        let mut value = self.value;
        let mut basis = self.basis;
        let mut sets = self.sets;
        let unit = pivot_row(alloc, &rows, row, col)?;
        let mut changed = RowSet::of(row);
        let touched = &sets[usize::from(col)];
        combine_others(alloc, &mut rows, row, &unit, col, touched, &mut changed)?;
        value.combine(alloc, &unit, col)?;
        spread(&mut sets, &changed, unit.entries());
        sets[usize::from(col)] = RowSet::of(row);
        rows[place] = unit.into_row();
        basis[place] = col;
        Ok(Tableau {
            program: self.program,
            rows,
            value,
            basis,
            sets,
        })
    }

    /// The closing certificate of a tableau in which no column enters: what is allotted to each product, over the least
    /// common denominator `q`; the bid price of each leg, over the prices' least common denominator `den`; and the value,
    /// over `den` too.
    ///
    /// # Errors
    /// `Large`, with the first number that reaches the limit: the least common denominators of the first product's value, of
    /// the first two and so on, then the numbers of the allotment. `NoMemory`.
    pub fn closing(&self, alloc: Global) -> Result<Certificate, RowFault>
        requires last { entering self.now.table ≡ None }
        ensures { let found = closing_large size_limit self.now.program self.now.table in
            MatchResult result (λ made. (made ≡ certificate self.now.program self.now.table) × (found ≡ None)) (λ f. IsFault f found) }
    {
        let (q, x) = allotted(alloc, self.program, &self.rows, &self.basis)?;
        let prices = leg_prices(alloc, self.program, &self.value)?;
        let p = numbers(alloc, &prices)?;
        Ok(Certificate {
            q,
            x: Numbers::new(x),
            den: prices.den(),
            p: Numbers::new(p),
            value: value_over(&self.value, &prices, right_side(self.program)),
        })
    }
}
