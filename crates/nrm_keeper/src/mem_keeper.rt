//! A keeper in memory, for tests and for proofs of what stands above: a list of rows, and counts.
ghost use Rattle.std.specs.Prelude.{◌≡◌, ◌<◌, ◌^◌, ◌++◌, ◌∷◌, [], true, IfErr, IfOk, OnOk, OnErr};
ghost use Rattle.nrm_keeper.specs.Rows.{rise, without};
ghost use Rattle.nrm_keeper.specs.Memory.{fails_next, after_call};

use crate::{KeepFault, Keeper, KeptRow};
use std::alloc::Global;
use std::marker::Model;

/// Rows in memory, and the numbers of the calls that fail, for tests. It counts its calls, of all three kinds, from 1. A
/// call whose number is among those that fail does nothing and answers `Failed`. A row that is dropped though no row has
/// its number is no fault.
#[derive(Drop)]
pub struct MemKeeper {
    rows: Vec<KeptRow>,
    failing: Vec<u64>,
    calls: u64,
    faults: u64,
}

impl Model for MemKeeper {
    ghost use Rattle.nrm_keeper.specs.Memory.{HeldRows};

    ghost Value = { HeldRows };

    ghost view = { λ s. record { rows = s.rows.items; failing = s.failing.items; calls = s.calls; faults = s.faults } };
}

impl MemKeeper {
    ghost use Rattle.std.specs.Prelude.{◌≡◌, true};

    /// A keeper of these rows, whose numbers rise. The calls whose numbers, from 1 over all three kinds, stand in `failing`
    /// fail. It takes no memory.
    pub fn new(rows: Vec<KeptRow>, failing: Vec<u64>) -> MemKeeper
        requires { rise rows.items ≡ true }
        ensures { result ≡ record { rows = rows.items; failing = failing.items; calls = 0; faults = 0 } }
    {
        MemKeeper {
            rows,
            failing,
            calls: 0,
            faults: 0,
        }
    }

    // Counts a call, and its fault if it is one of those that fail.
    fn fails(&mut self) -> bool
        ensures fails { result ≡ fails_next self.old }
        ensures counts { self.new ≡ after_call self.old }
    {
        self.calls = self.calls.saturating_add(1);
        let fails = self.failing.contains(&self.calls);
        if fails {
            self.faults = self.faults.saturating_add(1);
        }
        fails
    }
}

// Puts a row behind the others.
fn push_row(rows: &mut Vec<KeptRow>, row: KeptRow) -> Result<(), KeepFault>
    ensures pushed { OnOk result (rows.new.items ≡ rows.old.items ++ row ∷ []) }
    ensures same { OnErr result (rows.new.items ≡ rows.old.items) }
    ensures memory { IfErr result (λ fault. fault ≡ KeepFault.NoMemory) }
{
    match rows.push(row) {
        Ok(()) => Ok(()),
        Err(_) => Err(KeepFault::NoMemory),
    }
}

// Takes out the rows of a number.
fn take_out(rows: &mut Vec<KeptRow>, number: u64)
    ensures { rows.new.items ≡ without number rows.old.items }
{
    rows.retain(|row| row.number != number);
}

impl Keeper for MemKeeper {
    ghost use Rattle.std.specs.Prelude.{◌≡◌, ◌<◌, ◌^◌, ◌++◌, ◌∷◌, [], IfOk, OnOk, OnErr, ⊤};
    ghost use Rattle.nrm_edge.specs.Causes.{counted};
    ghost use Rattle.nrm_keeper.specs.Rows.{Adds, Drops, Keeps, Lists, told_if_rising, without, has_failed};
    ghost use Rattle.nrm_keeper.specs.Memory.{fails_next, after_call};

    ghost rows = { λ s. told_if_rising s.rows };

    ghost shown = { λ s. told_if_rising s.rows };

    ghost trusted = { λ _. ⊤ };

    ghost faults = { λ s. s.faults };

    fn add(&mut self, alloc: Global, row: KeptRow) -> Result<(), KeepFault>
        requires { row.number < 10 ^ 12 }
        ensures added { OnOk result (Adds row (told_if_rising self.old.rows) (told_if_rising self.new.rows)) }
        ensures unchanged { OnErr result (told_if_rising self.new.rows ≡ told_if_rising self.old.rows) }
        ensures shows { ⊤ → ⊤ × OnOk result (Adds row (told_if_rising self.old.rows) (told_if_rising self.new.rows))
            × OnErr result (told_if_rising self.new.rows ≡ told_if_rising self.old.rows) }
        ensures counts { self.new.faults ≡ counted (has_failed result) self.old.faults }
        ensures fails { has_failed result ≡ fails_next self.old }
        ensures appended { OnOk result (self.new ≡ record (after_call self.old) { rows = self.old.rows ++ row ∷ [] }) }
        ensures same { OnErr result (self.new ≡ after_call self.old) }
    {
        if self.fails() {
            return Err(KeepFault::Failed);
        }
        push_row(&mut self.rows, row)
    }

    fn drop_row(&mut self, alloc: Global, number: u64) -> Result<(), KeepFault>
        requires { number < 10 ^ 12 }
        ensures dropped { OnOk result (Drops number (told_if_rising self.old.rows) (told_if_rising self.new.rows)) }
        ensures unchanged { OnErr result (told_if_rising self.new.rows ≡ told_if_rising self.old.rows) }
        ensures shows { ⊤ → ⊤ × OnOk result (Drops number (told_if_rising self.old.rows) (told_if_rising self.new.rows))
            × OnErr result (told_if_rising self.new.rows ≡ told_if_rising self.old.rows) }
        ensures counts { self.new.faults ≡ counted (has_failed result) self.old.faults }
        ensures fails { has_failed result ≡ fails_next self.old }
        ensures removed { OnOk result (self.new ≡ record (after_call self.old) { rows = without number self.old.rows }) }
        ensures same { OnErr result (self.new ≡ after_call self.old) }
    {
        if self.fails() {
            return Err(KeepFault::Failed);
        }
        take_out(&mut self.rows, number);
        Ok(())
    }

    fn all(&mut self, alloc: Global) -> Result<Vec<KeptRow>, KeepFault>
        ensures listed { IfOk result (λ list. Lists list.items (told_if_rising self.new.rows)) }
        ensures stays { OnOk result (Keeps (told_if_rising self.old.rows) (told_if_rising self.new.rows)) }
        ensures unchanged { OnErr result (told_if_rising self.new.rows ≡ told_if_rising self.old.rows) }
        ensures shows { ⊤ → ⊤ × (told_if_rising self.new.rows ≡ told_if_rising self.old.rows)
            × IfOk result (λ list. Lists list.items (told_if_rising self.new.rows)) }
        ensures counts { self.new.faults ≡ counted (has_failed result) self.old.faults }
        ensures fails { has_failed result ≡ fails_next self.old }
        ensures whole { IfOk result (λ list. list.items ≡ self.old.rows) }
        ensures same { self.new ≡ after_call self.old }
    {
        if self.fails() {
            return Err(KeepFault::Failed);
        }
        match self.rows.to_vec(alloc) {
            Ok(rows) => Ok(rows),
            Err(_) => Err(KeepFault::NoMemory),
        }
    }
}
