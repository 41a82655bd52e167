//! Where bookings are kept.
ghost use Rattle.std.specs.Prelude.{ℕ, List, Option, ◌≡◌, ◌<◌, ◌^◌, IfOk, OnOk, OnErr};
ghost use Rattle.nrm_edge.specs.Causes.{counted};
ghost use Rattle.nrm_keeper.specs.declared.row.KeptRow.{KeptRow};
ghost use Rattle.nrm_keeper.specs.Rows.{Adds, Drops, Keeps, Lists, has_failed};

use crate::{KeepFault, KeptRow};
use std::alloc::Global;

/// A place that keeps rows, and counts the calls that failed: one for each call that answers `Failed`, up to the last
/// value of `u64`. What a call says of the rows holds of the rows that are told (`rows`). A place that others may write, as a
/// file, can't promise to tell its rows still after a call: it shows them (`shown`), and says what has to be so for them to be
/// its rows (`trusted`). What is trusted after a call was trusted before it, so trust at the end of a run is trust all along;
/// and then the call did to the rows that are shown what it says (`shows`).
pub trait Keeper {
    /// The rows that are kept, by rising number, if the keeper tells them.
    ghost rows: { Self → Option (List KeptRow) };

    /// What the place shows of its rows. They are its rows as far as `trusted` holds.
    ghost shown: { Self → Option (List KeptRow) };

    /// What has to be so for the rows to be those that are shown. Of rows in memory nothing; of a file that nobody else wrote
    /// it, that it returned what was written, and that it was never let go.
    ghost trusted: { Self → Type 0 };

    /// How often a call has failed.
    ghost faults: { Self → ℕ };

    /// Keeps one row more. Its number is to be above each kept one.
    ///
    /// # Errors
    /// `Failed` if the row could not be written, `NoMemory` if memory ran out. Either way no row was added.
    fn add(&mut self, alloc: Global, row: KeptRow) -> Result<(), KeepFault>
        requires { row.number < 10 ^ 12 }
        ensures added { OnOk result (Adds row (rows self.old) (rows self.new)) }
        ensures unchanged { OnErr result (rows self.new ≡ rows self.old) }
        ensures shows { trusted self.new → trusted self.old × OnOk result (Adds row (shown self.old) (shown self.new))
            × OnErr result (shown self.new ≡ shown self.old) }
        ensures counts { faults self.new ≡ counted (has_failed result) (faults self.old) };

    /// Drops the kept row of a number.
    ///
    /// # Errors
    /// `Failed` if the row could not be taken away, `NoMemory` if memory ran out. Either way the row is still kept.
    fn drop_row(&mut self, alloc: Global, number: u64) -> Result<(), KeepFault>
        requires { number < 10 ^ 12 }
        ensures dropped { OnOk result (Drops number (rows self.old) (rows self.new)) }
        ensures unchanged { OnErr result (rows self.new ≡ rows self.old) }
        ensures shows { trusted self.new → trusted self.old × OnOk result (Drops number (shown self.old) (shown self.new))
            × OnErr result (shown self.new ≡ shown self.old) }
        ensures counts { faults self.new ≡ counted (has_failed result) (faults self.old) };

    /// Every kept row, by rising number.
    ///
    /// # Errors
    /// `Failed` if the rows could not be read, or what was read is no kept row; `NoMemory` if memory ran out. Either way
    /// the rows stay as they are.
    fn all(&mut self, alloc: Global) -> Result<Vec<KeptRow>, KeepFault>
        ensures listed { IfOk result (λ list. Lists list.items (rows self.new)) }
        ensures stays { OnOk result (Keeps (rows self.old) (rows self.new)) }
        ensures unchanged { OnErr result (rows self.new ≡ rows self.old) }
        ensures shows { trusted self.new → trusted self.old × (shown self.new ≡ shown self.old)
            × IfOk result (λ list. Lists list.items (shown self.new)) }
        ensures counts { faults self.new ≡ counted (has_failed result) (faults self.old) };
}
