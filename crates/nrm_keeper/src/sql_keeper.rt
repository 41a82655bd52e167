//! A keeper over a store of `sqlite` in memory: a connection, in no transaction, and a count of faults. It tells the
//! rows of the table `kept` if the store holds nothing, or that table alone.
use crate::causes::raised;
use crate::table::{drop_kept, keep, list};
use crate::{KeepFault, Keeper, KeptRow};
use sqlite::{Connection, MemStore};
use std::alloc::Global;
use std::marker::Model;

/// A connection to a store in memory.
pub type MemConnection = Connection<MemStore>;

/// Rows in a table of a store in memory, and a count of faults. A fault is a statement that is refused for another cause
/// than memory, a DELETE that removes no row, or a row of the table that is no kept row.
#[derive(Drop)]
pub struct SqlKeeper {
    connection: MemConnection,
    faults: u64,
}

impl Model for SqlKeeper {
    ghost use Rattle.std.specs.Prelude.{◌≡◌, false};
    ghost use Rattle.nrm_keeper.specs.Told.{ToldRows, told_by};

    ghost Value = { ToldRows };

    ghost view = { λ s. record { rows = told_by s.connection; faults = s.faults } };

    ghost invariant = { λ s. s.connection.in_transaction ≡ false };
}

impl SqlKeeper {
    ghost use Rattle.std.specs.Prelude.{◌≡◌, false, Some, []};
    ghost use Rattle.nrm_keeper.specs.Stored.{no_schema};
    ghost use Rattle.nrm_keeper.specs.Told.{told_by};

    /// A keeper over this connection, which is in no transaction. It takes no memory and runs no statement.
    pub fn over(connection: MemConnection) -> SqlKeeper
        requires { connection.in_transaction ≡ false }
        ensures told { result ≡ record { rows = told_by connection; faults = 0 } }
        ensures empty { connection.schema ≡ no_schema → result.rows ≡ Some [] }
    {
        SqlKeeper {
            connection,
            faults: 0,
        }
    }
}

impl Keeper for SqlKeeper {
    ghost use Rattle.std.specs.Prelude.{⊤};

    ghost rows = { λ s. s.rows };

    ghost shown = { λ s. s.rows };

    ghost trusted = { λ _. ⊤ };

    ghost faults = { λ s. s.faults };

    fn add(&mut self, alloc: Global, row: KeptRow) -> Result<(), KeepFault> {
        let kept = keep(&mut self.connection, &row);
        raised(&mut self.faults, kept)
    }

    fn drop_row(&mut self, alloc: Global, number: u64) -> Result<(), KeepFault> {
        let dropped = drop_kept(&mut self.connection, number);
        raised(&mut self.faults, dropped)
    }

    fn all(&mut self, alloc: Global) -> Result<Vec<KeptRow>, KeepFault> {
        let listed = list(alloc, &mut self.connection);
        raised(&mut self.faults, listed)
    }
}
