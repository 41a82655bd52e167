//! The calls of a keeper on a connection that may be shut.
ghost use Rattle.std.specs.Prelude.{◌<◌, ◌^◌, IfOk, OnOk, OnErr, IsSome};
ghost use Rattle.nrm_keeper.specs.Rows.{Adds, Drops, Finds, Lists};
ghost use Rattle.nrm_keeper.specs.File.{Same};
ghost use Rattle.nrm_keeper.specs.Steady.{IsSettled};
ghost use Rattle.nrm_keeper.specs.Passes.{Passes};

use crate::table::{drop_kept, keep, list, row_of};
use crate::{KeepFault, KeptRow};
use sqlite::{Alter, Connection};
use std::alloc::Global;

/// Keeps a row in the table.
pub(crate) fn keep_in<S: Alter>(
    connection: &mut Option<Connection<S>>,
    row: &KeptRow,
) -> Result<(), KeepFault>
    requires number { row.now.number < 10 ^ 12 }
    requires settled { IsSettled S.Store connection.old }
    ensures settled { IsSettled S.Store connection.new }
    ensures there { OnOk result (IsSome connection.new) }
    ensures adds { OnOk result (Passes S.Store (Adds row.now) connection.old connection.new) }
    ensures same { OnErr result (Passes S.Store Same connection.old connection.new) }
{
    match connection {
        Some(conn) => keep(conn, row),
        None => Err(KeepFault::Failed),
    }
}

/// Drops the row of a number from the table.
pub(crate) fn drop_in<S: Alter>(
    connection: &mut Option<Connection<S>>,
    number: u64,
) -> Result<(), KeepFault>
    requires number { number < 10 ^ 12 }
    requires settled { IsSettled S.Store connection.old }
    ensures settled { IsSettled S.Store connection.new }
    ensures there { OnOk result (IsSome connection.new) }
    ensures drops { OnOk result (Passes S.Store (Drops number) connection.old connection.new) }
    ensures same { OnErr result (Passes S.Store Same connection.old connection.new) }
{
    match connection {
        Some(conn) => drop_kept(conn, number),
        None => Err(KeepFault::Failed),
    }
}

/// The kept row of a number, if there is one.
pub(crate) fn find_in<S: Alter>(
    alloc: Global,
    connection: &mut Option<Connection<S>>,
    number: u64,
) -> Result<Option<KeptRow>, KeepFault>
    requires number { number < 10 ^ 12 }
    requires settled { IsSettled S.Store connection.old }
    ensures settled { IsSettled S.Store connection.new }
    ensures there { OnOk result (IsSome connection.new) }
    ensures same { Passes S.Store Same connection.old connection.new }
    ensures finds { IfOk result (λ found. Passes S.Store (λ before after. Same before after × Finds number found before) connection.old connection.new) }
{
    match connection {
        Some(conn) => row_of(alloc, conn, number),
        None => Err(KeepFault::Failed),
    }
}

/// Every row of the table.
pub(crate) fn list_in<S: Alter>(
    alloc: Global,
    connection: &mut Option<Connection<S>>,
) -> Result<Vec<KeptRow>, KeepFault>
    requires settled { IsSettled S.Store connection.old }
    ensures settled { IsSettled S.Store connection.new }
    ensures there { OnOk result (IsSome connection.new) }
    ensures lists { IfOk result (λ rows. Passes S.Store (λ before after. Same before after × Lists rows.items before) connection.old connection.new) }
{
    match connection {
        Some(conn) => list(alloc, conn),
        None => Err(KeepFault::Failed),
    }
}
