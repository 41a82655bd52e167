//! The three calls of a keeper on the table `kept`, over any store of `sqlite`. Each makes the table first, if it isn't
//! there. Over a store that is clean and open, and in no transaction, each says what it does to the rows that are told.
ghost use Rattle.std.specs.Prelude.{◌≡◌, ◌<◌, ◌^◌, false, IfOk, OnOk, OnErr};
ghost use Rattle.sqlite.specs.Held.{state};
ghost use Rattle.nrm_keeper.specs.Rows.{Adds, Drops, Finds, Lists};
ghost use Rattle.nrm_keeper.specs.Stored.{told};
ghost use Rattle.nrm_keeper.specs.Steady.{IsSteady};
ghost use Rattle.nrm_keeper.specs.Inner.Statements.{Speaks};

use crate::causes::{added_by, dropped_by, fault_of};
use crate::reading::read_rows;
use crate::statements::{create_table, delete_row, find_row, insert_row, select_rows};
use crate::{KeepFault, KeptRow};
use sqlite::{Alter, Connection};
use std::alloc::Global;

/// Keeps a row in the table.
pub(crate) fn keep<S: Alter>(conn: &mut Connection<S>, row: &KeptRow) -> Result<(), KeepFault>
    requires { row.now.number < 10 ^ 12 }
    ensures adds { Speaks (state S.Store conn.old) (state S.Store conn.new) →
        OnOk result (Adds row.now (told (state S.Store conn.old).now) (told (state S.Store conn.new).now)) }
    ensures unchanged { Speaks (state S.Store conn.old) (state S.Store conn.new) →
        OnErr result (told (state S.Store conn.new).now ≡ told (state S.Store conn.old).now) }
    ensures ends { Speaks (state S.Store conn.old) (state S.Store conn.new) → conn.new.in_transaction ≡ false }
    ensures was { IsSteady (state S.Store conn.new) → IsSteady (state S.Store conn.old) }
{
    match create_table(conn) {
        Ok(_) => added_by(insert_row(conn, row)),
        Err(error) => Err(fault_of(error)),
    }
}

/// Drops the row of a number from the table. It is a fault if no row has the number.
pub(crate) fn drop_kept<S: Alter>(conn: &mut Connection<S>, number: u64) -> Result<(), KeepFault>
    requires { number < 10 ^ 12 }
    ensures drops { Speaks (state S.Store conn.old) (state S.Store conn.new) →
        OnOk result (Drops number (told (state S.Store conn.old).now) (told (state S.Store conn.new).now)) }
    ensures unchanged { Speaks (state S.Store conn.old) (state S.Store conn.new) →
        OnErr result (told (state S.Store conn.new).now ≡ told (state S.Store conn.old).now) }
    ensures ends { Speaks (state S.Store conn.old) (state S.Store conn.new) → conn.new.in_transaction ≡ false }
    ensures was { IsSteady (state S.Store conn.new) → IsSteady (state S.Store conn.old) }
{
    match create_table(conn) {
        Ok(_) => dropped_by(delete_row(conn, number)),
        Err(error) => Err(fault_of(error)),
    }
}

/// Every row of the table, by rising number. It is a fault if one of them is no kept row.
pub(crate) fn list<S: Alter>(
    alloc: Global,
    conn: &mut Connection<S>,
) -> Result<Vec<KeptRow>, KeepFault>
    ensures lists { Speaks (state S.Store conn.old) (state S.Store conn.new) →
        IfOk result (λ rows. Lists rows.items (told (state S.Store conn.old).now)) }
    ensures tells { Speaks (state S.Store conn.old) (state S.Store conn.new) →
        told (state S.Store conn.new).now ≡ told (state S.Store conn.old).now }
    ensures ends { Speaks (state S.Store conn.old) (state S.Store conn.new) → conn.new.in_transaction ≡ false }
    ensures was { IsSteady (state S.Store conn.new) → IsSteady (state S.Store conn.old) }
{
    let found = match create_table(conn) {
        Ok(_) => select_rows(conn),
        Err(error) => Err(error),
    };
    match found {
        Ok(found) => read_rows(alloc, &found),
        Err(error) => Err(fault_of(error)),
    }
}

/// The kept row of a number, if there is one. It is a fault if what is found is no kept row.
pub(crate) fn row_of<S: Alter>(
    alloc: Global,
    conn: &mut Connection<S>,
    number: u64,
) -> Result<Option<KeptRow>, KeepFault>
    requires { number < 10 ^ 12 }
    ensures finds { Speaks (state S.Store conn.old) (state S.Store conn.new) →
        IfOk result (λ found. Finds number found (told (state S.Store conn.old).now)) }
    ensures tells { Speaks (state S.Store conn.old) (state S.Store conn.new) →
        told (state S.Store conn.new).now ≡ told (state S.Store conn.old).now }
    ensures ends { Speaks (state S.Store conn.old) (state S.Store conn.new) → conn.new.in_transaction ≡ false }
    ensures was { IsSteady (state S.Store conn.new) → IsSteady (state S.Store conn.old) }
{
    let found = match create_table(conn) {
        Ok(_) => find_row(conn, number),
        Err(error) => Err(error),
    };
    match found {
        Ok(found) => match read_rows(alloc, &found) {
            Ok(rows) => Ok(rows.first().copied()),
            Err(fault) => Err(fault),
        },
        Err(error) => Err(fault_of(error)),
    }
}
