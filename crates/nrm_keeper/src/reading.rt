//! Kept rows as they are read from the rows of an answer.
ghost use Rattle.std.specs.Prelude.{◌≡◌, map, IfOk};
ghost use Rattle.sqlite.specs.Order.{column};
ghost use Rattle.sqlite.specs.Value.{owned};
ghost use Rattle.nrm_keeper.specs.Stored.{whole, product_in, party_in, kept_of};
ghost use Rattle.nrm_keeper.specs.Inner.Table.{shown, front};

use crate::{KeepFault, KeptRow};
use nrm_text::{Name, name_of};
use sqlite::Row;
use sqlite::types::ValueRef;
use std::alloc::Global;

// A number that is at least 0.
fn whole(value: ValueRef<'_>) -> Option<u64>
    ensures { result ≡ whole (owned value.entry) }
{
    match value {
        ValueRef::Int(number) => u64::try_from(number).ok(),
        _ => None,
    }
}

// A text that is a name.
fn product_in(value: ValueRef<'_>) -> Option<Name>
    ensures { result ≡ product_in (owned value.entry) }
{
    match value {
        ValueRef::Text(bytes) => name_of(bytes),
        _ => None,
    }
}

// A number from 0 to 65,535.
fn party_in(value: ValueRef<'_>) -> Option<u16>
    ensures { result ≡ party_in (owned value.entry) }
{
    match whole(value) {
        Some(party) if party < 65536 => Some(party as u16),
        _ => None,
    }
}

// The value of a column, and NULL past the last.
fn value_at(row: &Row, at: usize) -> ValueRef<'_>
    ensures { owned result ≡ column row.now at }
{
    match row.get_ref(at) {
        Ok(value) => value,
        Err(_) => ValueRef::Null,
    }
}

// The kept row that a row of an answer is, if it is one.
fn read_row(row: &Row) -> Option<KeptRow>
    ensures { result ≡ kept_of (column row.now 0) (column row.now 1) (column row.now 2) }
{
    let number = whole(value_at(row, 0))?;
    let product = product_in(value_at(row, 1))?;
    let party = party_in(value_at(row, 2))?;
    Some(KeptRow {
        number,
        product,
        party,
    })
}

/// The kept rows that the rows of an answer are.
///
/// # Errors
/// `Failed` if one of them is no kept row, `NoMemory` if memory ran out.
pub(crate) fn read_rows(alloc: Global, found: &[Row]) -> Result<Vec<KeptRow>, KeepFault>
    ensures { IfOk result (λ list. map shown list.items ≡ map front found.now) }
{
    let mut rows = Vec::new(alloc);
    for row in found {
        let Some(kept) = read_row(row) else {
            return Err(KeepFault::Failed);
        };
        if rows.push(kept).is_err() {
            return Err(KeepFault::NoMemory);
        }
    }
    Ok(rows)
}
