//! The four fixed texts, each in a function of its own. Over a store that is clean and open, and in no transaction, each
//! says what it does to the rows that are told. A store that is clean and open afterwards was so before.
ghost use Rattle.std.specs.Prelude.{◌≡◌, ◌==◌, pos, ◌<◌, ◌^◌, false, filter, map, Some, IfOk, OnOk, OnErr};
ghost use Rattle.sqlite.specs.Held.{state};
ghost use Rattle.sqlite.specs.Value.{owned};
ghost use Rattle.nrm_keeper.specs.Rows.{Adds, Drops};
ghost use Rattle.nrm_keeper.specs.Stored.{told};
ghost use Rattle.nrm_keeper.specs.Inner.Table.{shown, HoldsSome};
ghost use Rattle.nrm_keeper.specs.Steady.{IsSteady};
ghost use Rattle.nrm_keeper.specs.Inner.Statements.{Speaks};

use crate::KeptRow;
use nrm_text::Name;
use sqlite::types::{Value, ValueRef};
use sqlite::{Alter, Connection, Error, Row};

// A number, a product and a party as parameters.
fn number_value<'a>(number: u64) -> ValueRef<'a>
    requires { number < 10 ^ 12 }
    ensures { owned result ≡ Value.Int (pos number) }
{
    ValueRef::Int(number as i64)
}

fn product_value(product: &Name) -> ValueRef<'_>
    ensures { owned result ≡ Value.Text product.now }
{
    ValueRef::Text(product.bytes())
}

fn party_value<'a>(party: u16) -> ValueRef<'a>
    ensures { owned result ≡ Value.Int (pos party) }
{
    ValueRef::Int(i64::from(party))
}

/// Makes the table, if it isn't there.
pub(crate) fn create_table<S: Alter>(conn: &mut Connection<S>) -> Result<usize, Error>
    ensures tells { Speaks (state S.Store conn.old) (state S.Store conn.new) →
        told (state S.Store conn.new).now ≡ told (state S.Store conn.old).now }
    ensures holds { Speaks (state S.Store conn.old) (state S.Store conn.new) →
        OnOk result (HoldsSome (state S.Store conn.new).now) }
    ensures ends { Speaks (state S.Store conn.old) (state S.Store conn.new) → conn.new.in_transaction ≡ false }
    ensures was { IsSteady (state S.Store conn.new) → IsSteady (state S.Store conn.old) }
{
    let _settled = conn.is_autocommit();
    conn.execute(
        "CREATE TABLE IF NOT EXISTS kept (number INTEGER PRIMARY KEY, product TEXT NOT NULL, party INTEGER NOT NULL) STRICT",
        &[],
    )
}

/// Puts a row into the table.
pub(crate) fn insert_row<S: Alter>(conn: &mut Connection<S>, row: &KeptRow) -> Result<usize, Error>
    requires { row.now.number < 10 ^ 12 }
    ensures adds { Speaks (state S.Store conn.old) (state S.Store conn.new) →
        HoldsSome (state S.Store conn.old).now →
        OnOk result (Adds row.now (told (state S.Store conn.old).now) (told (state S.Store conn.new).now)) }
    ensures unchanged { Speaks (state S.Store conn.old) (state S.Store conn.new) →
        OnErr result (told (state S.Store conn.new).now ≡ told (state S.Store conn.old).now) }
    ensures ends { Speaks (state S.Store conn.old) (state S.Store conn.new) → conn.new.in_transaction ≡ false }
    ensures was { IsSteady (state S.Store conn.new) → IsSteady (state S.Store conn.old) }
{
    let _settled = conn.is_autocommit();
    let party = row.party;
    // For its clause alone: the product is a name.
    let _name = row.product.bytes();
    conn.execute(
        "INSERT INTO kept (number, product, party) VALUES (?1, ?2, ?3)",
        &[
            number_value(row.number),
            product_value(&row.product),
            party_value(party),
        ],
    )
}

/// Takes the row of a number out of the table, and answers how many rows went.
pub(crate) fn delete_row<S: Alter>(conn: &mut Connection<S>, number: u64) -> Result<usize, Error>
    requires { number < 10 ^ 12 }
    ensures drops { Speaks (state S.Store conn.old) (state S.Store conn.new) →
        HoldsSome (state S.Store conn.old).now →
        OnOk result (Drops number (told (state S.Store conn.old).now) (told (state S.Store conn.new).now)) }
    ensures none { Speaks (state S.Store conn.old) (state S.Store conn.new) →
        result ≡ Ok 0 → told (state S.Store conn.new).now ≡ told (state S.Store conn.old).now }
    ensures unchanged { Speaks (state S.Store conn.old) (state S.Store conn.new) →
        OnErr result (told (state S.Store conn.new).now ≡ told (state S.Store conn.old).now) }
    ensures ends { Speaks (state S.Store conn.old) (state S.Store conn.new) → conn.new.in_transaction ≡ false }
    ensures was { IsSteady (state S.Store conn.new) → IsSteady (state S.Store conn.old) }
{
    let _settled = conn.is_autocommit();
    conn.execute(
        "DELETE FROM kept WHERE number = ?1",
        &[number_value(number)],
    )
}

/// Every row of the table, by rising number.
pub(crate) fn select_rows<S: Alter>(conn: &mut Connection<S>) -> Result<Vec<Row>, Error>
    ensures tells { Speaks (state S.Store conn.old) (state S.Store conn.new) →
        told (state S.Store conn.new).now ≡ told (state S.Store conn.old).now }
    ensures lists { Speaks (state S.Store conn.old) (state S.Store conn.new) →
        HoldsSome (state S.Store conn.old).now →
        IfOk result (λ found. (rows : _) → told (state S.Store conn.old).now ≡ Some rows → found.items ≡ map shown rows) }
    ensures ends { Speaks (state S.Store conn.old) (state S.Store conn.new) → conn.new.in_transaction ≡ false }
    ensures was { IsSteady (state S.Store conn.new) → IsSteady (state S.Store conn.old) }
{
    let _settled = conn.is_autocommit();
    conn.query_all(
        "SELECT number, product, party FROM kept ORDER BY number",
        &[],
    )
}

/// The rows of a number.
pub(crate) fn find_row<S: Alter>(conn: &mut Connection<S>, number: u64) -> Result<Vec<Row>, Error>
    requires { number < 10 ^ 12 }
    ensures finds { Speaks (state S.Store conn.old) (state S.Store conn.new) →
        HoldsSome (state S.Store conn.old).now →
        IfOk result (λ found. (rows : _) → told (state S.Store conn.old).now ≡ Some rows
        → found.items ≡ map shown (filter (λ row. row.number == number) rows)) }
    ensures tells { Speaks (state S.Store conn.old) (state S.Store conn.new) →
        told (state S.Store conn.new).now ≡ told (state S.Store conn.old).now }
    ensures ends { Speaks (state S.Store conn.old) (state S.Store conn.new) → conn.new.in_transaction ≡ false }
    ensures was { IsSteady (state S.Store conn.new) → IsSteady (state S.Store conn.old) }
{
    let _settled = conn.is_autocommit();
    conn.query_all(
        "SELECT number, product, party FROM kept WHERE number = ?1",
        &[number_value(number)],
    )
}
