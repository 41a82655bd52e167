//! What no clause tells: that the calls succeed with ample memory, what the store keeps, and what a file does. And what each keeper
//! tells through its trait alone: one that tells or shows no rows, that is never trusted, or whose count stands, is refused here.
ghost use Rattle.std.specs.Prelude.{◌≡◌, ◌<◌, ◌^◌, [], ◌∷◌, Some, IfOk, OnOk, OnErr};
ghost use Rattle.nrm_edge.specs.Causes.{counted};
ghost use Rattle.nrm_keeper.specs.File.{IsTrusted, shown_in};
ghost use Rattle.nrm_keeper.specs.Rows.{Adds, has_failed, told_if_rising};

use nrm_keeper::{
    Beginning, FileKeeper, KeepFault, Keeper, KeptRow, MemKeeper, Opener, PathOpener, SqlKeeper,
    StoreKeeper,
};
use nrm_text::{Name, name_of};
use sqlite::{Alter, Connection, FileFrom, FileStore, Unknown};
use std::alloc::{AllocError, Global};
use std::rt::HostRuntime;
use std::test::Fail;
use std::{env, fs};

// The number, the product and the party of a row.
type Line<'a> = (u16, &'a [u8], u16);

// The first row of each run.
const ONE: Line<'static> = (1, b"THRU", 2);

fn named(bytes: &[u8]) -> Result<Name, Fail> {
    match name_of(bytes) {
        Some(name) => Ok(name),
        None => Err(Fail::from("no name")),
    }
}

fn row(line: Line<'_>) -> Result<KeptRow, Fail>
    ensures { IfOk result (λ row. row.number < 10 ^ 12) }
{
    Ok(KeptRow {
        number: u64::from(line.0),
        product: named(line.1)?,
        party: line.2,
    })
}

fn keeps<P: Keeper>(keeper: &mut P, alloc: Global, wanted: &[Line<'_>]) -> bool {
    let Ok(rows) = keeper.all(alloc) else {
        return false;
    };
    if rows.len() != wanted.len() {
        return false;
    }
    for (row, want) in rows.iter().zip(wanted) {
        if row.number != u64::from(want.0) || row.product.bytes() != want.1 || row.party != want.2 {
            return false;
        }
    }
    true
}

// Whether a call is done, and leaves the rows that it should.
fn adds<P: Keeper>(
    keeper: &mut P,
    alloc: Global,
    line: Line<'_>,
    wanted: &[Line<'_>],
) -> Result<bool, Fail> {
    Ok(keeper.add(alloc, row(line)?).is_ok() && keeps(keeper, alloc, wanted))
}

fn drops<P: Keeper>(keeper: &mut P, alloc: Global, number: u16, wanted: &[Line<'_>]) -> bool {
    keeper.drop_row(alloc, u64::from(number)).is_ok() && keeps(keeper, alloc, wanted)
}

// The same calls and answers over each keeper.
fn first_run<P: Keeper>(keeper: &mut P, alloc: Global) -> Result<bool, Fail> {
    let two = (2, b"LOC".as_slice(), 1);
    let five = (5, b"THRU".as_slice(), 65535);
    Ok(
        keeps(keeper, alloc, &[])
            && adds(keeper, alloc, ONE, &[ONE])?
            && adds(keeper, alloc, two, &[ONE, two])?
            && adds(keeper, alloc, five, &[ONE, two, five])?
            && drops(keeper, alloc, 2, &[ONE, five])
            && drops(keeper, alloc, 1, &[five]),
    )
}

fn second_run<P: Keeper>(keeper: &mut P, alloc: Global) -> Result<bool, Fail> {
    let five = (5, b"THRU".as_slice(), 65535);
    let six = (6, b"LOC".as_slice(), 1);
    Ok(
        keeps(keeper, alloc, &[five])
            && adds(keeper, alloc, six, &[five, six])?
            && drops(keeper, alloc, 5, &[six]),
    )
}

// A new store tells the empty list, and a row that was added to it.
fn new_keeper(alloc: Global) -> Result<SqlKeeper, AllocError>
    ensures { IfOk result (λ keeper. keeper.rows ≡ Some []) }
{
    let connection = Connection::open_in_memory(alloc)?;
    Ok(SqlKeeper::over(connection))
}

fn with_row(alloc: Global, row: KeptRow) -> Result<SqlKeeper, KeepFault>
    requires { row.number < 10 ^ 12 }
    ensures { IfOk result (λ keeper. keeper.rows ≡ Some (row ∷ [])) }
{
    let Ok(mut keeper) = new_keeper(alloc) else {
        return Err(KeepFault::NoMemory);
    };
    keeper.add(alloc, row)?;
    Ok(keeper)
}

// Adds a row to any keeper: what it tells of its rows, and what it shows of them and counts.
fn add_told<P: Keeper>(keeper: &mut P, alloc: Global, row: KeptRow) -> Result<(), KeepFault>
    requires { row.number < 10 ^ 12 }
    ensures added { OnOk result (Adds row (P.rows keeper.old) (P.rows keeper.new)) }
    ensures same { OnErr result (P.rows keeper.new ≡ P.rows keeper.old) }
{
    keeper.add(alloc, row)
}

fn add_shown<P: Keeper>(keeper: &mut P, alloc: Global, row: KeptRow) -> Result<(), KeepFault>
    requires { row.number < 10 ^ 12 }
    ensures shows { P.trusted keeper.new → P.trusted keeper.old × OnOk result (Adds row (P.shown keeper.old) (P.shown keeper.new))
        × OnErr result (P.shown keeper.new ≡ P.shown keeper.old) }
    ensures counts { P.faults keeper.new ≡ counted (has_failed result) (P.faults keeper.old) }
{
    keeper.add(alloc, row)
}

// The same of each keeper: of a file that is trusted, and of rows in memory outright.
fn add_shown_in_store<T: Alter + Drop, O: Opener<T>>(
    keeper: &mut StoreKeeper<T, O>,
    alloc: Global,
    row: KeptRow,
) -> Result<(), KeepFault>
    requires { row.number < 10 ^ 12 }
    ensures trusted { IsTrusted keeper.new → IsTrusted keeper.old }
    ensures added { IsTrusted keeper.new → OnOk result (Adds row (shown_in O.first keeper.old) (shown_in O.first keeper.new)) }
    ensures same { IsTrusted keeper.new → OnErr result (shown_in O.first keeper.new ≡ shown_in O.first keeper.old) }
    ensures counts { keeper.new.faults ≡ counted (has_failed result) keeper.old.faults }
{
    add_shown(keeper, alloc, row)
}

fn add_shown_in_table(keeper: &mut SqlKeeper, alloc: Global, row: KeptRow) -> Result<(), KeepFault>
    requires { row.number < 10 ^ 12 }
    ensures added { OnOk result (Adds row keeper.old.rows keeper.new.rows) }
    ensures same { OnErr result (keeper.new.rows ≡ keeper.old.rows) }
    ensures counts { keeper.new.faults ≡ counted (has_failed result) keeper.old.faults }
{
    add_shown(keeper, alloc, row)
}

fn add_shown_in_memory(keeper: &mut MemKeeper, alloc: Global, row: KeptRow) -> Result<(), KeepFault>
    requires { row.number < 10 ^ 12 }
    ensures added { OnOk result (Adds row (told_if_rising keeper.old.rows) (told_if_rising keeper.new.rows)) }
    ensures same { OnErr result (told_if_rising keeper.new.rows ≡ told_if_rising keeper.old.rows) }
    ensures counts { keeper.new.faults ≡ counted (has_failed result) keeper.old.faults }
{
    add_shown(keeper, alloc, row)
}

fn add_told_in_memory(keeper: &mut MemKeeper, alloc: Global, row: KeptRow) -> Result<(), KeepFault>
    requires { row.number < 10 ^ 12 }
    ensures added { OnOk result (Adds row (told_if_rising keeper.old.rows) (told_if_rising keeper.new.rows)) }
    ensures same { OnErr result (told_if_rising keeper.new.rows ≡ told_if_rising keeper.old.rows) }
{
    add_told(keeper, alloc, row)
}

// Opens a store: what any opener counts, and the opener of a path.
fn open_counted<T: Alter + Drop, O: Opener<T>>(opener: &mut O) -> Result<(), KeepFault>
    ensures { O.faults opener.new ≡ counted (has_failed result) (O.faults opener.old) }
{
    match opener.open() {
        Ok(_) => Ok(()),
        Err(fault) => Err(fault),
    }
}

fn open_path<S: Beginning>(opener: &mut PathOpener<'_, S>) -> Result<(), KeepFault>
    ensures { opener.new.faults ≡ counted (has_failed result) opener.old.faults }
{
    open_counted::<FileStore<FileFrom<S>>, PathOpener<'_, S>>(opener)
}

// A keeper of a file is trusted before it is opened, and shows the rows that are assumed.
fn new_in_file<'a, S: Beginning>(rt: &'a HostRuntime, path: &'a str) -> FileKeeper<'a, S>
    ensures trusted { IsTrusted result }
    ensures shows { shown_in S.rows result ≡ S.rows }
{
    FileKeeper::new(rt, path)
}

#[test]
fn rows_are_kept_in_memory(rt: HostRuntime) -> Result<(), Fail> {
    let mut keeper = MemKeeper::new(Vec::new(rt.alloc()), Vec::new(rt.alloc()));
    assert!(rt; first_run(&mut keeper, rt.alloc())?);
    assert!(rt; second_run(&mut keeper, rt.alloc())?);
    assert!(rt;
        keeper.drop_row(rt.alloc(), 9).is_ok(),
        "no row has the number"
    );
    Ok(())
}

#[test]
fn the_third_call_fails(rt: HostRuntime) -> Result<(), Fail> {
    let failing = Vec::from_array(rt.alloc(), [3])?;
    let mut keeper = MemKeeper::new(Vec::new(rt.alloc()), failing);
    assert!(rt; keeps(&mut keeper, rt.alloc(), &[]));
    assert!(rt; add_told_in_memory(&mut keeper, rt.alloc(), row((1, b"THRU", 2))?).is_ok());
    assert!(rt;
        matches!(
            add_shown_in_memory(&mut keeper, rt.alloc(), row((2, b"LOC", 1))?),
            Err(KeepFault::Failed)
        )
    );
    assert!(rt; keeps(&mut keeper, rt.alloc(), &[(1, b"THRU", 2)]));
    Ok(())
}

#[test]
fn rows_are_kept_in_a_table(rt: HostRuntime) -> Result<(), Fail> {
    let mut keeper = new_keeper(rt.alloc())?;
    assert!(rt; first_run(&mut keeper, rt.alloc())?);
    assert!(rt; second_run(&mut keeper, rt.alloc())?);
    assert!(rt;
        matches!(keeper.drop_row(rt.alloc(), 9), Err(KeepFault::Failed)),
        "no row has the number"
    );
    Ok(())
}

#[test]
fn a_row_is_added_before_any_other_call(rt: HostRuntime) -> Result<(), Fail> {
    let Ok(mut keeper) = with_row(rt.alloc(), row((2, b"LOC", 1))?) else {
        return Err(Fail::from("not added"));
    };
    assert!(rt; add_shown_in_table(&mut keeper, rt.alloc(), row((3, b"LOC", 2))?).is_ok());
    assert!(rt; keeps(&mut keeper, rt.alloc(), &[(2, b"LOC", 1), (3, b"LOC", 2)]));
    Ok(())
}

#[test]
fn a_row_that_is_no_kept_row_is_a_fault(rt: HostRuntime) -> Result<(), Fail> {
    let mut connection = Connection::open_in_memory(rt.alloc())?;
    let made = connection.execute(
        "CREATE TABLE kept (number INTEGER PRIMARY KEY, product TEXT NOT NULL, party INTEGER NOT NULL) STRICT",
        &[],
    );
    assert!(rt; made.is_ok());
    assert!(rt;
        connection
            .execute("INSERT INTO kept VALUES (1, 'none', 1)", &[])
            .is_ok()
    );
    if !connection.is_autocommit() {
        return Err(Fail::from("a transaction"));
    }
    let mut keeper = SqlKeeper::over(connection);
    assert!(rt; matches!(keeper.all(rt.alloc()), Err(KeepFault::Failed)));
    Ok(())
}

// A new folder, and the names of a store in it and of its log.
#[derive(Drop)]
struct Place {
    folder: String,
    store: String,
    log: String,
}

fn new_place(rt: &HostRuntime, name: &str) -> Result<Place, Fail> {
    let temp = env::temp_dir(rt)?;
    let temp = temp.as_path().to_str().ok_or("a folder that is text")?;
    let folder = format!(in rt.alloc(); "{temp}/{name}")?;
    let store = format!(in rt.alloc(); "{folder}/store")?;
    let log = format!(in rt.alloc(); "{store}-wal")?;
    let _ = fs::remove_dir_all(rt, &folder);
    fs::create_dir(rt, &folder)?;
    Ok(Place { folder, store, log })
}

fn holds(so: bool, what: &'static str) -> Result<(), Fail> {
    if so { Ok(()) } else { Err(Fail::from(what)) }
}

// A call that fails, and after which a keeper of a file lets its connection go: no row has the number.
fn lets_go<P: Keeper>(keeper: &mut P, alloc: Global) -> Result<(), Fail> {
    holds(
        matches!(keeper.drop_row(alloc, 9), Err(KeepFault::Failed)),
        "no row has the number",
    )
}

fn goes_on<P: Keeper>(keeper: &mut P, alloc: Global) -> Result<(), Fail> {
    holds(second_run(keeper, alloc)?, "the second run")?;
    lets_go(keeper, alloc)?;
    holds(
        keeper.all(alloc).is_ok(),
        "after a failed call the file is opened again",
    )
}

fn opened_late<P: Keeper>(keeper: &mut P, rt: &HostRuntime, folder: &str) -> Result<(), Fail> {
    holds(
        matches!(keeper.all(rt.alloc()), Err(KeepFault::Failed)),
        "there is no folder",
    )?;
    fs::create_dir(rt, folder)?;
    holds(keeps(keeper, rt.alloc(), &[]), "now there is one")
}

fn gone_and_back<P: Keeper>(keeper: &mut P, rt: &HostRuntime, place: &Place) -> Result<(), Fail> {
    let away = format!(in rt.alloc(); "{}-away", place.store)?;
    holds(adds(keeper, rt.alloc(), ONE, &[ONE])?, "a row is added")?;
    lets_go(keeper, rt.alloc())?;
    fs::rename(rt, &place.store, &away)?;
    holds(keeper.all(rt.alloc()).is_err(), "the file is gone")?;
    holds(fs::metadata(rt, &place.store).is_err(), "nothing is made")?;
    fs::write(rt, &place.store, b"".as_slice())?;
    holds(keeper.all(rt.alloc()).is_err(), "another file")?;
    holds(fs::metadata(rt, &place.store)?.len() == 0, "it stays empty")?;
    fs::rename(rt, &away, &place.store)?;
    holds(keeps(keeper, rt.alloc(), &[ONE]), "the file is back")
}

// What is done to a keeper of a file, which is then let go.
#[derive(Clone, Copy)]
enum Work<'a> {
    FirstRun,
    GoesOn,
    Keeps(&'a [Line<'a>]),
    OpenedLate(&'a str),
    GoneAndBack(&'a Place),
    ListsWithoutEnd,
}

fn done<P: Keeper>(work: Work<'_>, keeper: &mut P, rt: &HostRuntime) -> Result<(), Fail> {
    match work {
        Work::FirstRun => holds(first_run(keeper, rt.alloc())?, "the first run"),
        Work::GoesOn => goes_on(keeper, rt.alloc()),
        Work::Keeps(rows) => holds(keeps(keeper, rt.alloc(), rows), "the rows are there"),
        Work::OpenedLate(folder) => opened_late(keeper, rt, folder),
        Work::GoneAndBack(place) => gone_and_back(keeper, rt, place),
        Work::ListsWithoutEnd => holds(
            matches!(keeper.all(rt.alloc()), Err(KeepFault::Failed)),
            "a listing without end",
        ),
    }
}

// That a type is a keeper of a file is long to prove in each function, so the work is told, and done at one place.
fn in_file<S: Beginning>(rt: &HostRuntime, path: &str, work: Work<'_>) -> Result<(), Fail> {
    done(work, &mut FileKeeper::<S>::new(rt, path), rt)
}

#[test]
fn rows_are_kept_in_a_file(rt: HostRuntime) -> Result<(), Fail> {
    let place = new_place(&rt, "nrm_keeper_rows")?;
    in_file::<Unknown>(&rt, &place.store, Work::FirstRun)?;
    in_file::<Unknown>(&rt, &place.store, Work::GoesOn)?;
    fs::remove_dir_all(&rt, &place.folder)?;
    Ok(())
}

#[test]
fn a_file_that_cannot_be_opened_is_a_fault(rt: HostRuntime) -> Result<(), Fail> {
    let place = new_place(&rt, "nrm_keeper_folder")?;
    let beyond = format!(in rt.alloc(); "{}/store", place.store)?;
    in_file::<Unknown>(&rt, &beyond, Work::OpenedLate(&place.store))?;
    fs::remove_dir_all(&rt, &place.folder)?;
    Ok(())
}

fn first_has_it<P: Keeper>(first: &mut P, second: &mut P, alloc: Global) -> Result<(), Fail> {
    holds(adds(first, alloc, ONE, &[ONE])?, "a row is added")?;
    lets_go(first, alloc)?;
    holds(
        matches!(second.all(alloc), Err(KeepFault::Failed)),
        "the first has the store, though it has let its connection go",
    )?;
    holds(keeps(first, alloc, &[ONE]), "the first goes on")
}

fn two_keepers<S: Beginning>(rt: &HostRuntime, place: &Place) -> Result<(), Fail> {
    let mut first = FileKeeper::<S>::new(rt, &place.store);
    let mut second = FileKeeper::<S>::new(rt, &place.store);
    let told = first_has_it(&mut first, &mut second, rt.alloc());
    let is_closed = first.close(rt.alloc()).is_ok();
    let has_it = keeps(&mut second, rt.alloc(), &[ONE]);
    told?;
    holds(is_closed, "the first is closed")?;
    holds(has_it, "the second has it")
}

#[test]
fn a_store_belongs_to_one_keeper_until_it_is_closed(rt: HostRuntime) -> Result<(), Fail> {
    let place = new_place(&rt, "nrm_keeper_owner")?;
    two_keepers::<Unknown>(&rt, &place)?;
    fs::remove_dir_all(&rt, &place.folder)?;
    Ok(())
}

#[test]
fn a_store_that_is_gone_is_not_made_again(rt: HostRuntime) -> Result<(), Fail> {
    let place = new_place(&rt, "nrm_keeper_gone")?;
    in_file::<Unknown>(&rt, &place.store, Work::GoneAndBack(&place))?;
    fs::remove_dir_all(&rt, &place.folder)?;
    Ok(())
}

fn added_and_closed<S: Beginning>(rt: &HostRuntime, path: &str) -> Result<(), Fail> {
    let one = row(ONE)?;
    let mut keeper = new_in_file::<S>(rt, path);
    let is_added = add_shown_in_store(&mut keeper, rt.alloc(), one).is_ok();
    let is_closed = keeper.close(rt.alloc()).is_ok();
    holds(is_added, "a row is added")?;
    holds(is_closed, "it is closed")
}

// A path without its folder is a fault of each opening, and then it can be opened.
fn path_opened_late<S: Beginning>(rt: &HostRuntime, place: &Place) -> Result<(), Fail> {
    let beyond = format!(in rt.alloc(); "{}/store", place.store)?;
    let mut opener = PathOpener::<S>::new(rt, &beyond);
    holds(open_path(&mut opener).is_err(), "there is no folder")?;
    fs::create_dir(rt, &place.store)?;
    holds(open_path(&mut opener).is_ok(), "now there is one")
}

#[test]
fn an_opener_may_succeed_after_a_fault(rt: HostRuntime) -> Result<(), Fail> {
    let place = new_place(&rt, "nrm_keeper_opener")?;
    path_opened_late::<Unknown>(&rt, &place)?;
    fs::remove_dir_all(&rt, &place.folder)?;
    Ok(())
}

#[test]
fn a_closed_store_needs_no_log(rt: HostRuntime) -> Result<(), Fail> {
    let place = new_place(&rt, "nrm_keeper_closed")?;
    added_and_closed::<Unknown>(&rt, &place.store)?;
    fs::remove_file(&rt, &place.log)?;
    in_file::<Unknown>(&rt, &place.store, Work::Keeps(&[ONE]))?;
    fs::remove_dir_all(&rt, &place.folder)?;
    Ok(())
}

// A view `kept` that has no end.
const ENDLESS: &str =
    "CREATE VIEW kept AS WITH RECURSIVE c(n) AS (SELECT 1 UNION ALL SELECT n + 1 FROM c)
    SELECT n AS number, 'LOC' AS product, 1 AS party FROM c";

#[test]
fn a_listing_without_end_is_a_fault(rt: HostRuntime) -> Result<(), Fail> {
    let place = new_place(&rt, "nrm_keeper_endless")?;
    let mut connection = Connection::open(&rt, &place.store)?;
    assert!(rt; connection.execute(ENDLESS, &[]).is_ok());
    drop(connection);
    in_file::<Unknown>(&rt, &place.store, Work::ListsWithoutEnd)?;
    fs::remove_dir_all(&rt, &place.folder)?;
    Ok(())
}
