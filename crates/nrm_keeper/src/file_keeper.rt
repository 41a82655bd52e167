//! A keeper over a file of `sqlite`: what opens it, a connection, if one is open, and a count of faults. A call opens the
//! file if it is not open. A change that failed may be in the file all the same, as when what was written could not be flushed: then the
//! connection is let go, and the change is undone as soon as the file can be opened again. What the file tells is said as long
//! as it is the one that was first opened, and is clean.
ghost use Rattle.std.specs.Prelude.{◌≡◌, ◌<◌, ◌^◌, None, Some, IfOk, OnOk, OnErr, IfSome, IsSome};
ghost use Rattle.nrm_edge.specs.Causes.{counted};
ghost use Rattle.nrm_keeper.specs.Rows.{has_failed};
ghost use Rattle.nrm_keeper.specs.Steady.{IsSettled};
ghost use Rattle.nrm_keeper.specs.Passes.{Passes, TellsRows};
ghost use Rattle.nrm_keeper.specs.Undoing.{Undoes, UndoesFound};

use crate::causes::{fault_of, raised};
use crate::opener::{Beginning, Opener, PathOpener};
use crate::shut::{drop_in, find_in, keep_in, list_in};
use crate::{Doubt, KeepFault, Keeper, KeptRow};
use sqlite::{Alter, Connection, FileFrom, FileStore};
use std::alloc::Global;
use std::marker::Model;
use std::rt::HostRuntime;

/// Rows in a table of a file, and a count of faults. A fault is a file that can't be opened, a statement that is refused
/// for another cause than memory, a DELETE that removes no row, or a row of the table that is no kept row. After a call
/// that failed otherwise than by a refused change the next one opens the file again, which is then no longer the one that
/// was told (`is_lost`). What a change that failed may have left in the file is undone before anything else.
///
/// It tells no rows outright, and shows those of the file. They are the file's as far as it is trusted: it held the rows of
/// `first` as it was first opened, nobody else wrote it since, it returned what was written, and it was never let go.
#[derive(Drop)]
pub struct StoreKeeper<T: Alter + Drop, O: Opener<T>> {
    opener: O,
    connection: Option<Connection<T>>,
    lost: bool,
    doubt: Option<Doubt>,
    faults: u64,
}

/// Rows in a table of the file of a path, for each `S` that the file may have held as it was first opened.
pub type FileKeeper<'a, S> = StoreKeeper<FileStore<FileFrom<S>>, PathOpener<'a, S>>;

impl<T: Alter + Drop, O: Opener<T>> Model for StoreKeeper<T, O> {
    ghost use Rattle.std.specs.Prelude.{◌<◌, ◌^◌, IfSome, IsTrue};
    ghost use Rattle.nrm_keeper.specs.Steady.{IsSettled};
    ghost use Rattle.nrm_keeper.specs.File.{FileRows, file_view};

    ghost Value = { FileRows };

    ghost view = { λ s. file_view T.Store s.connection s.lost s.doubt s.faults };

    ghost invariant = { λ s. IsSettled T.Store s.connection
        × IfSome s.doubt (λ doubt. (doubt.row.number < 10 ^ 12) × IsTrue s.lost) };
}

impl<'a, S: Beginning> FileKeeper<'a, S> {
    ghost use Rattle.std.specs.Prelude.{◌≡◌, None, false, IsOk};

    /// A keeper over the file of this path. It takes no memory and opens nothing.
    pub fn new(rt: &'a HostRuntime, path: &'a str) -> FileKeeper<'a, S>
        ensures { result ≡ record { file = None; is_lost = false; is_open = false; doubt = None; faults = 0 } }
    {
        StoreKeeper::over(PathOpener::new(rt, path))
    }

    /// Ends the run's use of the store. A change that is still in doubt is undone if that can be done now; if the file is open
    /// the log is copied into it and emptied; and then another run may have the store. A keeper that never opened its file has
    /// nothing to end.
    ///
    /// # Errors
    /// `Failed` if the log could not be copied in: the rows then stand in both files, as they did.
    pub fn close(mut self, alloc: Global) -> Result<(), KeepFault>
        ensures unopened { self.entry.file ≡ None → self.entry.is_lost ≡ false → IsOk result }
    {
        self.finish(alloc);
        let StoreKeeper {
            opener,
            connection,
            ..
        } = self;
        let closed = match connection {
            Some(connection) => connection.close(),
            None => Ok(()),
        };
        drop(opener);
        match closed {
            Ok(()) => Ok(()),
            Err(error) => Err(fault_of(error)),
        }
    }
}

impl<T: Alter + Drop, O: Opener<T>> StoreKeeper<T, O> {
    ghost use Rattle.std.specs.Prelude.{◌≡◌, ◌⊎◌, ◌<◌, ◌^◌, None, true, false, IsTrue, OnOk, OnErr};
    ghost use Rattle.nrm_edge.specs.Causes.{counted};
    ghost use Rattle.nrm_keeper.specs.Rows.{has_failed};
    ghost use Rattle.nrm_keeper.specs.File.{Done, Failed, IsTrusted, Same, shown_in};
    ghost use Rattle.nrm_keeper.specs.Undoing.{IsInDoubt, IsOfRowsIn};

    /// A keeper over the store that is opened so. It takes no memory and opens nothing.
    pub fn over(opener: O) -> StoreKeeper<T, O>
        ensures { result ≡ record { file = None; is_lost = false; is_open = false; doubt = None; faults = 0 } }
    {
        StoreKeeper {
            opener,
            connection: None,
            lost: false,
            doubt: None,
            faults: 0,
        }
    }

    /// Undoes a change that is still in doubt, if that can be done now. No other row changes.
    pub fn finish(&mut self, alloc: Global)
        ensures faults { self.new.faults ≡ self.old.faults }
        ensures lost { self.new.is_lost ≡ self.old.is_lost }
        ensures doubt { (self.new.doubt ≡ None) ⊎ (self.new.doubt ≡ self.old.doubt) }
        ensures nothing { self.old.doubt ≡ None → self.new ≡ self.old }
        ensures shows { IsTrusted self.new → IsTrusted self.old × (shown_in O.first self.new ≡ shown_in O.first self.old) }
    {
        if self.doubt.is_some() {
            let _undone = self.settle(alloc);
        }
    }

    // Opens the file if it isn't open, and undoes a change that is in doubt.
    fn settle(&mut self, alloc: Global) -> Result<(), KeepFault>
        ensures faults { self.new.faults ≡ self.old.faults }
        ensures lost { self.new.is_lost ≡ self.old.is_lost }
        ensures done { OnOk result (Done O.first Same self.old self.new) }
        ensures undone { OnOk result ((self.new.doubt ≡ None) × IsTrue self.new.is_open) }
        ensures doubt { OnErr result (self.new.doubt ≡ self.old.doubt) }
    {
        open_if_shut(&mut self.opener, &mut self.connection)?;
        let undone = undo(alloc, &mut self.connection, &self.doubt);
        if undone.is_ok() {
            self.doubt = None;
        } else {
            self.connection = None;
        }
        undone
    }

    // The answer of a call that changed nothing. After an Err the connection is let go, and one fault is counted if the keeper
    // failed.
    fn answered<A>(&mut self, answer: Result<A, KeepFault>) -> Result<A, KeepFault>
        ensures answer { result ≡ answer }
        ensures counts { self.new.faults ≡ counted (has_failed answer) self.old.faults }
        ensures file { OnOk result (self.new.file ≡ self.old.file) }
        ensures stays { OnOk result (self.new.is_lost ≡ self.old.is_lost) }
        ensures lost { OnErr result (self.new.is_lost ≡ true) }
        ensures doubt { self.new.doubt ≡ self.old.doubt }
    {
        match answer {
            Ok(value) => Ok(value),
            Err(fault) => {
                self.connection = None;
                self.lost = true;
                raised(&mut self.faults, Err(fault))
            }
        }
    }

    // The answer of a change that was tried. After an Err it is in doubt if the connection can't tell any more, and undone
    // at once if the file can be opened again.
    fn changed(
        &mut self,
        alloc: Global,
        change: Doubt,
        answer: Result<(), KeepFault>,
    ) -> Result<(), KeepFault>
        requires number { change.row.number < 10 ^ 12 }
        requires settled { self.old.doubt ≡ None }
        requires was { OnErr answer (IsOfRowsIn change self.old.file) }
        ensures answer { result ≡ answer }
        ensures counts { self.new.faults ≡ counted (has_failed answer) self.old.faults }
        ensures file { OnOk result (self.new.file ≡ self.old.file) }
        ensures stays { OnOk result (self.new.is_lost ≡ self.old.is_lost) }
        ensures same { OnErr result (Failed O.first self.old self.new) }
        ensures undone { OnOk result (self.new.doubt ≡ None) }
        ensures doubt { OnErr result (IsInDoubt change self.new) }
    {
        match answer {
            Ok(()) => Ok(()),
            Err(fault) => {
                self.doubted(alloc, change);
                raised(&mut self.faults, Err(fault))
            }
        }
    }

    // A change failed: it is in doubt if the connection can't tell any more.
    fn doubted(&mut self, alloc: Global, change: Doubt)
        requires number { change.row.number < 10 ^ 12 }
        requires settled { self.old.doubt ≡ None }
        ensures faults { self.new.faults ≡ self.old.faults }
        ensures same { Failed O.first self.old self.new }
        ensures doubt { IsInDoubt change self.new }
    {
        if find_in(alloc, &mut self.connection, change.row.number).is_ok() {
            return;
        }
        self.doubt = Some(change);
        self.connection = None;
        self.lost = true;
        let _undone = self.settle(alloc);
    }
}

// Opens the connection, if it is shut.
fn open_if_shut<T: Alter + Drop, O: Opener<T>>(
    opener: &mut O,
    connection: &mut Option<Connection<T>>,
) -> Result<(), KeepFault>
    requires settled { IsSettled T.Store connection.old }
    ensures counts { O.faults opener.new ≡ counted (has_failed result) (O.faults opener.old) }
    ensures settled { IsSettled T.Store connection.new }
    ensures there { OnOk result (IsSome connection.new) }
    ensures stays { IsSome connection.old → connection.new ≡ connection.old }
    ensures first { connection.old ≡ None → TellsRows T.Store O.first connection.new }
    ensures shut { OnErr result (connection.new ≡ connection.old) }
{
    if connection.is_some() {
        return Ok(());
    }
    match opener.open() {
        Ok(conn) => {
            *connection = Some(conn);
            Ok(())
        }
        Err(fault) => Err(fault),
    }
}

// Undoes a change that is in doubt: a row that was kept is put back if no row has its number, and one that was not is taken
// out if it is there just as it was to be kept.
fn undo<T: Alter>(
    alloc: Global,
    connection: &mut Option<Connection<T>>,
    doubt: &Option<Doubt>,
) -> Result<(), KeepFault>
    requires number { IfSome doubt.now (λ doubt. doubt.row.number < 10 ^ 12) }
    requires settled { IsSettled T.Store connection.old }
    ensures settled { IsSettled T.Store connection.new }
    ensures there { IsSome connection.old → OnOk result (IsSome connection.new) }
    ensures nothing { doubt.now ≡ None → connection.new ≡ connection.old }
    ensures undoes { OnOk result (Passes T.Store (Undoes doubt.now) connection.old connection.new) }
{
    let Some(change) = doubt else {
        return Ok(());
    };
    match find_in(alloc, connection, change.row.number) {
        Ok(found) => undo_by(connection, change, found),
        Err(fault) => Err(fault),
    }
}

// Undoes a change by the row that was found at its number.
fn undo_by<T: Alter>(
    connection: &mut Option<Connection<T>>,
    change: &Doubt,
    found: Option<KeptRow>,
) -> Result<(), KeepFault>
    requires number { change.now.row.number < 10 ^ 12 }
    requires settled { IsSettled T.Store connection.old }
    ensures settled { IsSettled T.Store connection.new }
    ensures there { IsSome connection.old → OnOk result (IsSome connection.new) }
    ensures undoes { OnOk result (Passes T.Store (UndoesFound change.now.was_kept change.now.row found) connection.old connection.new) }
{
    match found {
        None if change.was_kept => keep_in(connection, &change.row),
        Some(row) if !change.was_kept && row == change.row => drop_in(
            connection,
            change.row.number,
        ),
        _ => Ok(()),
    }
}

impl<T: Alter + Drop, O: Opener<T>> Keeper for StoreKeeper<T, O> {
    ghost use Rattle.std.specs.Prelude.{◌≡◌, ◌<◌, ◌^◌, None, IfOk, OnOk, OnErr};
    ghost use Rattle.nrm_edge.specs.Causes.{counted};
    ghost use Rattle.nrm_keeper.specs.Rows.{Adds, Drops, Keeps, Lists, has_failed};
    ghost use Rattle.nrm_keeper.specs.File.{Done, Failed, IsTrusted, ListsIn, Same, shown_in, untold};
    ghost use Rattle.nrm_keeper.specs.Undoing.{LeavesInDoubt, LeavesDropInDoubt};

    ghost rows = { λ _. None };

    ghost shown = { shown_in O.first };

    ghost trusted = { IsTrusted };

    ghost faults = { λ s. s.faults };

    fn add(&mut self, alloc: Global, row: KeptRow) -> Result<(), KeepFault>
        requires { row.number < 10 ^ 12 }
        ensures counts { self.new.faults ≡ counted (has_failed result) self.old.faults }
        ensures added { OnOk result (Adds row untold untold) }
        ensures unchanged { OnErr result (untold ≡ untold) }
        ensures kept { OnOk result (Done O.first (Adds row) self.old self.new) }
        ensures undone { OnOk result (self.new.doubt ≡ None) }
        ensures doubt { OnErr result (LeavesInDoubt row self.old self.new) }
        ensures same { OnErr result (Failed O.first self.old self.new) }
        ensures shows { IsTrusted self.new → IsTrusted self.old × OnOk result (Adds row (shown_in O.first self.old) (shown_in O.first self.new))
            × OnErr result (shown_in O.first self.new ≡ shown_in O.first self.old) }
    {
        if let Err(fault) = self.settle(alloc) {
            return self.answered(Err(fault));
        }
        let kept = keep_in(&mut self.connection, &row);
        let change = Doubt {
            row,
            was_kept: false,
        };
        self.changed(alloc, change, kept)
    }

    fn drop_row(&mut self, alloc: Global, number: u64) -> Result<(), KeepFault>
        requires { number < 10 ^ 12 }
        ensures counts { self.new.faults ≡ counted (has_failed result) self.old.faults }
        ensures dropped { OnOk result (Drops number untold untold) }
        ensures unchanged { OnErr result (untold ≡ untold) }
        ensures gone { OnOk result (Done O.first (Drops number) self.old self.new) }
        ensures undone { OnOk result (self.new.doubt ≡ None) }
        ensures doubt { OnErr result (LeavesDropInDoubt number self.old self.new) }
        ensures same { OnErr result (Failed O.first self.old self.new) }
        ensures shows { IsTrusted self.new → IsTrusted self.old × OnOk result (Drops number (shown_in O.first self.old) (shown_in O.first self.new))
            × OnErr result (shown_in O.first self.new ≡ shown_in O.first self.old) }
    {
        if let Err(fault) = self.settle(alloc) {
            return self.answered(Err(fault));
        }
        let row = match find_in(alloc, &mut self.connection, number) {
            Ok(Some(row)) => row,
            Ok(None) => return self.answered(Err(KeepFault::Failed)),
            Err(fault) => return self.answered(Err(fault)),
        };
        let dropped = drop_in(&mut self.connection, number);
        let change = Doubt {
            row: KeptRow { number, ..row },
            was_kept: true,
        };
        self.changed(alloc, change, dropped)
    }

    fn all(&mut self, alloc: Global) -> Result<Vec<KeptRow>, KeepFault>
        ensures counts { self.new.faults ≡ counted (has_failed result) self.old.faults }
        ensures listed { IfOk result (λ list. Lists list.items untold) }
        ensures stays { OnOk result (Keeps untold untold) }
        ensures unchanged { OnErr result (untold ≡ untold) }
        ensures undone { OnOk result (self.new.doubt ≡ None) }
        ensures rows { IfOk result (λ list. Done O.first (λ before after. Same before after × Lists list.items before) self.old self.new) }
        ensures told { IfOk result (λ list. ListsIn list.items self.new.file) }
        ensures same { OnErr result (Failed O.first self.old self.new) }
        ensures shows { IsTrusted self.new → IsTrusted self.old × (shown_in O.first self.new ≡ shown_in O.first self.old)
            × IfOk result (λ list. Lists list.items (shown_in O.first self.new)) }
    {
        if let Err(fault) = self.settle(alloc) {
            return self.answered(Err(fault));
        }
        let listed = list_in(alloc, &mut self.connection);
        self.answered(listed)
    }
}
