//! How the store of a keeper is opened: anew, each time that no connection is open. What the files held as they were first
//! opened is a ghost of the opener, so that what is said of a keeper holds of all files that tell rows.
ghost use Rattle.std.specs.Prelude.{ℕ, List, Option, Some, IfOk, ◌≡◌};
ghost use Rattle.nrm_edge.specs.Causes.{counted};
ghost use Rattle.nrm_keeper.specs.declared.row.KeptRow.{KeptRow};
ghost use Rattle.nrm_keeper.specs.Rows.{has_failed};
ghost use Rattle.nrm_keeper.specs.Steady.{IsSettled};
ghost use Rattle.nrm_keeper.specs.Passes.{TellsRows};

use crate::KeepFault;
use crate::causes::{fault_of, raised};
use crate::owner::StoreOwner;
use sqlite::{Alter, Connection, FileFrom, FileStore, Start, Unknown};
use std::marker::{Model, PhantomData};
use std::rt::HostRuntime;

/// The rows that a statement may visit: many times those that can stand (64 legs of 999 seats), so that only what has no end, as
/// a view may have none, is refused for it.
pub const MOST_STEPS: u64 = 4_000_000;

/// What opens the store of a keeper, always the same one, and counts the openings that failed: one for each that answers
/// `Failed`, up to the last value of `u64`.
pub trait Opener<T: Alter>: Drop {
    /// The rows that the store is taken to hold before it is first opened.
    ghost first: { Option (List KeptRow) };

    /// How often an opening has failed.
    ghost faults: { Self → ℕ };

    /// A new connection to the store. It tells the first rows, if it is clean and open.
    ///
    /// # Errors
    /// `Failed` if the store could not be opened, `NoMemory` if memory ran out.
    fn open(&mut self) -> Result<Connection<T>, KeepFault>
        ensures settled { IfOk result (λ connection. IsSettled T.Store (Some connection)) }
        ensures first { IfOk result (λ connection. TellsRows T.Store first (Some connection)) }
        ensures counts { faults self.new ≡ counted (has_failed result) (faults self.old) };
}

/// What files held as they were first opened, with the rows that they then tell.
pub trait Beginning: Start {
    ghost use Rattle.sqlite.specs.WalFiles.{image_at};
    ghost use Rattle.nrm_keeper.specs.Beginning.{BeginsWith};

    /// The rows that these contents tell.
    ghost rows: { Option (List KeptRow) };

    /// The same contents, for one opening more.
    fn again() -> Self;

    ghost begins: { BeginsWith (image_at Self.Start) rows };
}

impl Beginning for Unknown {
    ghost use Rattle.std.specs.Prelude.{Some, []};
    ghost use Rattle.nrm_keeper.specs.EmptyFile.{empty_begins};

    ghost rows = { Some [] };

    ghost begins = { empty_begins };

    fn again() -> Unknown {
        Unknown
    }
}

/// Opens the file of a path, which belongs to this run from the first opening on, and counts the openings that failed.
#[derive(Drop)]
pub struct PathOpener<'a, S: Beginning> {
    rt: &'a HostRuntime,
    path: &'a str,
    owner: StoreOwner,
    faults: u64,
    first: PhantomData<S>,
}

impl<'a, S: Beginning> Model for PathOpener<'a, S> {
    ghost use Rattle.nrm_keeper.specs.File.{OwnedPath};

    ghost Value = { OwnedPath };

    ghost view = { λ s. record { is_owned = s.owner; faults = s.faults } };
}

impl<'a, S: Beginning> PathOpener<'a, S> {
    ghost use Rattle.std.specs.Prelude.{false};

    /// It opens nothing yet.
    pub fn new(rt: &'a HostRuntime, path: &'a str) -> PathOpener<'a, S>
        ensures { result ≡ record { is_owned = false; faults = 0 } }
    {
        PathOpener {
            rt,
            path,
            owner: StoreOwner::of_none(),
            faults: 0,
            first: PhantomData,
        }
    }
}

impl<S: Beginning> Opener<FileStore<FileFrom<S>>> for PathOpener<'_, S> {
    ghost use Rattle.std.specs.Prelude.{true, OnOk};
    ghost use Rattle.sqlite.specs.Files.{over_files};

    ghost first = { S.rows };

    ghost faults = { λ s. s.faults };

    fn open(&mut self) -> Result<Connection<FileStore<FileFrom<S>>>, KeepFault>
        ensures settled { IfOk result (λ connection. IsSettled over_files (Some connection)) }
        ensures first { IfOk result (λ connection. TellsRows over_files S.rows (Some connection)) }
        ensures counts { self.new.faults ≡ counted (has_failed result) self.old.faults }
        ensures limited { IfOk result (λ connection. connection.step_limit ≡ Some MOST_STEPS) }
        ensures owned { OnOk result (self.new.is_owned ≡ true) }
        ensures stays { self.old.is_owned ≡ true → self.new.is_owned ≡ true }
    {
        if !self.owner.may_open(self.rt, self.path) {
            return raised(&mut self.faults, Err(KeepFault::Failed));
        }
        match Connection::open_from(self.rt, self.path, false, S::again()) {
            Ok(mut connection) => match self.owner.take(self.rt, self.path) {
                Ok(()) => {
                    connection.set_step_limit(Some(MOST_STEPS));
                    Ok(connection)
                }
                Err(fault) => raised(&mut self.faults, Err(fault)),
            },
            Err((error, _)) => raised(&mut self.faults, Err(fault_of(error))),
        }
    }
}
