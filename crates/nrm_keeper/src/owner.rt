//! The lock by which a store belongs to one run, from its first opening to the end of the process. It is part of the edge to
//! the system: no clause can say what a lock does, so these few lines are to be read.
ghost use Rattle.std.specs.Prelude.{◌≡◌, true, false, OnOk, OnErr};

use crate::KeepFault;
use std::fs::{self, File};
use std::io::{self, ErrorKind};
use std::marker::Model;
use std::os::fd::AsRawFd;
use std::os::unix::fs::MetadataExt;
use std::rt::HostRuntime;

/// The file of a store, once this run has it, under the system's lock on the whole file (`flock`). `sqlite` holds locks of
/// another kind, on parts of the file, and only while a connection is open; this one is held until the value is dropped, so
/// that no other run sells from the store while a connection is let go and opened again. It lies on the file and not on its
/// name: whether the name still leads to that file is asked before and after each later opening.
///
/// Not kept out: a program that doesn't ask for the lock, as `sqlite3`, while no connection is open; and one that changes
/// what the name leads to between the two questions.
#[derive(Drop)]
pub(crate) struct StoreOwner {
    file: Option<File>,
}

// It is seen as whether it has a file.
impl Model for StoreOwner {
    ghost use Rattle.std.specs.Prelude.{Bool, is_some};

    ghost Value = { Bool };

    ghost view = { λ s. is_some s.file };
}

impl StoreOwner {
    /// No file yet.
    pub(crate) fn of_none() -> StoreOwner
        ensures { result ≡ false }
    {
        StoreOwner { file: None }
    }

    /// Whether the path may be opened: the run has no file yet, or it is still the one that the path leads to.
    pub(crate) fn may_open(&self, rt: &HostRuntime, path: &str) -> bool
        ensures { self.now ≡ false → result ≡ true }
    {
        match &self.file {
            Some(file) => leads_to(rt, path, file),
            None => true,
        }
    }

    /// Takes the file of the path for this run, if it has none yet. If it has one, the path must still lead to it.
    ///
    /// # Errors
    /// `Failed` if another run has the file, it can't be had, or the path leads elsewhere; `NoMemory` if memory ran out.
    pub(crate) fn take(&mut self, rt: &HostRuntime, path: &str) -> Result<(), KeepFault>
        ensures taken { OnOk result (self.new ≡ true) }
        ensures same { OnErr result (self.new ≡ self.old) }
    {
        if self.file.is_some() {
            return if self.may_open(rt, path) {
                Ok(())
            } else {
                Err(KeepFault::Failed)
            };
        }
        match locked(rt, path) {
            Ok(file) => {
                self.file = Some(file);
                Ok(())
            }
            Err(error) if error.kind() == ErrorKind::OutOfMemory => Err(KeepFault::NoMemory),
            Err(_) => Err(KeepFault::Failed),
        }
    }
}

// A handle on the file of the path, with the lock, if nobody has it.
fn locked(rt: &HostRuntime, path: &str) -> io::Result<File> {
    let mut file = File::open(rt, path)?;
    // Where a standard stream was closed the handle must not stand in its place.
    if file.as_raw_fd() <= 2 {
        file = file.try_clone()?;
    }
    file.try_lock()?;
    Ok(file)
}

// Whether a path leads to an open file.
fn leads_to(rt: &HostRuntime, path: &str, file: &File) -> bool {
    match (file.metadata(), fs::metadata(rt, path)) {
        (Ok(own), Ok(found)) => own.dev() == found.dev() && own.ino() == found.ino(),
        _ => false,
    }
}
