//! Real files, by their paths, and a count of the failures. Nothing is told of what stands in them.
ghost use Rattle.std.specs.Prelude.{◌≡◌, ◌<◌, ◌^◌};

use crate::{Fetched, FileFault, Files};
use std::alloc::Global;
use std::io::{ErrorKind, Read};
use std::marker::Model;
use std::{fs, io};

/// The files that the runtime reaches, by their paths as they are given. Contracts see how often a fetch has failed.
#[derive(Drop)]
pub struct DirFiles<'a, R: std::rt::Files> {
    rt: &'a R,
    faults: u64,
}

impl<'a, R: std::rt::Files> Model for DirFiles<'a, R> {
    ghost use Rattle.std.specs.Prelude.{ℕ};

    ghost Value = { ℕ };

    ghost view = { λ s. s.faults };
}

impl<'a, R: std::rt::Files> DirFiles<'a, R> {
    /// The files of this runtime, with no faults. It takes no memory.
    pub fn new(rt: &'a R) -> DirFiles<'a, R>
        ensures { result ≡ 0 }
    {
        DirFiles { rt, faults: 0 }
    }
}

// The bytes of an opened file up to its end, or one byte more than the room.
fn read_up_to<F: Read + Drop>(alloc: Global, file: F, room: usize) -> io::Result<Vec<u8>>
    requires { room < 2 ^ 32 }
{
    let mut bytes = Vec::new(alloc);
    file.take(room as u64 + 1).read_to_end(&mut bytes)?;
    Ok(bytes)
}

// The file of this path, if there is one.
fn fetched<R: std::rt::Files>(alloc: Global, rt: &R, path: &str, room: usize) -> io::Result<Fetched>
    requires { room < 2 ^ 32 }
{
    let file = match fs::open(rt, path) {
        Ok(file) => file,
        Err(error) if error.kind() == ErrorKind::NotFound => return Ok(Fetched::Absent),
        Err(error) => return Err(error),
    };
    let bytes = read_up_to(alloc, file, room)?;
    if bytes.len() > room {
        Ok(Fetched::Longer)
    } else {
        Ok(Fetched::Whole(bytes))
    }
}

impl<R: std::rt::Files> Files for DirFiles<'_, R> {
    ghost use Rattle.std.specs.Prelude.{◌≡◌, ◌<◌, ◌^◌, None};
    ghost use Rattle.nrm_edge.specs.Causes.{counted};
    ghost use Rattle.nrm_edge.specs.Fetch.{HasFileCause, has_failed};

    ghost contents = { λ _. None };

    ghost faults = { λ s. s };

    fn fetch(&mut self, alloc: Global, name: &str, room: usize) -> Result<Fetched, FileFault>
        requires { room < 2 ^ 32 }
        ensures cause { HasFileCause self.old self.new result }
        ensures counts { self.new ≡ counted (has_failed result) self.old }
    {
        match fetched(alloc, self.rt, name, room) {
            Ok(answer) => Ok(answer),
            Err(error) if error.kind() == ErrorKind::OutOfMemory => Err(FileFault::NoMemory),
            Err(_) => {
                self.faults = self.faults.saturating_add(1);
                Err(FileFault::Failed)
            }
        }
    }
}
