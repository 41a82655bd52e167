//! Files in memory, for tests and for proofs of what stands above: a list of names and bytes, and counts.
ghost use Rattle.std.specs.Prelude.{◌≡◌, bytes_eq, option_map, map};
ghost use Rattle.nrm_edge.specs.Memory.{stored_under};

use crate::{Fetched, FileFault, Files};
use std::alloc::Global;
use std::marker::Model;

/// A list of names and bytes, of which the first pair of a name counts, and the numbers of the fetches that fail.
#[derive(Drop)]
pub struct MemFiles {
    list: Vec<(Vec<u8>, Vec<u8>)>,
    failing: Vec<u64>,
    fetches: u64,
    faults: u64,
}

impl Model for MemFiles {
    ghost use Rattle.std.specs.Prelude.{map};
    ghost use Rattle.nrm_edge.specs.Memory.{HeldFiles};

    ghost Value = { HeldFiles };

    ghost view = { λ s. record {
      files = map (λ pair. (pair.0.items, pair.1.items)) s.list.items;
      failing = s.failing.items;
      fetches = s.fetches;
      faults = s.faults;
    } };
}

impl MemFiles {
    ghost use Rattle.std.specs.Prelude.{◌≡◌, map};

    /// Files with these names and bytes; the fetches whose numbers, from 1, stand in `failing` fail. It takes no
    /// memory, but its `fetch` does.
    pub fn new(list: Vec<(Vec<u8>, Vec<u8>)>, failing: Vec<u64>) -> MemFiles
        ensures { result ≡ record {
          files = map (λ pair. (pair.0.items, pair.1.items)) list.items;
          failing = failing.items;
          fetches = 0;
          faults = 0;
        } }
    {
        MemFiles {
            list,
            failing,
            fetches: 0,
            faults: 0,
        }
    }
}

// Whether two names are the same bytes.
fn same(a: &[u8], b: &[u8]) -> bool
    ensures { result ≡ bytes_eq a.now b.now }
{
    a == b
}

// The bytes under a name, of the first pair that has it.
fn bytes_under<'a>(list: &'a [(Vec<u8>, Vec<u8>)], name: &[u8]) -> Option<&'a [u8]>
    ensures { option_map (λ bytes. bytes.now) result ≡ stored_under (map (λ pair. (pair.0.items, pair.1.items)) list.now) name.now }
{
    for pair in list {
        if same(pair.0.as_slice(), name) {
            return Some(pair.1.as_slice());
        }
    }
    None
}

impl Files for MemFiles {
    ghost use Rattle.std.specs.Prelude.{Some, ◌≡◌, ◌<◌, ◌^◌};
    ghost use Rattle.nrm_edge.specs.Fetch.{AnswersFetch, HasFileCause, has_failed};
    ghost use Rattle.nrm_edge.specs.Memory.{stored_under, fetch_fails, after_fetch};

    ghost contents = { λ s. Some (stored_under s.files) };

    ghost faults = { λ s. s.faults };

    fn fetch(&mut self, alloc: Global, name: &str, room: usize) -> Result<Fetched, FileFault>
        requires { room < 2 ^ 32 }
        ensures answer { AnswersFetch (Some (stored_under self.old.files)) name.now room result }
        ensures stays { Some (stored_under self.new.files) ≡ Some (stored_under self.old.files) }
        ensures cause { HasFileCause self.old.faults self.new.faults result }
        ensures fails { has_failed result ≡ fetch_fails self.old }
        ensures counts { self.new ≡ after_fetch self.old }
    {
        self.fetches = self.fetches.saturating_add(1);
        if self.failing.contains(&self.fetches) {
            self.faults = self.faults.saturating_add(1);
            return Err(FileFault::Failed);
        }
        match bytes_under(&self.list, name.as_bytes()) {
            None => Ok(Fetched::Absent),
            Some(bytes) => {
                if bytes.len() > room {
                    return Ok(Fetched::Longer);
                }
                match bytes.to_vec(alloc) {
                    Ok(whole) => Ok(Fetched::Whole(whole)),
                    Err(_) => Err(FileFault::NoMemory),
                }
            }
        }
    }
}
