//! Bytes that came and were not used yet, in a buffer with room for the longest frame, which is taken when it is made.
ghost use Rattle.std.specs.Prelude.{◌≡◌, ◌≤◌, ◌-◌, ◌<◌, [], drop, length, take, IfOk};
ghost use Rattle.nrm_edge.specs.Causes.{HasCause};
ghost use Rattle.nrm_desks_cli.specs.Inner.Handling.{TakesMore};
ghost use Rattle.nrm_desks_cli.specs.declared.incoming.TheConstants.{ROOM};

use nrm_edge::{Failed, Source};
use std::alloc::{AllocError, Global};
use std::marker::Model;

// Twice the longest frame: so there is room for a piece whenever no whole frame waits.
const ROOM: usize = 131_328;

// Moves what waits to the front of the buffer.
fn move_front(bytes: &mut Vec<u8>, start: usize, end: usize)
    requires ordered { start ≤ end }
    requires within { end ≤ length bytes.old.items }
    ensures front { take (end - start) bytes.new.items ≡ drop start (take end bytes.old.items) }
    ensures len { length bytes.new.items ≡ length bytes.old.items }
{
    bytes.copy_within(start..end, 0);
}

/// Bytes that came and were not used yet.
#[derive(Drop)]
pub(crate) struct Incoming {
    bytes: Vec<u8>,
    start: usize,
    end: usize,
}

impl Model for Incoming {
    ghost use Rattle.std.specs.Prelude.{ℕ, List, ◌≡◌, ◌≤◌, drop, length, take};
    ghost use Rattle.nrm_desks_cli.specs.declared.incoming.TheConstants.{ROOM};

    ghost Value = { List ℕ };

    ghost view = { λ s. drop s.start (take s.end s.bytes.items) };

    ghost invariant = { λ s. (length s.bytes.items ≡ ROOM) × (s.start ≤ s.end) × (s.end ≤ ROOM) };
}

impl Incoming {
    /// None came.
    ///
    /// # Errors
    /// Memory runs out.
    pub(crate) fn new(alloc: Global) -> Result<Incoming, AllocError>
        ensures { IfOk result (λ incoming. incoming ≡ []) }
    {
        let bytes = vec![in alloc; 0; ROOM]?;
        Ok(Incoming {
            bytes,
            start: 0,
            end: 0,
        })
    }

    /// The bytes that wait.
    pub(crate) fn waiting(&self) -> &[u8]
        ensures { result.now ≡ self.now }
    {
        &self.bytes[self.start..self.end]
    }

    /// So many of them, at the front, were used.
    pub(crate) fn used(&mut self, count: usize)
        requires { count ≤ length self.old }
        ensures { self.new ≡ drop count self.old }
    {
        self.start += count;
    }

    /// Takes more bytes behind those that wait. Gives how many; none come at the end of the input.
    ///
    /// # Errors
    /// The source failed.
    pub(crate) fn take<S: Source>(&mut self, source: &mut S) -> Result<usize, Failed>
        requires { length self.old < ROOM }
        ensures takes { TakesMore self.old self.new (S.coming source.old) (S.coming source.new) result }
        ensures within { IfOk result (λ count. count ≤ ROOM) }
        ensures cause { HasCause (S.faults source.old) (S.faults source.new) result }
    {
        move_front(&mut self.bytes, self.start, self.end);
        self.end -= self.start;
        self.start = 0;
        let count = source.take(&mut self.bytes[self.end..])?;
        self.end += count;
        Ok(count)
    }
}
