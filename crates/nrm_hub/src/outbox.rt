//! What waits to be told to a client: a sink in memory, whose puts fail only if memory runs out.
ghost use Rattle.std.specs.Prelude.{◌≡◌, ◌<◌, ◌≤◌, [], Some, length, IfOk};
ghost use Rattle.std.specs.Io.KnownBytes.{WriteAppends};
ghost use Rattle.nrm_edge.specs.Causes.{HasCause};

use nrm_edge::{Failed, Sink};
use std::alloc::Global;
use std::marker::Model;

/// Bytes that wait, and how often a put has failed.
#[derive(Drop)]
pub(crate) struct Outbox {
    bytes: Vec<u8>,
    faults: u64,
}

impl Model for Outbox {
    ghost use Rattle.nrm_hub.specs.Inner.Outbox.{OutboxValue};

    ghost Value = { OutboxValue };

    ghost view = { λ s. record { waiting = s.bytes.items; faults = s.faults } };
}

impl Outbox {
    /// Nothing waits.
    pub(crate) fn new(alloc: Global) -> Outbox
        ensures { result ≡ record { waiting = []; faults = 0 } }
    {
        Outbox {
            bytes: Vec::new(alloc),
            faults: 0,
        }
    }

    /// What waits.
    pub(crate) fn waiting(&self) -> &[u8]
        ensures { result.now ≡ self.now.waiting }
    {
        &self.bytes
    }

    /// All that waited was sent.
    pub(crate) fn clear(&mut self)
        ensures { self.new ≡ record self.old { waiting = [] } }
    {
        self.bytes.clear();
    }
}

impl Sink for Outbox {
    ghost held = { λ s. Some s.waiting };

    ghost faults = { λ s. s.faults };

    ghost unsent = { λ _. [] };

    fn put(&mut self, piece: &[u8]) -> Result<usize, Failed>
        requires { 0 < length piece.now }
        ensures some { IfOk result (λ count. 0 < count) }
        ensures room { IfOk result (λ count. count ≤ length piece.now) }
        ensures bytes { WriteAppends (Some self.old.waiting) (Some self.new.waiting) result piece.now }
        ensures cause { HasCause self.old.faults self.new.faults result }
    {
        match self.bytes.extend_from_slice(piece) {
            Ok(()) => Ok(piece.len()),
            Err(_) => {
                self.faults = self.faults.saturating_add(1);
                Err(Failed)
            }
        }
    }

    fn flush(&mut self) -> Result<(), Failed> {
        Ok(())
    }
}
