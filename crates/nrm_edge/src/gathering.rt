//! A sink that gathers what is put and sends it on to another one in few pieces: where its room is full, and where it is told to.
//! It holds the bytes itself. What a failed put of the other one leaves stays gathered, and nothing is sent on when it is dropped.
ghost use Rattle.std.specs.Prelude.{◌≡◌, ◌<◌, ◌≤◌, ◌+◌, ◌++◌, [], drop, take, length, IfOk, OnOk};
ghost use Rattle.std.specs.Io.KnownBytes.{append_known, Keeps, WriteAppends};
ghost use Rattle.nrm_edge.specs.Causes.{HasCause};

use crate::{Failed, Sink};
use std::alloc::{AllocError, Global};
use std::marker::Model;

/// A sink behind some room for bytes, in which those stand that were put and not sent on yet.
#[derive(Drop)]
pub struct GatheringSink<K: Sink + Drop> {
    sink: K,
    bytes: Vec<u8>,
    sent: usize,
    len: usize,
}

impl<K: Sink + Drop> Model for GatheringSink<K> {
    ghost use Rattle.std.specs.Prelude.{drop, take, length, ◌≤◌, ◌<◌};
    ghost use Rattle.nrm_edge.specs.Streams.{Gathered};

    ghost Value = { Gathered K };

    ghost view = { λ s. record { sink = s.sink; gathered = drop s.sent (take s.len s.bytes.items) } };

    ghost invariant = { λ s. (s.sent ≤ s.len) × (s.len ≤ length s.bytes.items) × (0 < length s.bytes.items) };
}

impl<K: Sink + Drop> GatheringSink<K> {
    /// A sink that gathers up to `room` bytes before it sends them on to this one.
    pub fn new(alloc: Global, sink: K, room: usize) -> Result<GatheringSink<K>, AllocError>
        requires { 0 < room }
        ensures { IfOk result (λ gathering. gathering ≡ record { sink = sink; gathered = [] }) }
    {
        let bytes = vec![in alloc; 0; room]?;
        Ok(GatheringSink {
            sink,
            bytes,
            sent: 0,
            len: 0,
        })
    }

    /// The sink that it sends on to.
    pub fn sink(&self) -> &K
        ensures { result.now ≡ self.now.sink }
    {
        &self.sink
    }
}

// Puts what stands in the buffer from `sent` on, in as many puts as it takes.
fn send_rest<K: Sink>(sink: &mut K, bytes: &[u8], sent: &mut usize) -> Result<(), Failed>
    requires { sent.old ≤ length bytes.now }
    ensures within { sent.new ≤ length bytes.now }
    ensures bytes { Keeps (append_known (K.held sink.old) (drop sent.old bytes.now))
        (append_known (K.held sink.new) (drop sent.new bytes.now)) }
    ensures all { OnOk result (sent.new ≡ length bytes.now) }
    ensures cause { HasCause (K.faults sink.old) (K.faults sink.new) result }
{
    while *sent < bytes.len() {
        let count = sink.put(&bytes[*sent..])?;
        *sent += count;
    }
    Ok(())
}

// Puts all that is left, and then nothing is gathered. After `Failed` what didn't go out is left still. Few puts come to it.
#[cold]
#[inline(never)]
fn send_on<K: Sink>(
    sink: &mut K,
    bytes: &[u8],
    sent: &mut usize,
    len: &mut usize,
) -> Result<(), Failed>
    requires sent { sent.old ≤ len.old }
    requires len { len.old ≤ length bytes.now }
    ensures all { OnOk result ((sent.new ≡ 0) × (len.new ≡ 0)) }
    ensures within { sent.new ≤ len.new }
    ensures shorter { len.new ≤ len.old }
    ensures bytes { Keeps (append_known (K.held sink.old) (drop sent.old (take len.old bytes.now)))
        (append_known (K.held sink.new) (drop sent.new (take len.new bytes.now))) }
    ensures cause { HasCause (K.faults sink.old) (K.faults sink.new) result }
{
    send_rest(sink, &bytes[..*len], sent)?;
    *sent = 0;
    *len = 0;
    Ok(())
}

// Writes a piece into a buffer from a place on, where it fits.
#[inline(always)]
fn write_at(buffer: &mut [u8], at: usize, piece: &[u8])
    requires { at + length piece.now ≤ length buffer.old }
    ensures { take (at + length piece.now) buffer.new ≡ take at buffer.old ++ piece.now }
{
    buffer[at..at + piece.len()].copy_from_slice(piece);
}

impl<K: Sink + Drop> Sink for GatheringSink<K> {
    ghost held = { λ s. append_known (K.held s.sink) s.gathered };

    ghost faults = { λ s. K.faults s.sink };

    ghost unsent = { λ s. K.unsent s.sink ++ s.gathered };

    fn put(&mut self, piece: &[u8]) -> Result<usize, Failed>
        requires { 0 < length piece.now }
        ensures some { IfOk result (λ count. 0 < count) }
        ensures room { IfOk result (λ count. count ≤ length piece.now) }
        ensures bytes { WriteAppends (append_known (K.held self.old.sink) self.old.gathered)
            (append_known (K.held self.new.sink) self.new.gathered) result piece.now }
        ensures cause { HasCause (K.faults self.old.sink) (K.faults self.new.sink) result }
    {
        if piece.len() > self.bytes.len() - self.len {
            send_on(
                &mut self.sink,
                self.bytes.as_slice(),
                &mut self.sent,
                &mut self.len,
            )?;
        }
        let count = piece.len().min(self.bytes.len() - self.len);
        write_at(&mut self.bytes, self.len, &piece[..count]);
        self.len += count;
        Ok(count)
    }

    fn flush(&mut self) -> Result<(), Failed>
        ensures bytes { Keeps (append_known (K.held self.old.sink) self.old.gathered)
            (append_known (K.held self.new.sink) self.new.gathered) }
        ensures cause { HasCause (K.faults self.old.sink) (K.faults self.new.sink) result }
        ensures sent { OnOk result (K.unsent self.new.sink ++ self.new.gathered ≡ []) }
    {
        send_on(
            &mut self.sink,
            self.bytes.as_slice(),
            &mut self.sent,
            &mut self.len,
        )?;
        self.sink.flush()
    }
}
