//! Frames as they are put.
ghost use Rattle.std.specs.Prelude.{◌++◌, OnErr, OnOk};
ghost use Rattle.std.specs.Io.KnownBytes.{Appends};
ghost use Rattle.nrm_edge.specs.Causes.{HasCause};
ghost use Rattle.nrm_edge.specs.Pieces.{AppendsFront};
ghost use Rattle.nrm_frames.specs.Outgoing.{close, differs, keep, no_row, output_text, ready, send};

use crate::why::Why;
use nrm_edge::{Failed, Sink, put_all};
use nrm_text::Text;

// The most bytes of the line of a frame that is put.
const ROOM: usize = 80;

// Puts the line of a frame, and the bytes behind it.
fn put_with<K: Sink>(sink: &mut K, line: &[u8], payload: &[u8]) -> Result<(), Failed>
    ensures whole { OnOk result (Appends (K.held sink.old) (K.held sink.new) (line.now ++ payload.now)) }
    ensures cut { OnErr result (AppendsFront (K.held sink.old) (K.held sink.new) (line.now ++ payload.now)) }
    ensures cause { HasCause (K.faults sink.old) (K.faults sink.new) result }
{
    put_all(sink, line)?;
    put_all(sink, payload)
}

/// Puts that the journal was given again, and has so many rows.
///
/// # Errors
/// A put failed; a front of the frame went out. So it is of each of these calls.
#[tactic(auto, using(nrm_text::proofs::Decimals::short_decimal))]
pub fn put_ready<K: Sink>(sink: &mut K, rows: u64) -> Result<(), Failed>
    ensures whole { OnOk result (Appends (K.held sink.old) (K.held sink.new) (output_text (ready rows))) }
    ensures cut { OnErr result (AppendsFront (K.held sink.old) (K.held sink.new) (output_text (ready rows))) }
    ensures cause { HasCause (K.faults sink.old) (K.faults sink.new) result }
{
    let mut line = Text::<ROOM>::of_bytes(b"ready ");
    line.push_u64(rows);
    line.push_bytes(b"\n");
    put_all(sink, line.bytes())
}

/// Puts rows that are to be kept.
#[tactic(auto, using(nrm_text::proofs::Decimals::short_decimal))]
pub fn put_keep<K: Sink>(sink: &mut K, rows: &[u8]) -> Result<(), Failed>
    ensures whole { OnOk result (Appends (K.held sink.old) (K.held sink.new) (output_text (keep rows.now))) }
    ensures cut { OnErr result (AppendsFront (K.held sink.old) (K.held sink.new) (output_text (keep rows.now))) }
    ensures cause { HasCause (K.faults sink.old) (K.faults sink.new) result }
{
    let mut line = Text::<ROOM>::of_bytes(b"keep ");
    line.push_u64(rows.len() as u64);
    line.push_bytes(b"\n");
    put_with(sink, line.bytes(), rows)
}

/// Puts bytes for the client at a place, and how many of its own have been used since the last such frame.
#[tactic(auto, using(nrm_text::proofs::Decimals::short_decimal))]
pub fn put_send<K: Sink>(sink: &mut K, place: u16, used: u64, bytes: &[u8]) -> Result<(), Failed>
    ensures whole { OnOk result (Appends (K.held sink.old) (K.held sink.new) (output_text (send place used bytes.now))) }
    ensures cut { OnErr result (AppendsFront (K.held sink.old) (K.held sink.new) (output_text (send place used bytes.now))) }
    ensures cause { HasCause (K.faults sink.old) (K.faults sink.new) result }
{
    let mut line = Text::<ROOM>::of_bytes(b"send");
    line.push_spaced(u64::from(place));
    line.push_spaced(used);
    line.push_spaced(bytes.len() as u64);
    line.push_bytes(b"\n");
    put_with(sink, line.bytes(), bytes)
}

/// Puts that the client at a place is closed. The place is free then.
#[tactic(auto, using(nrm_text::proofs::Decimals::short_decimal))]
pub fn put_close<K: Sink>(sink: &mut K, place: u16, why: Why) -> Result<(), Failed>
    ensures whole { OnOk result (Appends (K.held sink.old) (K.held sink.new) (output_text (close place why))) }
    ensures cut { OnErr result (AppendsFront (K.held sink.old) (K.held sink.new) (output_text (close place why))) }
    ensures cause { HasCause (K.faults sink.old) (K.faults sink.new) result }
{
    let mut line = Text::<ROOM>::of_bytes(b"close");
    line.push_spaced(u64::from(place));
    line.push_bytes(b" ");
    line.push_bytes(why.word());
    line.push_bytes(b"\n");
    put_all(sink, line.bytes())
}

/// Puts that a row that was given again is none.
#[tactic(auto, using(nrm_text::proofs::Decimals::short_decimal))]
pub fn put_no_row<K: Sink>(sink: &mut K, row: u64) -> Result<(), Failed>
    ensures whole { OnOk result (Appends (K.held sink.old) (K.held sink.new) (output_text (no_row row))) }
    ensures cut { OnErr result (AppendsFront (K.held sink.old) (K.held sink.new) (output_text (no_row row))) }
    ensures cause { HasCause (K.faults sink.old) (K.faults sink.new) result }
{
    let mut line = Text::<ROOM>::of_bytes(b"no row ");
    line.push_u64(row);
    line.push_bytes(b"\n");
    put_all(sink, line.bytes())
}

/// Puts that a row that was given again isn't what the program answers.
#[tactic(auto, using(nrm_text::proofs::Decimals::short_decimal))]
pub fn put_differs<K: Sink>(sink: &mut K, row: u64) -> Result<(), Failed>
    ensures whole { OnOk result (Appends (K.held sink.old) (K.held sink.new) (output_text (differs row))) }
    ensures cut { OnErr result (AppendsFront (K.held sink.old) (K.held sink.new) (output_text (differs row))) }
    ensures cause { HasCause (K.faults sink.old) (K.faults sink.new) result }
{
    let mut line = Text::<ROOM>::of_bytes(b"differs ");
    line.push_u64(row);
    line.push_bytes(b"\n");
    put_all(sink, line.bytes())
}
