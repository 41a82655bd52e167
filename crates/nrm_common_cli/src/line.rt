//! The line that says why there is no network, that of a linear program that is too large, and sending a line.
ghost use Rattle.std.specs.Prelude.{◌≡◌, [], OnErr, OnOk};
ghost use Rattle.std.specs.Io.KnownBytes.{Appends};
ghost use Rattle.nrm_edge.specs.Causes.{HasCause};
ghost use Rattle.nrm_edge.specs.Pieces.{AppendsCut};
ghost use Rattle.nrm_common_cli.specs.NetworkFile.{reason_line};
ghost use Rattle.nrm_common_cli.specs.Refusals.{at_row, refusal_line};
ghost use Rattle.nrm_common_cli.specs.Words.{overflow_line};

use crate::network_file::NoNetwork;
use nrm_edge::{Failed, Sink, put_all};
use nrm_network::Why;
use nrm_text::Line;

// The line that says at which row a network file is refused, and why.
#[tactic(auto, using(nrm_text::proofs::Decimals::short_decimal))]
fn line_at_row(row: u32, why: Why) -> Line
    ensures { result ≡ refusal_line (at_row row why) }
{
    let mut line = Line::of_bytes(b"refused row ");
    line.push_whole(u128::from(row));
    line.push_bytes(b" why ");
    line.push_bytes(why.text());
    line.push_bytes(b"\n");
    line
}

impl NoNetwork {
    /// The line that says why there is no network. `None` exactly if memory runs out, of which nothing is written.
    pub fn line(self) -> Option<Line>
        ensures { result ≡ reason_line self }
    {
        match self {
            NoNetwork::Absent => Some(Line::of_bytes(b"refused no file\n")),
            NoNetwork::Refused { row, why } => Some(line_at_row(row, why)),
            NoNetwork::Fault => Some(Line::of_bytes(b"file fault\n")),
            NoNetwork::NoMemory => None,
        }
    }
}

/// The line that says that an opening linear program is too large: after so many finished pivots (4,294,967,295 stands for more), at
/// this number, the first that reached the limit in size.
#[tactic(auto, using(nrm_text::proofs::Decimals::short_decimal, nrm_text::proofs::Fractions::short_signed))]
pub fn line_of_overflow(pivots: u32, number: i128) -> Line
    ensures { result ≡ overflow_line pivots number }
{
    let mut line = Line::of_bytes(b"overflow after ");
    line.push_u64(u64::from(pivots));
    line.push_bytes(b" pivots at ");
    line.push_signed(number);
    line.push_bytes(b"\n");
    line
}

/// Puts a whole line, which brings its own line feed, and sends it on.
///
/// # Errors
/// `Failed` if a put fails, after a front of the line that isn't all of it, or if sending it on fails, after the whole line.
pub fn send_line<K: Sink>(sink: &mut K, line: &[u8]) -> Result<(), Failed>
    ensures whole { OnOk result (Appends (K.held sink.old) (K.held sink.new) line.now) }
    ensures cut { OnErr result (AppendsCut (K.held sink.old) (K.held sink.new) line.now) }
    ensures sent { OnOk result (K.unsent sink.new ≡ []) }
    ensures cause { HasCause (K.faults sink.old) (K.faults sink.new) result }
{
    put_all(sink, line)?;
    sink.flush()
}
