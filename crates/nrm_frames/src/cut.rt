//! The first frame of some bytes.
ghost use Rattle.std.specs.Prelude.{◌≡◌, length, nat_lt};
ghost use Rattle.nrm_frames.specs.Cutting.{cut_of};
ghost use Rattle.nrm_frames.specs.Cuts.{IsCut};
ghost use Rattle.nrm_frames.specs.declared.limits.TheConstants.{MOST_HEADER};

use crate::header::{Header, header_of};
use crate::limits::MOST_HEADER;
use nrm_stream::split_once;

/// What some bytes begin with.
#[derive(Clone, Copy, Debug)]
pub enum Cut<'a> {
    /// A frame: its header, the bytes that came behind it, and what follows.
    Whole {
        header: Header,
        payload: &'a [u8],
        rest: &'a [u8],
    },
    /// The beginning of a frame, perhaps.
    Part,
    /// No frame.
    NoFrame,
}

// The line of a frame may have so many bytes.
fn is_short(line: &[u8]) -> bool
    ensures { result ≡ nat_lt (length line.now) MOST_HEADER }
{
    line.len() < MOST_HEADER
}

/// The first frame of these bytes, if they begin with one.
pub fn cut_frame(bytes: &[u8]) -> Cut<'_>
    ensures { IsCut (cut_of bytes.now) result }
{
    let Some((line, behind)) = split_once(bytes, b'\n') else {
        return if is_short(bytes) {
            Cut::Part
        } else {
            Cut::NoFrame
        };
    };
    if !is_short(line) {
        return Cut::NoFrame;
    }
    let Some(header) = header_of(line) else {
        return Cut::NoFrame;
    };
    let size = header.size();
    if behind.len() < size {
        return Cut::Part;
    }
    Cut::Whole {
        header,
        payload: &behind[..size],
        rest: &behind[size..],
    }
}
