//! A line of a text without a quote. Its fields are lent where they stand: it keeps where the first of them start, as many as a row
//! that is taken may have, and counts the others.
ghost use Rattle.std.specs.Prelude.{◌≡◌, length, not};
ghost use Rattle.nrm_network.specs.Inner.Lines.{Marks, ends_line, line_fields, line_of};

use nrm_model::MOST_PERIODS;
use std::marker::Model;

/// The most fields that a row which is taken may have: a demand row's, where there are the most periods.
pub(crate) const MOST_FIELDS: usize = 3 + MOST_PERIODS as usize;

// How many starts a line keeps: those of its first fields, and the place after the comma behind them.
const PLACES: usize = MOST_FIELDS + 1;

/// A line's text, how many fields it has, and where the first of them start. Behind each field stands one byte, a comma or the
/// end of the line.
#[derive(Drop)]
pub(crate) struct Line<'a> {
    text: &'a [u8],
    count: usize,
    starts: [usize; PLACES],
}

impl<'a> Model for Line<'a> {
    ghost use Rattle.std.specs.Prelude.{ℕ, List, ◌+◌, ◌≡◌, length};
    ghost use Rattle.nrm_network.specs.Inner.Lines.{Held, line_fields};
    ghost use Rattle.nrm_network.specs.declared.line.TheConstants.{PLACES};

    ghost Value = { List (List ℕ) };

    ghost view = { λ line. line_fields line.text.now };

    ghost invariant = { λ line. (line.count ≡ length (line_fields line.text.now)) × (length line.starts ≡ PLACES)
        × Held line.text.now (length line.text.now + 1) (line_fields line.text.now) line.starts };
}

impl<'a> Line<'a> {
    ghost use Rattle.std.specs.Prelude.{◌≡◌, ◌<◌, length};
    ghost use Rattle.nrm_network.specs.Rows.{field};

    /// How many fields there are.
    pub(crate) fn len(&self) -> usize
        ensures { result ≡ length self.now }
    {
        self.count
    }

    /// One of the first fields, counted from 0; past the last one it is empty.
    pub(crate) fn field(&self, i: usize) -> &'a [u8]
        requires { i < MOST_FIELDS }
        ensures { result.now ≡ field self.now i }
    {
        if i < self.count {
            &self.text[self.starts[i]..self.starts[i + 1] - 1]
        } else {
            &[]
        }
    }
}

/// Whether a byte ends a line.
pub(crate) fn ends_line(byte: u8) -> bool
    ensures { result ≡ ends_line byte }
{
    byte == b'\r' || byte == b'\n'
}

// Whether a line goes on with a byte. Most bytes are above the comma, and are told by that alone.
#[inline(always)]
fn goes_on(byte: u8) -> bool
    ensures { ends_line byte ≡ not result }
{
    byte > b',' || !ends_line(byte)
}

// Writes where a field starts, if its place is one of those that are kept.
fn mark(starts: &mut [usize; PLACES], count: usize, start: usize)
    ensures { Marks starts.old starts.new count start }
{
    if count < PLACES {
        starts[count] = start;
    }
}

/// The line at the front of these bytes, and how long it is.
pub(crate) fn first_line(bytes: &[u8]) -> (Line<'_>, usize)
    ensures fields { result.0 ≡ line_fields (line_of bytes.now) }
    ensures length { result.1 ≡ length (line_of bytes.now) }
{
    let mut starts = [0; PLACES];
    let mut count = 0;
    let mut end = 0;
    while end < bytes.len() && goes_on(bytes[end]) {
        if bytes[end] == b',' {
            count += 1;
            mark(&mut starts, count, end + 1);
        }
        end += 1;
    }
    count += 1;
    mark(&mut starts, count, end + 1);
    let text = &bytes[..end];
    (
        Line {
            text,
            count,
            starts,
        },
        end,
    )
}
