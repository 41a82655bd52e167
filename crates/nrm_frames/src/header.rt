//! The line at the head of a frame.
ghost use Rattle.std.specs.Prelude.{◌≡◌};
ghost use Rattle.nrm_frames.specs.Headers.{header_of, header_of_four, header_of_one, header_of_three, header_of_two};
ghost use Rattle.nrm_frames.specs.Headers.{place_in, size_in, size_of};

use crate::limits::{LAST_PLACE, MOST_PAYLOAD};
use crate::rights::{Rights, rights_of};
use nrm_stream::split_once;
use nrm_text::{Name, is_word, name_of, read_whole};

/// What a frame says.
#[derive(Clone, Copy, Debug, PartialEq, Eq)]
pub enum Header {
    /// Rows of the journal are given again, so many bytes.
    Again {
        size: u32,
    },
    /// A client is there, at a place that is free.
    Open {
        place: u16,
        name: Name,
        rights: Rights,
    },
    /// So many bytes came from the client at a place.
    Came {
        place: u16,
        size: u32,
    },
    /// The client at a place is gone.
    Gone {
        place: u16,
    },
    /// All rows that were given out are kept.
    Kept,
    /// That is all.
    End,
}

impl Header {
    /// How many bytes come behind the line.
    pub fn size(&self) -> usize
        ensures { result ≡ size_of self.now }
    {
        match self {
            Header::Again { size } | Header::Came { size, .. } => *size as usize,
            _ => 0,
        }
    }
}

// The place of a client.
fn place_of(word: &[u8]) -> Option<u16>
    ensures { result ≡ place_in word.now }
{
    match read_whole(word, LAST_PLACE) {
        Ok(place) => Some(place as u16),
        Err(_) => None,
    }
}

// How many bytes come behind the line.
fn size_of(word: &[u8]) -> Option<u32>
    ensures { result ≡ size_in word.now }
{
    match read_whole(word, MOST_PAYLOAD) {
        Ok(size) => Some(size as u32),
        Err(_) => None,
    }
}

// A header of one word.
fn header_of_one(word: &[u8]) -> Option<Header>
    ensures { result ≡ header_of_one word.now }
{
    if is_word(word, b"kept") {
        Some(Header::Kept)
    } else if is_word(word, b"end") {
        Some(Header::End)
    } else {
        None
    }
}

// A header of two words.
fn header_of_two(word: &[u8], next: &[u8]) -> Option<Header>
    ensures { result ≡ header_of_two word.now next.now }
{
    if is_word(word, b"gone") {
        Some(Header::Gone {
            place: place_of(next)?,
        })
    } else if is_word(word, b"again") {
        Some(Header::Again {
            size: size_of(next)?,
        })
    } else {
        None
    }
}

// A header of three words.
fn header_of_three(word: &[u8], place: &[u8], size: &[u8]) -> Option<Header>
    ensures { result ≡ header_of_three word.now place.now size.now }
{
    if is_word(word, b"came") {
        Some(Header::Came {
            place: place_of(place)?,
            size: size_of(size)?,
        })
    } else {
        None
    }
}

// A header of four words.
fn header_of_four(word: &[u8], place: &[u8], name: &[u8], rights: &[u8]) -> Option<Header>
    ensures { result ≡ header_of_four word.now place.now name.now rights.now }
{
    if is_word(word, b"open") {
        Some(Header::Open {
            place: place_of(place)?,
            name: name_of(name)?,
            rights: rights_of(rights)?,
        })
    } else {
        None
    }
}

/// The header that a line is, if it is one; the line has no line feed.
pub fn header_of(line: &[u8]) -> Option<Header>
    ensures { result ≡ header_of line.now }
{
    let Some((first, rest)) = split_once(line, b' ') else {
        return header_of_one(line);
    };
    let Some((second, rest)) = split_once(rest, b' ') else {
        return header_of_two(first, rest);
    };
    let Some((third, rest)) = split_once(rest, b' ') else {
        return header_of_three(first, second, rest);
    };
    match split_once(rest, b' ') {
        None => header_of_four(first, second, third, rest),
        Some(_) => None,
    }
}
