//! What a client may do.
ghost use Rattle.std.specs.Prelude.{◌≡◌};
ghost use Rattle.nrm_frames.specs.Headers.{rights_in, with_right};

use nrm_stream::split_once;
use nrm_text::is_word;

/// What a client may do.
#[derive(Clone, Copy, Debug, PartialEq, Eq)]
pub struct Rights {
    /// Ask how things stand: `leg`, `plan`, `hindsight` and `ask`.
    pub look: bool,
    /// Ask for seats.
    pub book: bool,
    /// Cancel what its own desk booked.
    pub cancel_own: bool,
    /// Cancel any booking.
    pub cancel_any: bool,
    /// Have prices and protections worked out again.
    pub plan: bool,
    /// Be another desk than the one that the relay names.
    pub greet: bool,
}

// These rights and one more, by its word.
fn with_right(rights: Rights, word: &[u8]) -> Option<Rights>
    ensures { result ≡ with_right rights word.now }
{
    if is_word(word, b"look") {
        Some(Rights {
            look: true,
            ..rights
        })
    } else if is_word(word, b"book") {
        Some(Rights {
            book: true,
            ..rights
        })
    } else if is_word(word, b"cancel-own") {
        Some(Rights {
            cancel_own: true,
            ..rights
        })
    } else if is_word(word, b"cancel-any") {
        Some(Rights {
            cancel_any: true,
            ..rights
        })
    } else if is_word(word, b"plan") {
        Some(Rights {
            plan: true,
            ..rights
        })
    } else if is_word(word, b"greet") {
        Some(Rights {
            greet: true,
            ..rights
        })
    } else if is_word(word, b"none") {
        Some(rights)
    } else {
        None
    }
}

/// The rights of a word: `look`, `book`, `cancel-own`, `cancel-any`, `plan`, `greet` and `none`, joined by commas. `None` for
/// every other word.
pub fn rights_of(word: &[u8]) -> Option<Rights>
    ensures { result ≡ rights_in word.now }
{
    let mut rights = Rights {
        look: false,
        book: false,
        cancel_own: false,
        cancel_any: false,
        plan: false,
        greet: false,
    };
    let mut rest = word;
    while let Some((first, behind)) = split_once(rest, b',') {
        rights = with_right(rights, first)?;
        rest = behind;
    }
    with_right(rights, rest)
}
