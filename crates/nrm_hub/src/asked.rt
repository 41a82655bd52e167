//! What a line of a client asks of the hub, and whether the client may.
ghost use Rattle.std.specs.Prelude.{◌≡◌, ◌==◌, IfSome, Some, true};
ghost use Rattle.std.specs.List.{slice_split};
ghost use Rattle.nrm_hub.specs.Asked.{allows, asked_in, asked_of_three, asked_of_two, asked_of_words, is_change, is_desk, owner_of};
ghost use Rattle.nrm_hub.specs.Inner.Asking.{IsAsked};
ghost use Rattle.nrm_hub.specs.declared.limits.TheConstants.{LAST_SEQUENCE};

use crate::limits::LAST_SEQUENCE;
use nrm_frames::Rights;
use nrm_stream::{Command, command_of, split_once, without_carriage_return};
use nrm_text::{Name, is_word, name_of, read_whole};

/// What a line asks for.
#[derive(Clone, Copy, Debug, PartialEq, Eq)]
pub(crate) enum Asked {
    /// To be a desk, whose next line has this number, or the next one that the desk has.
    Greeting { name: Name, number: Option<u64> },
    /// How many seats of a product could be had.
    Ask { product: Name },
    /// What a session can be asked.
    Says { command: Command },
}

// A greeting, or a question for seats, of two words.
fn asked_of_two(word: &[u8], name: &[u8]) -> Option<Asked>
    ensures asked { result ≡ asked_of_two word.now name.now }
    ensures within { IfSome result IsAsked }
{
    if is_word(word, b"desk") {
        Some(Asked::Greeting {
            name: name_of(name)?,
            number: None,
        })
    } else if is_word(word, b"ask") {
        Some(Asked::Ask {
            product: name_of(name)?,
        })
    } else {
        None
    }
}

// A greeting with a number.
fn asked_of_three(word: &[u8], name: &[u8], number: &[u8]) -> Option<Asked>
    ensures asked { result ≡ asked_of_three word.now name.now number.now }
    ensures within { IfSome result IsAsked }
{
    if !is_word(word, b"desk") {
        return None;
    }
    match (name_of(name), read_whole(number, LAST_SEQUENCE)) {
        (Some(name), Ok(number)) if number >= 1 => Some(Asked::Greeting {
            name,
            number: Some(number),
        }),
        _ => None,
    }
}

// What the words of a line ask of the hub itself.
fn asked_of_words(line: &[u8]) -> Option<Asked>
    ensures asked { result ≡ asked_of_words (slice_split (λ c. c == 32) line.now) }
    ensures within { IfSome result IsAsked }
{
    let (first, rest) = split_once(line, b' ')?;
    let Some((second, rest)) = split_once(rest, b' ') else {
        return asked_of_two(first, rest);
    };
    match split_once(rest, b' ') {
        None => asked_of_three(first, second, rest),
        Some(_) => None,
    }
}

// What a line asks of the hub itself: nothing, unless it begins as those words do.
fn asked_of_hub(line: &[u8]) -> Option<Asked>
    ensures asked { result ≡ asked_of_words (slice_split (λ c. c == 32) line.now) }
    ensures within { IfSome result IsAsked }
{
    match line {
        [b'a' | b'd', ..] => asked_of_words(line),
        _ => None,
    }
}

/// What a line asks for; the line has no line feed.
pub(crate) fn asked_in(line: &[u8]) -> Asked
    ensures asked { result ≡ asked_in line.now }
    ensures within { IsAsked result }
{
    match asked_of_hub(without_carriage_return(line)) {
        Some(asked) => asked,
        None => Asked::Says {
            command: command_of(line),
        },
    }
}

/// Whether a line of this command may change something, so that it has a row in the journal.
pub(crate) fn is_change(command: &Command) -> bool
    ensures { result ≡ is_change command.now }
{
    matches!(
        command,
        Command::Book { .. } | Command::Cancel { .. } | Command::Reoptimise { .. }
    )
}

// The desk that a booking was sold to.
fn owner_of(owners: &[u32], number: u64) -> Option<u32>
    ensures { result ≡ owner_of owners.now number }
{
    if number == 0 {
        return None;
    }
    owners.get((number - 1) as usize).copied()
}

// Whether a booking was sold to this desk.
fn is_own(owners: &[u32], desk: u32, number: u64) -> bool
    ensures { result ≡ is_desk desk (owner_of owners.now number) }
{
    match owner_of(owners, number) {
        Some(owner) => owner == desk,
        None => false,
    }
}

/// Whether a desk may have this command carried out.
pub(crate) fn allows(rights: Rights, owners: &[u32], desk: u32, command: &Command) -> bool
    ensures { result ≡ allows rights owners.now desk command.now }
{
    match command {
        Command::Book { .. } => rights.book,
        Command::Cancel { number } => {
            rights.cancel_any || rights.cancel_own && is_own(owners, desk, *number)
        }
        Command::Reoptimise { .. } => rights.plan,
        Command::Leg { .. } | Command::Hindsight | Command::Plan => rights.look,
        Command::Bad => true,
    }
}
