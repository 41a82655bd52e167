//! Commands as they are read: lower-case words with one space between each two, and one carriage return dropped at the
//! end of the line.
ghost use Rattle.std.specs.Prelude.{◌≡◌, ◌==◌, ◌∷◌, codes, Some};
ghost use Rattle.std.specs.List.{list_any, slice_split};
ghost use Rattle.std.specs.Str.Lines.{strip_carriage_return};
ghost use Rattle.std.specs.Option.{option_map_or};
ghost use Rattle.nrm_text.specs.Numbers.{whole_between};
ghost use Rattle.nrm_stream.specs.Commands.{booking_of, command_of, command_of_words, IsCommand, one_word};
ghost use Rattle.nrm_stream.specs.declared.command.Command.TheVariants as command;

use crate::Command;
use crate::cut::split_once;
use nrm_model::{LAST_BOOKING, MOST_PARTY};
use nrm_text::{Name, is_word, name_before, name_of, read_whole};

// The last period that a line may name: two digits, whatever the network has.
const LAST_PERIOD: u64 = 99;

/// The line without one carriage return at its end.
pub fn without_carriage_return(line: &[u8]) -> &[u8]
    ensures { result.now ≡ strip_carriage_return line.now }
{
    match line {
        [front @ .., b'\r'] => front,
        _ => line,
    }
}

// A command of one word.
fn command_of_one(word: &[u8]) -> Command
    ensures command { result ≡ one_word word.now }
    ensures within { IsCommand result }
{
    if is_word(word, b"hindsight") {
        Command::Hindsight
    } else if is_word(word, b"plan") {
        Command::Plan
    } else {
        Command::Bad
    }
}

// A cancellation, by the bytes of its number.
#[inline(always)]
fn cancellation(number: &[u8]) -> Command
    ensures command { result ≡ option_map_or command.Cancel (whole_between 0 LAST_BOOKING number.now) command.Bad }
    ensures within { IsCommand result }
{
    match read_whole(number, LAST_BOOKING) {
        Ok(number) => Command::Cancel { number },
        Err(_) => Command::Bad,
    }
}

// What a request asks for, of a product and by the bytes of its party.
#[inline(always)]
fn booking(product: &Name, party: &[u8]) -> Command
    ensures command { result ≡ booking_of (Some product.now) (whole_between 1 MOST_PARTY party.now) }
    ensures within { IsCommand result }
{
    match read_whole(party, u64::from(MOST_PARTY)) {
        Ok(party) if party >= 1 => Command::Book {
            product: *product,
            party: party as u16,
        },
        _ => Command::Bad,
    }
}

// What a line asks for that begins with `book` and a space. A party with a space in it is no number.
#[inline(always)]
fn booking_in(rest: &[u8]) -> Command
    ensures command { result ≡ command_of_words (codes "book" ∷ slice_split (λ c. c == 32) rest.now) }
    ensures within { IsCommand result }
{
    match name_before(rest, b' ') {
        Some(cut) => booking(&cut.0, cut.1),
        None => Command::Bad,
    }
}

// What a line asks for that begins with `cancel` and a space. A number has no space in it.
#[inline(always)]
fn cancellation_in(rest: &[u8]) -> Command
    ensures command { result ≡ command_of_words (codes "cancel" ∷ slice_split (λ c. c == 32) rest.now) }
    ensures within { IsCommand result }
{
    cancellation(rest)
}

// What a line asks for that begins with `leg` and a space. A name has no space in it.
fn leg_in(rest: &[u8]) -> Command
    ensures command { result ≡ command_of_words (codes "leg" ∷ slice_split (λ c. c == 32) rest.now) }
    ensures within { IsCommand result }
{
    match name_of(rest) {
        Some(name) => Command::Leg { name },
        None => Command::Bad,
    }
}

// What a line asks for that begins with `reoptimise` and a space. A number has no space in it.
fn reoptimisation_in(rest: &[u8]) -> Command
    ensures command { result ≡ command_of_words (codes "reoptimise" ∷ slice_split (λ c. c == 32) rest.now) }
    ensures within { IsCommand result }
{
    match read_whole(rest, LAST_PERIOD) {
        Ok(period) if period >= 1 => Command::Reoptimise {
            period: period as u8,
        },
        _ => Command::Bad,
    }
}

// Whether a word that a line may begin with has this first byte.
fn begins_word(first: u8) -> bool
    ensures { result ≡ list_any (λ c. c == first) (codes "bchlpr") }
{
    matches!(first, b'b' | b'c' | b'h' | b'l' | b'p' | b'r')
}

// What the words of a line ask for: what follows the first has no space in it, but for a request's.
#[inline(never)]
fn command_by_words(line: &[u8]) -> Command
    ensures command { result ≡ command_of_words (slice_split (λ c. c == 32) line.now) }
    ensures within { IsCommand result }
{
    let Some((word, rest)) = split_once(line, b' ') else {
        return command_of_one(line);
    };
    if is_word(word, b"reoptimise") {
        reoptimisation_in(rest)
    } else if is_word(word, b"leg") {
        leg_in(rest)
    } else if is_word(word, b"cancel") {
        cancellation_in(rest)
    } else if is_word(word, b"book") {
        booking_in(rest)
    } else {
        Command::Bad
    }
}

// The same. A line is bad whose first byte begins no word that is known.
fn command_in_words(line: &[u8]) -> Command
    ensures command { result ≡ command_of_words (slice_split (λ c. c == 32) line.now) }
    ensures within { IsCommand result }
{
    let Some((first, _)) = line.split_first() else {
        return Command::Bad;
    };
    if begins_word(*first) {
        command_by_words(line)
    } else {
        Command::Bad
    }
}

// The same. The words of most lines are told by their first bytes.
fn command_in(line: &[u8]) -> Command
    ensures command { result ≡ command_of_words (slice_split (λ c. c == 32) line.now) }
    ensures within { IsCommand result }
{
    match line {
        [b'b', b'o', b'o', b'k', b' ', rest @ ..] => booking_in(rest),
        [b'c', b'a', b'n', b'c', b'e', b'l', b' ', rest @ ..] => cancellation_in(rest),
        [b'l', b'e', b'g', b' ', rest @ ..] => leg_in(rest),
        _ => command_in_words(line),
    }
}

/// What a line asks for; the line has no line feed.
pub fn command_of(line: &[u8]) -> Command
    ensures command { result ≡ command_of line.now }
    ensures within { IsCommand result }
{
    command_in(without_carriage_return(line))
}
