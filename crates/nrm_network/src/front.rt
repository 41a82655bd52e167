//! A row of demand of the product whose demand was given last, as most rows are. Where it is in order it is read off the text in one pass;
//! any other row is a line like all.
ghost use Rattle.std.specs.Prelude.{◌≡◌, ◌≤◌, ◌+◌, ◌∷◌, ◌++◌, take, true, MatchOption, ⊤};
ghost use Rattle.std.specs.Char.{is_ascii_digit};
ghost use Rattle.nrm_network.specs.Inner.Front.{DemandAtFront, NumberAtFront, SeatsAtFront, is_over};

use crate::entry::Counts;
use crate::line::ends_line;
use nrm_text::Name;

// What a digit at the front of these bytes stands for, and what is behind it.
#[inline(always)]
fn digit_at_front(bytes: &[u8]) -> Option<(u16, &[u8])>
    ensures { MatchOption result ⊤ (λ read. (is_ascii_digit (read.0 + 48) ≡ true) × (bytes.now ≡ (read.0 + 48) ∷ read.1.now)) }
{
    match bytes.split_first() {
        Some((first, behind)) if first.is_ascii_digit() => Some((u16::from(*first - b'0'), behind)),
        _ => None,
    }
}

// The number of three digits at most at the front of these bytes, and what is behind it.
#[inline(always)]
fn number_at_front(bytes: &[u8]) -> Option<(u16, &[u8])>
    ensures { MatchOption result ⊤ (λ read. NumberAtFront bytes.now read.0 read.1.now) }
{
    let (mut number, mut left) = digit_at_front(bytes)?;
    while 0 < number && number < 100 {
        let Some((ones, behind)) = digit_at_front(left) else {
            return Some((number, left));
        };
        number = number * 10 + ones;
        left = behind;
    }
    Some((number, left))
}

// What is behind a comma at the front of these bytes.
#[inline(always)]
fn behind_comma(bytes: &[u8]) -> Option<&[u8]>
    ensures { MatchOption result ⊤ (λ behind. bytes.now ≡ 44 ∷ behind.now) }
{
    match bytes.split_first() {
        Some((first, behind)) if *first == b',' => Some(behind),
        _ => None,
    }
}

// Whether a line has no byte more.
fn is_over(bytes: &[u8]) -> bool
    ensures { result ≡ is_over bytes.now }
{
    match bytes.split_first() {
        Some((first, _)) => ends_line(*first),
        None => true,
    }
}

// Writes the numbers of the first line, if they are as many and none is above 999, and gives what is behind the line.
fn seats_at_front<'a>(bytes: &'a [u8], seats: &mut [u16]) -> Option<&'a [u8]>
    ensures { MatchOption result ⊤ (λ behind. SeatsAtFront bytes.now seats.new behind.now) }
{
    let last = seats.len().checked_sub(1)?;
    let mut left = bytes;
    for i in 0..last {
        let (number, behind) = number_at_front(left)?;
        seats[i] = number;
        left = behind_comma(behind)?;
    }
    let (number, behind) = number_at_front(left)?;
    if !is_over(behind) {
        return None;
    }
    seats[last] = number;
    Some(behind)
}

// What is behind these bytes and a comma, if it begins with them.
fn behind_field<'a>(bytes: &'a [u8], field: &[u8]) -> Option<&'a [u8]>
    ensures { MatchOption result ⊤ (λ behind. bytes.now ≡ field.now ++ 44 ∷ behind.now) }
{
    let rest = bytes.strip_prefix(field)?;
    let behind = behind_comma(rest)?;
    Some(behind)
}

/// The history of a row of demand that is the first line of these bytes, and what is behind the line, if the row is of this product, fits
/// what was read before, and no number in it is above 999. Its seats are written at these places.
pub(crate) fn demand_at_front<'a>(
    counts: Counts,
    product: &Name,
    bytes: &'a [u8],
    places: &mut [u16; 16],
) -> Option<(u8, &'a [u8])>
    requires { counts.periods ≤ 16 }
    ensures { MatchOption result ⊤ (λ read. DemandAtFront counts product.now bytes.now (take counts.periods places.new) read.0 read.1.now) }
{
    let named = behind_field(bytes, b"demand")?;
    let numbers = behind_field(named, product.bytes())?;
    let (history, listed) = number_at_front(numbers)?;
    if history == 0 || u16::from(counts.histories) < history {
        return None;
    }
    let places = &mut places[..counts.periods as usize];
    let behind = seats_at_front(behind_comma(listed)?, places)?;
    Some((history as u8, behind))
}
