//! Bytes cut at the first byte of a kind.
ghost use Rattle.std.specs.Prelude.{◌≡◌, ◌==◌, ◌+◌, ◌<◌, ◌≤◌, ◌∷◌, [], drop, length, not, take, MatchOption, position};
ghost use Rattle.std.specs.List.{prefix_len, slice_split};

use std::simd::prelude::*;

// How many bytes are looked at together.
const LANES: usize = 16;

// How many of the next sixteen bytes stand before the first such byte: all of them where there is none.
fn lanes_before(bytes: &[u8], at: usize, wanted: u8) -> usize
    requires { at + 16 ≤ length bytes.now }
    ensures { result ≡ prefix_len (λ c. not (c == wanted)) (take 16 (drop at bytes.now)) }
{
    let marks = u8x16::from_slice(&bytes[at..])
        .simd_eq(u8x16::splat(wanted))
        .to_bitmask();
    if marks == 0 {
        LANES
    } else {
        marks.trailing_zeros() as usize
    }
}

// The place of the first such byte, one byte after another.
fn first_by_one(bytes: &[u8], wanted: u8) -> Option<usize>
    ensures { result ≡ position (λ c. c == wanted) bytes.now }
{
    bytes.iter().position(|c| *c == wanted)
}

// The place of the first such byte.
pub(crate) fn first_at(bytes: &[u8], wanted: u8) -> Option<usize>
    ensures { result ≡ position (λ c. c == wanted) bytes.now }
{
    let mut at = 0;
    while bytes.len() - at >= LANES {
        let before = lanes_before(bytes, at, wanted);
        if before < LANES {
            return Some(at + before);
        }
        at += LANES;
    }
    match first_by_one(&bytes[at..], wanted) {
        Some(place) => Some(at + place),
        None => None,
    }
}

/// The bytes before the first such byte, and those after it. `None` exactly where there is none.
pub fn split_once(bytes: &[u8], wanted: u8) -> Option<(&[u8], &[u8])>
    ensures { MatchOption result (slice_split (λ c. c == wanted) bytes.now ≡ bytes.now ∷ [])
        (λ cut. (slice_split (λ c. c == wanted) bytes.now ≡ cut.0.now ∷ slice_split (λ c. c == wanted) cut.1.now)
        × (length cut.1.now < length bytes.now)) }
{
    match first_at(bytes, wanted) {
        Some(end) => Some((&bytes[..end], &bytes[end + 1..])),
        None => None,
    }
}
