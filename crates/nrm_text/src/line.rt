//! Lines that are written: a text in an array of as much room as its writer asks for, so that writing one takes no memory.
ghost use Rattle.std.specs.Prelude.{◌≡◌, ◌≤◌, ◌<◌, ◌^◌, ◌+◌, ◌++◌, [], ◌∷◌, length, take, decimal, unsigned_abs};
ghost use Rattle.nrm_fraction.specs.Fraction.{◌over◌};
ghost use Rattle.nrm_text.specs.Fractions.{sign_of, signed_text, fraction_text};
ghost use Rattle.nrm_text.specs.Words.{spaced};

use crate::Name;
use itoa::{Buffer, write_digits};
use nrm_number::gcd;
use std::marker::Model;

/// A line of at most 512 bytes.
pub type Line = Text<512>;

/// A text of at most `ROOM` bytes. Contracts see its bytes.
#[derive(Drop)]
pub struct Text<const ROOM: usize> {
    bytes: [u8; ROOM],
    len: usize,
}

impl<const ROOM: usize> Model for Text<ROOM> {
    ghost use Rattle.std.specs.Prelude.{ℕ, List, ◌≡◌, ◌≤◌, take, length};

    ghost Value = { List ℕ };

    ghost view = { λ text. take text.len text.bytes };

    ghost invariant = { λ text. (length text.bytes ≡ ROOM) × (text.len ≤ ROOM) };
}

// Writes a piece into a buffer from a place on, where it fits.
fn write_at(buffer: &mut [u8], at: usize, piece: &[u8])
    requires { at + length piece.now ≤ length buffer.old }
    ensures { take (at + length piece.now) buffer.new ≡ take at buffer.old ++ piece.now }
{
    buffer[at..at + piece.len()].copy_from_slice(piece);
}

// Writes a number into a buffer from a place on, where it fits, and gives the place behind it.
fn write_whole_at(buffer: &mut [u8], at: usize, number: u64) -> usize
    requires { at + length (decimal number) ≤ length buffer.old }
    ensures end { result ≡ at + length (decimal number) }
    ensures text { take result buffer.new ≡ take at buffer.old ++ decimal number }
{
    let end = at + digit_count(number);
    write_digits(number, buffer, end);
    end
}

// Writes a name into a buffer from a place on: always twelve bytes, of which those behind the name don't count.
fn write_name_at(buffer: &mut [u8], at: usize, name: &Name)
    requires { at + 12 ≤ length buffer.old }
    ensures text { take (at + length name.now) buffer.new ≡ take at buffer.old ++ name.now }
    ensures few { length name.now ≤ 12 }
{
    buffer[at..at + 12].copy_from_slice(name.padded());
}

// How many decimal digits a number has.
fn digit_count(number: u64) -> usize
    ensures { result ≡ length (decimal number) }
{
    match number.checked_ilog10() {
        Some(power) => power as usize + 1,
        None => 1,
    }
}

impl<const ROOM: usize> Text<ROOM> {
    /// An empty text.
    pub fn new() -> Text<ROOM>
        ensures text { result ≡ [] }
        ensures length { length result ≡ 0 }
    {
        Text {
            bytes: [0; ROOM],
            len: 0,
        }
    }

    /// A text of these bytes.
    pub fn of_bytes(bytes: &[u8]) -> Text<ROOM>
        requires { length bytes.now ≤ ROOM }
        ensures text { result ≡ bytes.now }
        ensures length { length result ≡ length bytes.now }
    {
        let mut text = Text::new();
        text.push_bytes(bytes);
        text
    }

    /// The bytes so far.
    pub fn bytes(&self) -> &[u8]
        ensures { result.now ≡ self.now }
    {
        let len = self.len;
        &self.bytes[..len]
    }

    /// Appends these bytes.
    pub fn push_bytes(&mut self, bytes: &[u8])
        requires { length self.old + length bytes.now ≤ ROOM }
        ensures text { self.new ≡ self.old ++ bytes.now }
        ensures length { length self.new ≡ length self.old + length bytes.now }
    {
        write_at(&mut self.bytes, self.len, bytes);
        self.len += bytes.len();
    }

    /// Appends a name. Twelve bytes are copied, however long it is.
    pub fn push_name(&mut self, name: &Name)
        requires { length self.old + 12 ≤ ROOM }
        ensures text { self.new ≡ self.old ++ name.now }
        ensures length { length self.new ≡ length self.old + length name.now }
        ensures few { length name.now ≤ 12 }
    {
        write_name_at(&mut self.bytes, self.len, name);
        self.len += name.len();
    }

    /// Appends a number of 64 bits in decimal digits. It is written to where it goes.
    pub fn push_u64(&mut self, number: u64)
        requires { length self.old + length (decimal number) ≤ ROOM }
        ensures text { self.new ≡ self.old ++ decimal number }
        ensures length { length self.new ≡ length self.old + length (decimal number) }
    {
        self.len = write_whole_at(&mut self.bytes, self.len, number);
    }

    /// Appends a number in decimal digits.
    pub fn push_whole(&mut self, number: u128)
        requires { length self.old + length (decimal number) ≤ ROOM }
        ensures text { self.new ≡ self.old ++ decimal number }
        ensures length { length self.new ≡ length self.old + length (decimal number) }
    {
        let mut digits = Buffer::new();
        self.push_bytes(digits.format(number).as_bytes());
    }

    // Appends `-` before a negative number.
    fn push_sign(&mut self, num: i128)
        requires { length self.old + length (sign_of num) ≤ ROOM }
        ensures text { self.new ≡ self.old ++ sign_of num }
        ensures length { length self.new ≡ length self.old + length (sign_of num) }
    {
        if num < 0 {
            self.push_bytes(b"-");
        }
    }

    /// Appends a whole number in decimal digits, with `-` before a negative one.
    pub fn push_signed(&mut self, number: i128)
        requires { length self.old + length (signed_text number) ≤ ROOM }
        ensures text { self.new ≡ self.old ++ signed_text number }
        ensures length { length self.new ≡ length self.old + length (signed_text number) }
    {
        self.push_sign(number);
        self.push_whole(number.unsigned_abs());
    }

    /// Appends a space and a number, for which there is room for twenty digits.
    #[tactic(auto, using(crate::proofs::Decimals::short_decimal))]
    pub fn push_spaced(&mut self, number: u64)
        requires { length self.old + 21 ≤ ROOM }
        ensures text { self.new ≡ self.old ++ spaced (decimal number) }
        ensures length { length self.new ≤ length self.old + 21 }
    {
        self.push_bytes(b" ");
        self.push_u64(number);
    }

    /// Appends a word and a count, each behind a space.
    pub fn push_count(&mut self, word: &[u8], count: u64)
        requires { length self.old + length word.now + 22 ≤ ROOM }
        ensures text { self.new ≡ self.old ++ spaced word.now ++ spaced (decimal count) }
        ensures length { length self.new ≤ length self.old + length word.now + 22 }
    {
        self.push_bytes(b" ");
        self.push_bytes(word);
        self.push_spaced(count);
    }

    // Appends the sign of the first number, then the second, `/` and the third.
    fn push_parts(&mut self, num: i128, top: u128, bottom: u128)
        requires { length self.old + (length (sign_of num) + length (decimal top) + 1 + length (decimal bottom)) ≤ ROOM }
        ensures { self.new ≡ self.old ++ (sign_of num ++ decimal top ++ 47 ∷ [] ++ decimal bottom) }
    {
        self.push_sign(num);
        self.push_whole(top);
        self.push_bytes(b"/");
        self.push_whole(bottom);
    }

    /// Appends a fraction as `n/d` in lowest terms, with `-` before a negative one; zero is `0/1`.
    pub fn push_fraction(&mut self, num: i128, den: u128)
        requires den { 1 ≤ den }
        requires num_size { unsigned_abs num < 2 ^ 126 }
        requires den_size { den < 2 ^ 126 }
        requires room { length self.old + length (fraction_text (num over den)) ≤ ROOM }
        ensures text { self.new ≡ self.old ++ fraction_text (num over den) }
        ensures length { length self.new ≡ length self.old + length (fraction_text (num over den)) }
    {
        let size = num.unsigned_abs();
        let shared = gcd(size, den);
        self.push_parts(num, size / shared, den / shared);
    }
}
