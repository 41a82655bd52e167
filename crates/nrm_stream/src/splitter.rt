//! Lines of a stream that comes in pieces. Of a line that isn't ended yet no more is kept than its command can depend on: a
//! line of more than 22 bytes is bad, whatever they are.
ghost use Rattle.std.specs.Prelude.{◌≡◌, ◌++◌, ◌↔◌, ℕ, List, [], IfSome, IsTrue};
ghost use Rattle.nrm_stream.specs.Commands.{command_of, IsCommand};
ghost use Rattle.nrm_stream.specs.Splitting.{kept_of};
ghost use Rattle.nrm_stream.specs.Cuts.{CallFeeds, CallFinishes};

use crate::Command;
use crate::cut::first_at;
use crate::parse::command_of;
use std::marker::Model;

// The length of the longest good line, with its carriage return.
const LONGEST_LINE: usize = 22;

/// An unfinished line: its bytes, or only that it is longer than 22 bytes, the length of the longest good line with its
/// carriage return.
#[derive(Drop)]
pub struct Splitter {
    bytes: [u8; LONGEST_LINE],
    len: usize,
    is_longer: bool,
}

impl Model for Splitter {
    ghost use Rattle.std.specs.Prelude.{ℕ, List, Option, Some, None, ◌≡◌, ◌≤◌, take, length, if◌then◌else◌};
    ghost use Rattle.nrm_stream.specs.declared.splitter.TheConstants.{LONGEST_LINE};

    ghost Value = { Option (List ℕ) };

    ghost view = { λ s. if s.is_longer then None else Some (take s.len s.bytes) };

    ghost invariant = { λ s. (length s.bytes ≡ LONGEST_LINE) × (s.len ≤ LONGEST_LINE) };
}

impl Splitter {
    /// A splitter of an empty line.
    pub fn new() -> Splitter
        ensures { result ≡ kept_of [] }
    {
        Splitter {
            bytes: [0; LONGEST_LINE],
            len: 0,
            is_longer: false,
        }
    }

    // Whether the line is empty.
    fn is_empty(&self) -> bool
        ensures empty { IsTrue result ↔ (self.now ≡ kept_of []) }
        ensures stands { (line : List ℕ) × (self.now ≡ kept_of line) }
    {
        !self.is_longer && self.len == 0
    }

    // The line is empty afterwards.
    fn clear(&mut self)
        ensures { self.new ≡ kept_of [] }
    {
        self.len = 0;
        self.is_longer = false;
    }

    // What is kept of the line joined by these bytes.
    fn keep(&mut self, bytes: &[u8])
        ensures joined { (line : List ℕ) → self.old ≡ kept_of line → self.new ≡ kept_of (line ++ bytes.now) }
        ensures stands { (line : List ℕ) × (self.old ≡ kept_of line) }
    {
        if self.is_longer || bytes.len() > LONGEST_LINE - self.len {
            self.is_longer = true;
        } else {
            let len = self.len + bytes.len();
            self.bytes[self.len..len].copy_from_slice(bytes);
            self.len = len;
        }
    }

    // The command of the line.
    fn command(&self) -> Command
        ensures command { (line : List ℕ) → self.now ≡ kept_of line → result ≡ command_of line }
        ensures within { IsCommand result }
    {
        if self.is_longer {
            return Command::Bad;
        }
        let len = self.len;
        command_of(&self.bytes[..len])
    }

    // The command of the line joined by these bytes: they are copied only where the line has some already. The line is empty
    // afterwards.
    fn end_with(&mut self, bytes: &[u8]) -> Command
        ensures command { (line : List ℕ) → self.old ≡ kept_of line → result ≡ command_of (line ++ bytes.now) }
        ensures emptied { self.new ≡ kept_of [] }
        ensures within { IsCommand result }
        ensures stands { (line : List ℕ) × (self.old ≡ kept_of line) }
    {
        if self.is_empty() {
            return command_of(bytes);
        }
        self.keep(bytes);
        let command = self.command();
        self.clear();
        command
    }

    /// Uses the piece up to and with its first line feed and gives that line's command, or uses all of it and gives `None`.
    pub fn feed(&mut self, piece: &[u8]) -> (usize, Option<Command>)
        ensures feeds { CallFeeds self.old piece.now result self.new }
        ensures within { IfSome result.1 IsCommand }
        ensures stands { (line : List ℕ) × (self.old ≡ kept_of line) }
    {
        match first_at(piece, b'\n') {
            Some(end) => (end + 1, Some(self.end_with(&piece[..end]))),
            None => {
                self.keep(piece);
                (piece.len(), None)
            }
        }
    }

    /// The command of the unfinished line, if it isn't empty. The line is empty afterwards.
    pub fn finish(&mut self) -> Option<Command>
        ensures gives { CallFinishes self.old result }
        ensures emptied { self.new ≡ kept_of [] }
        ensures within { IfSome result IsCommand }
        ensures stands { (line : List ℕ) × (self.old ≡ kept_of line) }
    {
        if self.is_empty() {
            return None;
        }
        let command = self.command();
        self.clear();
        Some(command)
    }
}
