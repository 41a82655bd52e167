//! A client of the hub: who it is, what came from it and was not used yet, and what waits to be told to it. The bytes that were used stay at
//! the front until more come.
ghost use Rattle.std.specs.Prelude.{ℕ, Option, IfSome, ◌≡◌, ◌≢◌, ◌==◌, ◌<◌, ◌≤◌, ◌+◌, ◌^◌, ◌⊎◌, drop, length, position, take, None, Some, false, true};
ghost use Rattle.nrm_hub.specs.Clients.{after_telling, closed_for, new_client};
ghost use Rattle.nrm_hub.specs.Asked.{asked_in};
ghost use Rattle.nrm_hub.specs.Clients.{after_line, joined_as};
ghost use Rattle.nrm_hub.specs.Inner.Asking.{IsAsked, IsNumber};
ghost use Rattle.nrm_hub.specs.Inner.Taking.{Begins, Came, Excuses, GoesWithout, IsLine, IsTook, Takes, TakesIts};
ghost use Rattle.nrm_hub.specs.Seats.{IsBelow};
ghost use Rattle.nrm_hub.specs.Inner.Taking.{answered_as, settled};
ghost use Rattle.nrm_hub.specs.Taking.{may_greet};
ghost use Rattle.nrm_hub.specs.Waiting.{HasNoLine, IsAtRest};
ghost use Rattle.nrm_hub.specs.World.{IsNoGreeting};
ghost use Rattle.nrm_hub.specs.declared.asked.Asked.TheVariants as asked;
ghost use Rattle.nrm_hub.specs.declared.limits.TheConstants.{LAST_SEQUENCE, MOST_LINE, MOST_WAITING};

use crate::asked::{Asked, asked_in};
use crate::front::drop_front;
use crate::limits::{LAST_SEQUENCE, MOST_LINE, MOST_WAITING};
use crate::line::{Asker, Taken, answer_line, tell};
use crate::outbox::Outbox;
use crate::register::{JoinFault, Register};
use crate::text::line_of_greeting;
use nrm_frames::{Rights, Why};
use nrm_stream::Command;
use nrm_text::Name;
use std::alloc::Global;
use std::marker::Model;

// No line is taken of a client while more than so many of its bytes were used since it was told last, far more than in a turn.
const MOST_USED: u64 = 4_294_967_296;

/// A client.
#[derive(Drop)]
pub(crate) struct Client {
    serial: u64,
    name: Name,
    rights: Rights,
    desk: Option<u32>,
    number: u64,
    bytes: Vec<u8>,
    start: usize,
    told: Outbox,
    used: u64,
    closing: Option<Why>,
    // How many places stand before its own among those at which something is due, as a hint.
    pub(crate) due_at: usize,
}

impl Model for Client {
    ghost use Rattle.std.specs.Prelude.{◌≤◌, ◌+◌, ◌^◌, drop, length};
    ghost use Rattle.nrm_hub.specs.Clients.{ClientValue};
    ghost use Rattle.nrm_hub.specs.declared.limits.TheConstants.{LAST_SEQUENCE, MOST_WAITING};

    ghost Value = { ClientValue };

    ghost view = { λ c. record {
      serial = c.serial;
      name = c.name;
      rights = c.rights;
      desk = c.desk;
      number = c.number;
      coming = drop c.start c.bytes.items;
      told = c.told.waiting;
      used = c.used;
      closing = c.closing;
    } };

    ghost invariant = { λ c. (c.start ≤ length c.bytes.items) × (c.number ≤ LAST_SEQUENCE + 1) × (c.used ≤ 2 ^ 62) };
}

/// What was taken of a client.
#[derive(Clone, Copy, Debug, PartialEq, Eq)]
pub(crate) enum Took {
    /// Nothing: no whole line waits.
    Nothing,
    /// A line.
    Line,
    /// A line of those that may take long.
    LongLine,
    /// Nothing: a line of it is too long, and it is to be closed.
    TooLong,
}

// The place of the first line feed.
fn line_end(bytes: &[u8]) -> Option<usize>
    ensures { result ≡ position (λ c. c == 10) bytes.now }
{
    bytes.iter().position(|c| *c == b'\n')
}

// So many bytes from a place on.
fn part(bytes: &[u8], start: usize, count: usize) -> &[u8]
    requires { start + count ≤ length bytes.now }
    ensures { result.now ≡ take count (drop start bytes.now) }
{
    &bytes[start..start + count]
}

// Whether a line may take long: one for which a linear program is solved or a text of many lines is written.
fn takes_long(asked: &Asked) -> bool {
    matches!(
        asked,
        Asked::Says {
            command: Command::Reoptimise { .. }
                | Command::Hindsight
                | Command::Leg { .. }
                | Command::Plan
        }
    )
}

impl Client {
    /// A client of which nothing came.
    pub(crate) fn new(alloc: Global, serial: u64, name: Name, rights: Rights) -> Client
        ensures { result ≡ new_client serial name rights }
    {
        Client {
            serial,
            name,
            rights,
            desk: None,
            number: 1,
            bytes: Vec::new(alloc),
            start: 0,
            told: Outbox::new(alloc),
            used: 0,
            closing: None,
            due_at: 0,
        }
    }

    /// The number of its desk, once it has one.
    pub(crate) fn desk(&self) -> Option<u32>
        ensures { result ≡ self.now.desk }
    {
        self.desk
    }

    /// Why it is to be closed, if it is.
    pub(crate) fn closing(&self) -> Option<Why>
        ensures { result ≡ self.now.closing }
    {
        self.closing
    }

    /// What waits to be told to it.
    pub(crate) fn told(&self) -> &[u8]
        ensures { result.now ≡ self.now.told }
    {
        self.told.waiting()
    }

    /// How many of its bytes were used since it was told last.
    pub(crate) fn used(&self) -> u64
        ensures { result ≡ self.now.used }
    {
        self.used
    }

    // Whether no whole line of it waits, and none that is too long.
    fn has_no_line(&self) -> bool
        ensures { result ≡ true → HasNoLine self.now }
    {
        let waiting = self.bytes.len() - self.start;
        waiting < MOST_LINE && line_end(part(&self.bytes, self.start, waiting)).is_none()
    }

    /// Whether a line of it waits, and it isn't to be closed.
    pub(crate) fn has_line(&self) -> bool
        ensures none { result ≡ false → (self.now.closing ≢ None) ⊎ HasNoLine self.now }
        ensures stays { result ≡ true → self.now.closing ≡ None }
    {
        self.closing.is_none() && !self.has_no_line()
    }

    /// Whether it waits for nothing: to be told or closed, or for a line of it to be taken.
    pub(crate) fn is_at_rest(&self) -> bool
        ensures { result ≡ true → IsAtRest self.now }
    {
        self.used == 0
            && self.closing.is_none()
            && self.told.waiting().is_empty()
            && self.has_no_line()
    }

    /// What waited was sent.
    pub(crate) fn was_told(&mut self)
        ensures { self.new ≡ after_telling self.old }
    {
        self.told.clear();
        self.used = 0;
    }

    /// It is to be closed: nothing of it is used any more.
    pub(crate) fn close(&mut self, why: Why)
        ensures { self.new ≡ closed_for self.old why }
    {
        self.bytes.clear();
        self.start = 0;
        self.closing = Some(why);
    }

    // Drops the bytes that were used.
    fn drop_used(&mut self)
        ensures { self.new ≡ self.old }
    {
        drop_front(&mut self.bytes, self.start);
        self.start = 0;
    }

    /// A piece came from it. If more would wait than may, or memory runs out, it is to be closed.
    pub(crate) fn came(&mut self, piece: &[u8])
        requires { self.old.closing ≡ None }
        ensures { Came self.old self.new piece.now }
    {
        let waiting = self.bytes.len() - self.start;
        if waiting > MOST_WAITING || piece.len() > MOST_WAITING - waiting {
            self.close(Why::Window);
            return;
        }
        self.drop_used();
        match self.bytes.extend_from_slice(piece) {
            Ok(()) => {}
            Err(_) => self.close(Why::Memory),
        }
    }

    // The line that ends at a place was used.
    fn use_line(&mut self, end: usize)
        requires end { position (λ c. c == 10) self.old.coming ≡ Some end }
        requires short { end < MOST_LINE }
        requires used { self.old.used ≤ 2 ^ 61 }
        ensures { self.new ≡ after_line self.old (take end self.old.coming) (drop (end + 1) self.old.coming) }
    {
        self.start += end + 1;
        self.used += (end + 1) as u64;
    }

    // What became of a line is entered.
    fn settle(&mut self, taken: Taken)
        ensures { self.new ≡ settled self.old taken }
    {
        match taken {
            Taken::Told => {}
            Taken::Cut => self.close(Why::Memory),
            Taken::Refused(why) => self.close(why),
        }
    }

    // The line that ends at a place was used, and what became of it is entered.
    fn enter(&mut self, end: usize, taken: Taken)
        requires number { self.old.number ≤ LAST_SEQUENCE }
        requires end { position (λ c. c == 10) self.old.coming ≡ Some end }
        requires short { end < MOST_LINE }
        requires used { self.old.used ≤ 2 ^ 61 }
        ensures { self.new ≡ answered_as self.old (take end self.old.coming) (drop (end + 1) self.old.coming) taken }
    {
        self.use_line(end);
        match taken {
            Taken::Told => self.number += 1,
            Taken::Cut => {
                self.number += 1;
                self.close(Why::Memory);
            }
            Taken::Refused(why) => self.close(why),
        }
    }

    // Takes the line that ends at a place, of a client that is a desk.
    fn answer(
        &mut self,
        alloc: Global,
        register: &mut Register,
        desk: u32,
        asked: &Asked,
        end: usize,
    )
        requires desk { self.old.desk ≡ Some desk }
        requires within { desk < length register.old.desks }
        requires asked { asked_in (take end self.old.coming) ≡ asked.now }
        requires limits { IsAsked asked.now }
        requires end { position (λ c. c == 10) self.old.coming ≡ Some end }
        requires short { end < MOST_LINE }
        requires used { self.old.used ≤ 2 ^ 61 }
        ensures { (spare : Option ℕ) → TakesIts spare register.old register.new self.old self.new end }
    {
        if self.number > LAST_SEQUENCE {
            self.use_line(end);
            self.close(Why::Sequence);
            return;
        }
        let asker = Asker {
            rights: self.rights,
            desk,
            sequence: self.number,
        };
        let taken = answer_line(alloc, register, asker, asked, &mut self.told);
        self.enter(end, taken);
    }

    // Takes the line that ends at a place with the text of its reply, of a client that stays no desk.
    fn excuse(&mut self, end: usize, text: &[u8])
        requires end { position (λ c. c == 10) self.old.coming ≡ Some end }
        requires short { end < MOST_LINE }
        requires used { self.old.used ≤ 2 ^ 61 }
        ensures { Excuses self.old self.new end text.now }
    {
        let taken = tell(&mut self.told, text);
        self.use_line(end);
        self.settle(taken);
    }

    // Takes the line that ends at a place, of a client whose name has no desk.
    fn go_without(&mut self, end: usize, fault: JoinFault)
        requires end { position (λ c. c == 10) self.old.coming ≡ Some end }
        requires short { end < MOST_LINE }
        requires used { self.old.used ≤ 2 ^ 61 }
        ensures { GoesWithout self.old self.new end fault }
    {
        match fault {
            JoinFault::NoMemory => self.excuse(end, b"memory\n"),
            JoinFault::TooMany => {
                self.use_line(end);
                self.close(Why::Desks);
            }
        }
    }

    // Whether it may greet by a name: its own, or another one if it has that right.
    fn may_greet(&self, name: &Name) -> bool
        ensures { result ≡ may_greet self.now name.now }
    {
        self.name == *name || self.rights.greet
    }

    // It is a desk, whose next line has this number.
    fn seat(&mut self, desk: u32, number: u64)
        requires { number ≤ LAST_SEQUENCE + 1 }
        ensures { self.new ≡ joined_as self.old desk number }
    {
        self.desk = Some(desk);
        self.number = number;
    }

    // Takes the greeting that ends at a place, of a client that is no desk yet.
    fn greet(
        &mut self,
        alloc: Global,
        register: &mut Register,
        name: &Name,
        number: Option<u64>,
        spare: Option<u32>,
        end: usize,
    )
        requires first { self.old.desk ≡ None }
        requires end { position (λ c. c == 10) self.old.coming ≡ Some end }
        requires greeting { asked_in (take end self.old.coming) ≡ asked.Greeting name.now number }
        requires number { IsNumber number }
        requires spare { IfSome spare (λ desk. desk < length register.old.desks) }
        requires short { end < MOST_LINE }
        requires used { self.old.used ≤ 2 ^ 61 }
        ensures { TakesIts spare register.old register.new self.old self.new end }
    {
        if !self.may_greet(name) {
            self.excuse(end, b"denied\n");
            return;
        }
        match register.join(alloc, name, spare) {
            Err(fault) => self.go_without(end, fault),
            Ok(desk) => {
                let number = number.unwrap_or(register.next_of(desk));
                self.seat(desk, number);
                self.excuse(end, line_of_greeting(number).bytes());
            }
        }
    }

    // Takes the line that ends at a place, no greeting, of a client that is no desk yet: it becomes one by its own name.
    fn begin(
        &mut self,
        alloc: Global,
        register: &mut Register,
        asked: &Asked,
        spare: Option<u32>,
        end: usize,
    )
        requires first { self.old.desk ≡ None }
        requires own { IsNoGreeting asked.now }
        requires spare { IfSome spare (λ desk. desk < length register.old.desks) }
        requires asked { asked_in (take end self.old.coming) ≡ asked.now }
        requires limits { IsAsked asked.now }
        requires end { position (λ c. c == 10) self.old.coming ≡ Some end }
        requires short { end < MOST_LINE }
        requires used { self.old.used ≤ 2 ^ 61 }
        ensures { Begins spare register.old register.new self.old self.new end }
    {
        match register.join(alloc, &self.name, spare) {
            Err(fault) => self.go_without(end, fault),
            Ok(desk) => {
                let number = register.next_of(desk);
                self.seat(desk, number);
                self.answer(alloc, register, desk, asked, end);
            }
        }
    }

    // Takes the line that ends at a place, by what it asks for.
    fn answer_by(
        &mut self,
        alloc: Global,
        register: &mut Register,
        asked: &Asked,
        spare: Option<u32>,
        end: usize,
    )
        requires spare { IfSome spare (λ desk. desk < length register.old.desks) }
        requires within { IsBelow self.old.desk (length register.old.desks) }
        requires asked { asked_in (take end self.old.coming) ≡ asked.now }
        requires limits { IsAsked asked.now }
        requires end { position (λ c. c == 10) self.old.coming ≡ Some end }
        requires short { end < MOST_LINE }
        requires used { self.old.used ≤ 2 ^ 61 }
        ensures { Begins spare register.old register.new self.old self.new end }
    {
        match (self.desk, asked) {
            (Some(desk), _) => self.answer(alloc, register, desk, asked, end),
            (None, Asked::Greeting { name, number }) => {
                self.greet(alloc, register, name, *number, spare, end)
            }
            (None, _) => self.begin(alloc, register, asked, spare, end),
        }
    }

    // Takes the line that ends at a place.
    fn answer_at(
        &mut self,
        alloc: Global,
        register: &mut Register,
        spare: Option<u32>,
        end: usize,
    ) -> Took
        requires spare { IfSome spare (λ desk. desk < length register.old.desks) }
        requires within { IsBelow self.old.desk (length register.old.desks) }
        requires end { position (λ c. c == 10) self.old.coming ≡ Some end }
        requires short { end < MOST_LINE }
        requires used { self.old.used ≤ 2 ^ 61 }
        ensures takes { Begins spare register.old register.new self.old self.new end }
        ensures line { IsLine result }
    {
        let asked = asked_in(part(&self.bytes, self.start, end));
        self.answer_by(alloc, register, &asked, spare, end);
        if takes_long(&asked) {
            Took::LongLine
        } else {
            Took::Line
        }
    }

    /// Takes its next line, if a whole one waits. If it becomes a desk by that, where there are as many as may be, the one that is spare is
    /// forgotten.
    pub(crate) fn use_next(
        &mut self,
        alloc: Global,
        register: &mut Register,
        spare: Option<u32>,
    ) -> Took
        requires spare { IfSome spare (λ desk. desk < length register.old.desks) }
        requires open { self.old.closing ≡ None }
        requires within { IsBelow self.old.desk (length register.old.desks) }
        ensures takes { Takes spare register.old self.old register.new self.new }
        ensures seated { IsBelow self.new.desk (length register.new.desks) }
        ensures grown { length register.old.desks ≤ length register.new.desks }
        ensures took { IsTook spare register.old register.new self.old self.new result }
    {
        if self.used > MOST_USED {
            return Took::Nothing;
        }
        let waiting = self.bytes.len() - self.start;
        match line_end(part(&self.bytes, self.start, waiting.min(MOST_LINE))) {
            Some(end) => self.answer_at(alloc, register, spare, end),
            None if waiting < MOST_LINE => Took::Nothing,
            None => {
                self.close(Why::Long);
                Took::TooLong
            }
        }
    }
}
