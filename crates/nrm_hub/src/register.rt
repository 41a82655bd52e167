//! What all desks have in common: the controller, the desks by their numbers with a table of their names, whose each booking is, and the rows
//! of the journal that were not given out yet. Room for a row is reserved before its line is carried out.
ghost use Rattle.std.specs.Prelude.{◌≡◌, ◌==◌, ◌+◌, ◌<◌, ◌≤◌, ◌++◌, ◌∷◌, [], Contains, length, vec_capacity, vec_len, IfErr, IfOk, IfSome, None, OnErr, OnOk, false, true};
ghost use Rattle.nrm_stream.specs.Commands.{IsCommand};
ghost use Rattle.nrm_session.specs.Answering.{IsTellable, reply_in};
ghost use Rattle.nrm_hub.specs.Asked.{allows, is_change};
ghost use Rattle.nrm_hub.specs.Inner.Answered.{CarriesOut, IsJoinFault};
ghost use Rattle.nrm_hub.specs.Lines.{reason_used, row_under};
ghost use Rattle.nrm_hub.specs.Register.{DeskValue, IsTold, Joins, Passes, desk_at, desk_named, new_desk, new_register, owners_after, renamed, trimmed};
ghost use Rattle.nrm_hub.specs.declared.limits.TheConstants.{LAST_SEQUENCE, MOST_DESKS, MOST_HELD, MOST_ROWS};

use crate::asked::allows;
use crate::front::drop_front;
use crate::limits::{MOST_DESKS, MOST_HELD};
use crate::row::Row;
use crate::text::{ROW_ROOM, row_line};
use nrm_control::Controller;
use nrm_frames::{Rights, Why};
use nrm_model::NameTable;
use nrm_session::{Reply, carry_out};
use nrm_stream::Command;
use nrm_text::Name;
use std::alloc::{AllocError, Global};
use std::marker::Model;

/// A desk: its name, the number that its next line may have, its last rows, and the place of the client that is the desk, as a hint.
#[derive(Drop)]
pub(crate) struct Desk {
    name: Name,
    next: u64,
    held: Vec<Row>,
    client: Option<u16>,
}

impl Model for Desk {
    ghost use Rattle.nrm_hub.specs.Register.{DeskValue};

    ghost Value = { DeskValue };

    ghost view = { λ d. record { name = d.name; next = d.next; held = d.held.items } };
}

/// Why a name has no desk.
#[derive(Clone, Copy, Debug, PartialEq, Eq)]
pub(crate) enum JoinFault {
    /// There are as many desks as there may be, and none is spare.
    TooMany,
    /// Memory runs out.
    NoMemory,
}

// Reserves room for a row.
fn make_room(
    held: &mut Vec<Row>,
    owners: &mut Vec<u32>,
    text: &mut Vec<u8>,
) -> Result<(), AllocError>
    ensures held { held.new.items ≡ held.old.items }
    ensures owners { owners.new.items ≡ owners.old.items }
    ensures text { text.new.items ≡ text.old.items }
    ensures room { OnOk result ((vec_len held.new < vec_capacity held.new) × (vec_len owners.new < vec_capacity owners.new)
        × (vec_len text.new + ROW_ROOM ≤ vec_capacity text.new)) }
{
    held.reserve(1)?;
    owners.reserve(1)?;
    text.reserve(ROW_ROOM)
}

impl Desk {
    // A desk of which nothing is known.
    fn new(alloc: Global, name: Name) -> Desk
        ensures { result ≡ new_desk name }
    {
        Desk {
            name,
            next: 1,
            held: Vec::new(alloc),
            client: None,
        }
    }
}

// The row under a number.
fn row_under(held: &[Row], sequence: u64) -> Option<Row>
    ensures row { result ≡ row_under held.now sequence }
    ensures held { IfSome result (Contains held.now) }
{
    held.iter().find(|row| row.sequence == sequence).copied()
}

// Adds a row to those that are held, where there is room for it, and drops the first hundred where there are two hundred.
fn hold(held: &mut Vec<Row>, sequence: u64, command: &Command, reply: Reply)
    requires { vec_len held.old < vec_capacity held.old }
    ensures { held.new.items ≡ trimmed (held.old.items ++ record { sequence = sequence; command = command.now; reply = reply } ∷ []) }
{
    held.push_reserved(Row {
        sequence,
        command: *command,
        reply,
    });
    if held.len() >= 2 * MOST_HELD {
        drop_front(held, MOST_HELD);
    }
}

// Remembers whose a booking is that was sold, where there is room for it.
fn own(owners: &mut Vec<u32>, desk: u32, reply: Reply)
    requires { vec_len owners.old < vec_capacity owners.old }
    ensures { owners.new.items ≡ owners_after owners.old.items desk reply }
{
    if let Reply::Sold { .. } = reply {
        owners.push_reserved(desk);
    }
}

// Appends a piece where there is room for it.
fn append(text: &mut Vec<u8>, piece: &[u8])
    requires { vec_len text.old + length piece.now ≤ vec_capacity text.old }
    ensures { text.new.items ≡ text.old.items ++ piece.now }
{
    match text.extend_from_slice(piece) {
        Ok(()) => {}
        Err(_) => unreachable!(),
    }
}

/// What all desks have in common.
#[derive(Drop)]
pub(crate) struct Register {
    controller: Controller,
    names: NameTable,
    desks: Vec<Desk>,
    owners: Vec<u32>,
    rows: u64,
    text: Vec<u8>,
}

impl Model for Register {
    ghost use Rattle.std.specs.Prelude.{◌≡◌, map};
    ghost use Rattle.nrm_hub.specs.Register.{DeskValue, IsRegister, RegisterValue};

    ghost Value = { RegisterValue };

    ghost view = { λ r. record {
      control = r.controller;
      desks = r.desks.items;
      owners = r.owners.items;
      rows = r.rows;
      text = r.text.items;
    } };

    ghost invariant = { λ r. IsRegister (record {
      control = r.controller;
      desks = r.desks.items;
      owners = r.owners.items;
      rows = r.rows;
      text = r.text.items;
    }) × (r.names ≡ map (λ (desk : DeskValue). desk.name) r.desks.items) };
}

impl Register {
    /// The register of a controller that has just begun: nobody has asked anything.
    pub(crate) fn new(alloc: Global, controller: Controller) -> Register
        requires { controller.next ≡ 1 }
        ensures { result ≡ new_register controller }
    {
        controller.limits_hold();
        Register {
            controller,
            names: NameTable::new(alloc),
            desks: Vec::new(alloc),
            owners: Vec::new(alloc),
            rows: 0,
            text: Vec::new(alloc),
        }
    }

    /// The controller.
    pub(crate) fn controller(&self) -> &Controller
        ensures { result.now ≡ self.now.control }
    {
        &self.controller
    }

    /// How many rows there are.
    pub(crate) fn rows(&self) -> u64
        ensures rows { result ≡ self.now.rows }
        ensures within { result ≤ MOST_ROWS }
    {
        self.rows
    }

    /// How many desks there are.
    pub(crate) fn count(&self) -> usize
        ensures count { result ≡ length self.now.desks }
        ensures within { result ≤ MOST_DESKS }
    {
        self.desks.len()
    }

    /// Whether a desk has no row.
    pub(crate) fn is_unused(&self, desk: u32) -> bool
        requires { desk < length self.now.desks }
        ensures { result ≡ ((desk_at self.now desk).next == 1) }
    {
        self.desks[desk as usize].next == 1
    }

    /// The place of the client that is a desk, as a hint.
    pub(crate) fn client_of(&self, desk: u32) -> Option<u16>
        requires { desk < length self.now.desks }
    {
        self.desks[desk as usize].client
    }

    /// The rows that were not given out yet.
    pub(crate) fn text(&self) -> &[u8]
        ensures { result.now ≡ self.now.text }
    {
        &self.text
    }

    /// They were given out.
    pub(crate) fn clear_text(&mut self)
        ensures { self.new ≡ record self.old { text = [] } }
    {
        self.text.clear();
    }

    /// The number that the next line of a desk may have.
    pub(crate) fn next_of(&self, desk: u32) -> u64
        requires { desk < length self.now.desks }
        ensures next { result ≡ (desk_at self.now desk).next }
        ensures within { result ≤ LAST_SEQUENCE + 1 }
    {
        self.desks[desk as usize].next
    }

    /// The row that a desk has under a number, among those that are held.
    pub(crate) fn row_under(&self, desk: u32, sequence: u64) -> Option<Row>
        requires { desk < length self.now.desks }
        ensures row { result ≡ row_under (desk_at self.now desk).held sequence }
        ensures told { IfSome result (IsTold self.now.control) }
    {
        row_under(&self.desks[desk as usize].held, sequence)
    }

    /// Why a number that was used, and under which no row is held, has no reply.
    pub(crate) fn reason_used(&self, desk: u32, sequence: u64) -> Why
        requires { desk < length self.now.desks }
        ensures { result ≡ reason_used (desk_at self.now desk).held sequence }
    {
        match self.desks[desk as usize].held.first() {
            Some(row) if sequence >= row.sequence => Why::Sequence,
            _ => Why::Old,
        }
    }

    /// Whether a desk may have this command carried out.
    pub(crate) fn allows(&self, rights: Rights, desk: u32, command: &Command) -> bool
        ensures { result ≡ allows rights self.now.owners desk command.now }
    {
        allows(rights, &self.owners, desk, command)
    }

    /// The place of the client that is a desk, as a hint, and the place of another one in its stead.
    pub(crate) fn replace_client(&mut self, desk: u32, place: u16) -> Option<u16>
        requires { desk < length self.old.desks }
        ensures { self.new ≡ self.old }
    {
        self.desks[desk as usize].client.replace(place)
    }

    // Adds a desk of a name that has none.
    fn add(&mut self, alloc: Global, name: &Name) -> Result<(), AllocError>
        requires few { length self.old.desks < MOST_DESKS }
        requires new { desk_named self.old name.now ≡ None }
        ensures added { OnOk result (self.new ≡ record self.old { desks = self.old.desks ++ new_desk name.now ∷ [] }) }
        ensures err { OnErr result (self.new ≡ self.old) }
    {
        self.desks.push(Desk::new(alloc, *name))?;
        match self.names.add(*name) {
            Ok(()) => Ok(()),
            Err(_) => {
                let _ = self.desks.pop();
                Err(AllocError)
            }
        }
    }

    // Gives the number of a desk to a name that has none.
    fn rename(&mut self, alloc: Global, desk: u32, name: &Name) -> Result<(), AllocError>
        requires there { desk < length self.old.desks }
        requires new { desk_named self.old name.now ≡ None }
        ensures renamed { OnOk result (self.new ≡ renamed self.old desk name.now) }
        ensures err { OnErr result (self.new ≡ self.old) }
    {
        self.names.rename(desk as usize, *name)?;
        self.desks[desk as usize] = Desk::new(alloc, *name);
        Ok(())
    }

    // The number of the desk of a name that has none yet, where there are as many as may be: that of the one that is spare.
    fn join_in_place(
        &mut self,
        alloc: Global,
        name: &Name,
        spare: Option<u32>,
    ) -> Result<u32, JoinFault>
        requires new { desk_named self.old name.now ≡ None }
        requires full { MOST_DESKS ≤ length self.old.desks }
        requires spare { IfSome spare (λ desk. desk < length self.old.desks) }
        ensures joins { IfOk result (λ desk. Joins spare self.old name.now self.new desk) }
        ensures within { IfOk result (λ desk. desk < length self.new.desks) }
        ensures err { OnErr result (self.new ≡ self.old) }
        ensures cause { IfErr result (IsJoinFault name.now spare self.old) }
    {
        let Some(desk) = spare else {
            return Err(JoinFault::TooMany);
        };
        match self.rename(alloc, desk, name) {
            Ok(()) => Ok(desk),
            Err(_) => Err(JoinFault::NoMemory),
        }
    }

    // The number of the desk of a name that has none yet, which is added, or has the number of the one that is spare.
    fn join_new(&mut self, alloc: Global, name: &Name, spare: Option<u32>) -> Result<u32, JoinFault>
        requires new { desk_named self.old name.now ≡ None }
        requires spare { IfSome spare (λ desk. desk < length self.old.desks) }
        ensures joins { IfOk result (λ desk. Joins spare self.old name.now self.new desk) }
        ensures within { IfOk result (λ desk. desk < length self.new.desks) }
        ensures err { OnErr result (self.new ≡ self.old) }
        ensures cause { IfErr result (IsJoinFault name.now spare self.old) }
    {
        let desk = self.desks.len();
        if desk >= MOST_DESKS {
            return self.join_in_place(alloc, name, spare);
        }
        match self.add(alloc, name) {
            Ok(()) => Ok(desk as u32),
            Err(_) => Err(JoinFault::NoMemory),
        }
    }

    /// The number of the desk of a name, which is added if it isn't there. Where there are as many as may be it has the number of the one
    /// that is spare, which is forgotten.
    ///
    /// # Errors
    /// There are as many desks as there may be, and none is spare; memory runs out.
    pub(crate) fn join(
        &mut self,
        alloc: Global,
        name: &Name,
        spare: Option<u32>,
    ) -> Result<u32, JoinFault>
        requires spare { IfSome spare (λ desk. desk < length self.old.desks) }
        ensures joins { IfOk result (λ desk. Joins spare self.old name.now self.new desk) }
        ensures within { IfOk result (λ desk. desk < length self.new.desks) }
        ensures err { OnErr result (self.new ≡ self.old) }
        ensures cause { IfErr result (IsJoinFault name.now spare self.old) }
    {
        match self.names.number_of(name) {
            Some(desk) => Ok(desk as u32),
            None => self.join_new(alloc, name, spare),
        }
    }

    /// Carries out a line that leaves no row.
    pub(crate) fn pass(&mut self, alloc: Global, command: &Command) -> Reply
        requires command { IsCommand command.now }
        requires looks { is_change command.now ≡ false }
        ensures passes { Passes self.old self.new command.now (reply_in self.new.control result) }
        ensures tellable { IsTellable self.new.control.net result }
    {
        carry_out(alloc, &mut self.controller, command)
    }

    /// Carries out a line of a desk that may change something, under the desk's own number. Its row joins the text, unless the reply is that
    /// memory ran out.
    ///
    /// # Errors
    /// Memory runs out before it is carried out, and nothing changes.
    pub(crate) fn carry(
        &mut self,
        alloc: Global,
        desk: u32,
        sequence: u64,
        command: &Command,
    ) -> Result<Reply, AllocError>
        requires desk { desk < length self.old.desks }
        requires rows { self.old.rows < MOST_ROWS }
        requires sequence { sequence ≤ LAST_SEQUENCE }
        requires command { IsCommand command.now }
        requires changes { is_change command.now ≡ true }
        ensures carries { IfOk result (λ reply. CarriesOut self.old self.new desk sequence command.now reply) }
        ensures err { OnErr result (self.new ≡ self.old) }
        ensures tellable { IfOk result (λ reply. IsTellable self.new.control.net reply) }
    {
        let at = &mut self.desks[desk as usize];
        make_room(&mut at.held, &mut self.owners, &mut self.text)?;
        let reply = carry_out(alloc, &mut self.controller, command);
        if let Reply::Memory = reply {
            return Ok(reply);
        }
        self.rows += 1;
        let line = row_line(
            self.rows,
            &at.name,
            sequence,
            command,
            self.controller.network(),
            reply,
        );
        append(&mut self.text, line.bytes());
        own(&mut self.owners, desk, reply);
        at.next = sequence + 1;
        hold(&mut at.held, sequence, command, reply);
        Ok(reply)
    }
}
