//! The hub: what all desks have in common, the clients by their places, whose turn comes, and who is to be told. Lines are taken in turns;
//! then the rows of all that was answered are given out, and once they are kept the replies are sent.
ghost use Rattle.std.specs.Prelude.{ℕ, ◌≡◌, ◌≢◌, ◌<◌, ◌≤◌, ◌∷◌, [], get_or, length, option_map, slice_set, Some, None, IfErr, IfSome, MatchBool, MatchOption, OnErr, OnOk, false, true};
ghost use Rattle.nrm_edge.specs.Causes.{HasCause};
ghost use Rattle.nrm_frames.specs.declared.header.Header.TheVariants as header;
ghost use Rattle.nrm_hub.specs.Again.{FailsAgain};
ghost use Rattle.nrm_hub.specs.Due.{AreDue, DueValue, StillDue, due_count};
ghost use Rattle.nrm_hub.specs.Goes.{Goes, Puts, PutsCut};
ghost use Rattle.nrm_hub.specs.Hub.{after_closing, alone, client_at, new_hub, takes_frames, takes_lines, unseated};
ghost use Rattle.nrm_hub.specs.Inner.Seats.{AreListed, AreSo, AreUnseated, CameAt, ClosesAt, HasPlaces, IsDeskOf, IsSomebodys, IsToldAt, MakesSo, UnseatsBeside};
ghost use Rattle.nrm_hub.specs.Inner.Seats.{TakesBy, WasClosed, WasSent};
ghost use Rattle.nrm_hub.specs.Clients.{ClientValue};
ghost use Rattle.nrm_hub.specs.Seats.{AreSeated, IsOpened};
ghost use Rattle.nrm_hub.specs.Spare.{IsForgettable, IsSpare};
ghost use Rattle.nrm_hub.specs.Waiting.{HadTurn, IsAtRest, IsTold, NothingIsDue, OfEach};
ghost use Rattle.nrm_hub.specs.World.{frame};
ghost use Rattle.nrm_hub.specs.declared.phase.Phase.TheVariants as phase;

use crate::again::{AgainFault, give_again};
use crate::client::{Client, Took};
use crate::due::Due;
use crate::limits::{MOST_DESKS, MOST_LINES, MOST_OPENED};
use crate::listed::{list, list_came, list_closing, list_more, move_due};
use crate::phase::Phase;
use crate::register::Register;
use nrm_control::Controller;
use nrm_edge::{Failed, Sink};
use nrm_frames::{LAST_PLACE, Rights, Why, put_close, put_keep, put_ready, put_send};
use nrm_text::Name;
use std::alloc::{AllocError, Global};
use std::marker::Model;
use std::mem::replace;

/// What becomes of a client that is opened.
#[derive(Clone, Copy, Debug, PartialEq, Eq)]
pub enum Opened {
    /// It is there.
    There,
    /// Somebody is at its place: nothing changes.
    IsTaken,
    /// Memory runs out: it isn't there.
    NoMemory,
}

/// A controller and its clients.
#[derive(Drop)]
pub struct Hub {
    register: Register,
    clients: Vec<Option<Client>>,
    opened: u64,
    phase: Phase,
    due: Due,
    heard: Due,
    // Room for a copy of those that are gone through.
    room: Due,
}

impl Model for Hub {
    ghost use Rattle.nrm_hub.specs.Hub.{HubValue};
    ghost use Rattle.nrm_hub.specs.Seats.{IsHub};

    ghost Value = { HubValue };

    ghost view = { λ h. record {
      register = h.register;
      clients = h.clients.items;
      opened = h.opened;
      phase = h.phase;
    } };

    ghost invariant = { λ h. IsHub h.register h.clients.items h.due h.heard h.phase };
}

impl Hub {
    /// A hub of a controller that has just begun, with no clients.
    pub fn new(alloc: Global, controller: Controller) -> Hub
        requires { controller.next ≡ 1 }
        ensures { result ≡ new_hub controller }
    {
        Hub {
            register: Register::new(alloc, controller),
            clients: Vec::new(alloc),
            opened: 0,
            phase: Phase::Replaying,
            due: Due::new(alloc),
            heard: Due::new(alloc),
            room: Due::new(alloc),
        }
    }

    /// How many rows the journal has.
    pub fn rows(&self) -> u64
        ensures { result ≡ self.now.register.rows }
    {
        self.register.rows()
    }

    /// What is awaited.
    pub fn phase(&self) -> Phase
        ensures { result ≡ self.now.phase }
    {
        self.phase
    }

    /// Whether frames of clients may come.
    pub fn takes_frames(&self) -> bool
        ensures { result ≡ takes_frames self.now.phase }
    {
        matches!(self.phase, Phase::Settled | Phase::Answering | Phase::Asked)
    }

    /// Gives rows of the journal again, some at least. Behind an error the hub takes nothing more.
    ///
    /// # Errors
    /// A row is none, or its reply isn't the one that is given now; memory runs out.
    pub fn again(&mut self, alloc: Global, payload: &[u8]) -> Result<(), AgainFault>
        requires replaying { self.old.phase ≡ phase.Replaying }
        requires some { payload.now ≢ [] }
        ensures goes { OnOk result (Goes self.old self.new (frame (header.Again (length payload.now)) payload.now ∷ []) []) }
        ensures fails { IfErr result (FailsAgain self.old.register payload.now) }
        ensures phase { OnOk result (self.new.phase ≡ phase.Replaying) }
    {
        match give_again(alloc, &mut self.register, payload) {
            Ok(()) => Ok(()),
            Err(fault) => {
                self.phase = Phase::Ended;
                Err(fault)
            }
        }
    }

    /// The rows that were given again were all: it is said how many they are, and clients may come.
    ///
    /// # Errors
    /// A put failed; a front of the frame went out.
    pub fn ready<K: Sink>(&mut self, sink: &mut K) -> Result<(), Failed>
        requires { self.old.phase ≡ phase.Replaying }
        ensures puts { OnOk result (Puts self.old self.new (frame (header.Again 0) [] ∷ []) (K.held sink.old) (K.held sink.new)) }
        ensures cut { OnErr result (PutsCut self.old self.new (frame (header.Again 0) [] ∷ []) (K.held sink.old) (K.held sink.new)) }
        ensures cause { HasCause (K.faults sink.old) (K.faults sink.new) result }
        ensures phase { self.new.phase ≡ phase.Settled }
    {
        self.phase = Phase::Settled;
        put_ready(sink, self.register.rows())
    }

    // Who is at a place.
    fn client(&self, place: u16) -> Option<&Client>
        ensures { MatchOption result (client_at self.now place ≡ None) (λ client. client_at self.now place ≡ Some client.now) }
    {
        match self.clients.get(place as usize) {
            Some(Some(client)) => Some(client),
            _ => None,
        }
    }

    // Makes places up to this one.
    fn make_place(&mut self, place: u16) -> Result<(), AllocError>
        requires { takes_frames self.old.phase ≡ true }
        ensures goes { Goes self.old self.new [] [] }
        ensures there { OnOk result (place < length self.new.clients) }
        ensures lacks { OnErr result (length self.new.clients ≤ place) }
        ensures same { client_at self.new place ≡ client_at self.old place }
        ensures opened { self.new.opened ≡ self.old.opened }
        ensures phase { self.new.phase ≡ self.old.phase }
    {
        make_places(&mut self.clients, place)
    }

    /// Opens a client at a place, with the name of its desk and its rights.
    pub fn open(&mut self, alloc: Global, place: u16, name: Name, rights: Rights) -> Opened
        requires { takes_frames self.old.phase ≡ true }
        ensures opened { IsOpened self.old self.new place name rights result }
        ensures phase { self.new.phase ≡ self.old.phase }
    {
        if let Some(_) = self.client(place) {
            return Opened::IsTaken;
        }
        if self.opened == MOST_OPENED {
            return Opened::NoMemory;
        }
        if self.make_place(place).is_err() {
            return Opened::NoMemory;
        }
        self.clients[place as usize] = Some(Client::new(alloc, self.opened, name, rights));
        self.opened += 1;
        Opened::There
    }

    /// A piece came from the client at a place. Where nobody is, or one who is to be closed, it is nothing. If more would wait than may,
    /// or memory runs out, the client is to be closed.
    pub fn came(&mut self, place: u16, piece: &[u8])
        requires { takes_frames self.old.phase ≡ true }
        ensures goes { Goes self.old self.new (frame (header.Came place (length piece.now)) piece.now ∷ []) [] }
        ensures phase { takes_frames self.new.phase ≡ true }
    {
        let closes = came_at(
            &mut self.clients,
            &mut self.due,
            &mut self.heard,
            place,
            piece,
        );
        if closes {
            self.phase = after_closing(self.phase);
        }
    }

    /// The client at a place is gone: it is to be closed.
    pub fn gone(&mut self, place: u16)
        requires { takes_frames self.old.phase ≡ true }
        ensures goes { Goes self.old self.new (frame (header.Gone place) [] ∷ []) [] }
        ensures phase { takes_frames self.new.phase ≡ true }
    {
        let closes = close_at(
            &mut self.clients,
            &mut self.due,
            &mut self.heard,
            place,
            Why::Gone,
        );
        if closes {
            self.phase = after_closing(self.phase);
        }
    }

    /// The last frame came.
    pub fn ended(&mut self)
        requires { self.old.phase ≢ phase.Telling }
        ensures goes { Goes self.old self.new (frame header.End [] ∷ []) [] }
        ensures phase { self.new.phase ≡ phase.Ended }
    {
        self.phase = Phase::Ended;
    }

    // Takes the next line of the client at a place. If it becomes a desk by that, every other client that is the desk is to be closed.
    fn use_line(&mut self, alloc: Global, place: u16) -> Took
        requires { takes_lines self.old.phase ≡ true }
        ensures goes { Goes self.old self.new [] [] }
        ensures phase { takes_lines self.new.phase ≡ true }
        ensures turn { MakesSo HadTurn self.old.clients self.new.clients place }
    {
        let was = desk_of(&self.clients, place);
        let took = use_line_at(
            alloc,
            &mut self.register,
            &mut self.clients,
            &mut self.heard,
            place,
        );
        if let Took::Nothing = took {
            return took;
        }
        self.phase = Phase::Answering;
        if was.is_none() {
            seat(
                &mut self.register,
                &mut self.clients,
                &mut self.heard,
                place,
            );
        }
        took
    }

    // Takes lines of the client at a place: no more than may be taken at a time, and none behind one that may take long.
    fn use_lines(&mut self, alloc: Global, place: u16)
        requires { takes_lines self.old.phase ≡ true }
        ensures goes { Goes self.old self.new [] [] }
        ensures phase { takes_lines self.new.phase ≡ true }
        ensures turn { MakesSo HadTurn self.old.clients self.new.clients place }
    {
        let mut took = self.use_line(alloc, place);
        for _ in 1..MOST_LINES {
            match took {
                Took::Line => took = self.use_line(alloc, place),
                Took::Nothing | Took::LongLine | Took::TooLong => return,
            }
        }
    }

    // The turn of the client at a place is over; if more of its lines wait it has another one, before all that come from now on.
    fn end_turn(&mut self, place: u16)
        ensures { self.new ≡ self.old }
    {
        list_more(&mut self.clients, &mut self.due, place);
    }

    // Gives the client at a place its turn.
    fn give_turn(&mut self, alloc: Global, place: u16)
        requires { takes_lines self.old.phase ≡ true }
        ensures goes { Goes self.old self.new [] [] }
        ensures phase { takes_lines self.new.phase ≡ true }
        ensures turn { MakesSo HadTurn self.old.clients self.new.clients place }
    {
        self.use_lines(alloc, place);
        self.end_turn(place);
    }

    // Those whose turn comes have it now, but for those that wait for nothing: in a list of their own, with those that are to be closed.
    fn begin_round(&mut self, alloc: Global) -> Due
        ensures same { self.new ≡ self.old }
        ensures listed { AreListed IsAtRest self.new.clients result }
    {
        move_due(&mut self.clients, &self.due, &mut self.heard);
        self.due.clear();
        copied(alloc, &mut self.room, &self.heard)
    }

    // Those that are heard, in a list of their own.
    fn heard_now(&mut self, alloc: Global) -> Due
        ensures same { self.new ≡ self.old }
        ensures listed { AreListed IsTold self.new.clients result }
    {
        copied(alloc, &mut self.room, &self.heard)
    }

    // Those that were heard are heard no more; if one waits for something more its turn comes, as it does already.
    fn end_round(&mut self)
        requires { OfEach IsTold self.old }
        ensures { self.new ≡ self.old }
    {
        move_due(&mut self.clients, &self.heard, &mut self.due);
        self.heard.clear();
    }

    // A list that was gone through is room for another one.
    fn put_back(&mut self, listed: Due)
        ensures { self.new ≡ self.old }
    {
        self.room = listed;
    }

    // Gives each client of a list its turn, in their order.
    fn give_turns(&mut self, alloc: Global, listed: &Due)
        requires { takes_lines self.old.phase ≡ true }
        ensures goes { Goes self.old self.new [] [] }
        ensures phase { takes_lines self.new.phase ≡ true }
        ensures turns { AreSo HadTurn self.old.clients self.new.clients listed.now (due_count listed.now) }
    {
        for at in 0..listed.count() {
            self.give_turn(alloc, listed.at(at));
        }
    }

    // Gives out the rows of all that was answered.
    fn ask_to_keep<K: Sink>(&mut self, sink: &mut K) -> Result<(), Failed>
        requires answering { self.old.phase ≡ phase.Answering }
        requires turns { OfEach HadTurn self.old }
        ensures puts { OnOk result (Puts self.old self.new [] (K.held sink.old) (K.held sink.new)) }
        ensures cut { OnErr result (PutsCut self.old self.new [] (K.held sink.old) (K.held sink.new)) }
        ensures cause { HasCause (K.faults sink.old) (K.faults sink.new) result }
        ensures phase { self.new.phase ≡ phase.Asked }
    {
        self.phase = Phase::Asked;
        let put = put_keep(sink, self.register.text());
        self.register.clear_text();
        put
    }

    /// Gives each client that waits for something its turn, in their order, and then gives out the rows of all that was answered; unless the
    /// word that all is kept is awaited, or nobody waits for anything.
    ///
    /// # Errors
    /// A put failed; a front of the frame went out.
    pub fn take_round<K: Sink>(&mut self, alloc: Global, sink: &mut K) -> Result<(), Failed>
        requires { takes_frames self.old.phase ≡ true }
        ensures puts { OnOk result (Puts self.old self.new [] (K.held sink.old) (K.held sink.new)) }
        ensures cut { OnErr result (PutsCut self.old self.new [] (K.held sink.old) (K.held sink.new)) }
        ensures cause { HasCause (K.faults sink.old) (K.faults sink.new) result }
        ensures due { OnOk result (NothingIsDue self.new) }
    {
        if self.phase == Phase::Asked {
            return Ok(());
        }
        let listed = self.begin_round(alloc);
        self.give_turns(alloc, &listed);
        self.put_back(listed);
        if let Phase::Settled = self.phase {
            return Ok(());
        }
        self.ask_to_keep(sink)
    }

    // Sends what waits for the client at a place.
    fn send<K: Sink>(&mut self, sink: &mut K, place: u16) -> Result<(), Failed>
        requires { self.old.phase ≡ phase.Telling }
        ensures puts { OnOk result (Puts self.old self.new [] (K.held sink.old) (K.held sink.new)) }
        ensures cut { OnErr result (PutsCut self.old self.new [] (K.held sink.old) (K.held sink.new)) }
        ensures cause { HasCause (K.faults sink.old) (K.faults sink.new) result }
        ensures phase { self.new.phase ≡ phase.Telling }
        ensures sent { WasSent self.old.clients self.new.clients place }
    {
        let at = place as usize;
        if at >= self.clients.len() {
            return Ok(());
        }
        let Some(client) = &mut self.clients[at] else {
            return Ok(());
        };
        if client.used() == 0 && client.told().is_empty() {
            return Ok(());
        }
        let put = put_send(sink, place, client.used(), client.told());
        client.was_told();
        put
    }

    // Closes the client at a place if it is to be closed.
    fn close<K: Sink>(&mut self, sink: &mut K, place: u16) -> Result<(), Failed>
        requires telling { self.old.phase ≡ phase.Telling }
        requires told { IsToldAt self.old.clients place }
        ensures puts { OnOk result (Puts self.old self.new [] (K.held sink.old) (K.held sink.new)) }
        ensures cut { OnErr result (PutsCut self.old self.new [] (K.held sink.old) (K.held sink.new)) }
        ensures cause { HasCause (K.faults sink.old) (K.faults sink.new) result }
        ensures phase { self.new.phase ≡ phase.Telling }
        ensures closed { WasClosed self.old.clients self.new.clients place }
    {
        let Some(client) = self.client(place) else {
            return Ok(());
        };
        let Some(why) = client.closing() else {
            return Ok(());
        };
        self.clients[place as usize] = None;
        put_close(sink, place, why)
    }

    // Sends what waits for the client at a place, and closes it if it is to be closed.
    fn tell<K: Sink>(&mut self, sink: &mut K, place: u16) -> Result<(), Failed>
        requires { self.old.phase ≡ phase.Telling }
        ensures puts { OnOk result (Puts self.old self.new [] (K.held sink.old) (K.held sink.new)) }
        ensures cut { OnErr result (PutsCut self.old self.new [] (K.held sink.old) (K.held sink.new)) }
        ensures cause { HasCause (K.faults sink.old) (K.faults sink.new) result }
        ensures phase { self.new.phase ≡ phase.Telling }
        ensures told { OnOk result (MakesSo IsTold self.old.clients self.new.clients place) }
    {
        self.send(sink, place)?;
        self.close(sink, place)
    }

    // Sends what waits for each client of a list, and closes those of them that are to be closed.
    fn tell_listed<K: Sink>(&mut self, sink: &mut K, listed: &Due) -> Result<(), Failed>
        requires { self.old.phase ≡ phase.Telling }
        ensures puts { OnOk result (Puts self.old self.new [] (K.held sink.old) (K.held sink.new)) }
        ensures cut { OnErr result (PutsCut self.old self.new [] (K.held sink.old) (K.held sink.new)) }
        ensures cause { HasCause (K.faults sink.old) (K.faults sink.new) result }
        ensures phase { self.new.phase ≡ phase.Telling }
        ensures told { OnOk result (AreSo IsTold self.old.clients self.new.clients listed.now (due_count listed.now)) }
    {
        for at in 0..listed.count() {
            self.tell(sink, listed.at(at))?;
        }
        Ok(())
    }

    // Sends what waits for each client, and closes those that are to be closed.
    fn tell_all<K: Sink>(&mut self, alloc: Global, sink: &mut K) -> Result<(), Failed>
        requires { self.old.phase ≡ phase.Telling }
        ensures puts { OnOk result (Puts self.old self.new [] (K.held sink.old) (K.held sink.new)) }
        ensures cut { OnErr result (PutsCut self.old self.new [] (K.held sink.old) (K.held sink.new)) }
        ensures cause { HasCause (K.faults sink.old) (K.faults sink.new) result }
        ensures phase { self.new.phase ≡ phase.Telling }
        ensures told { OnOk result (OfEach IsTold self.new) }
    {
        let listed = self.heard_now(alloc);
        self.tell_listed(sink, &listed)?;
        self.put_back(listed);
        self.end_round();
        Ok(())
    }

    /// All rows that were given out are kept: what waits for each client is sent, and those that are to be closed are closed.
    ///
    /// # Errors
    /// A put failed; a front of what was to be sent went out.
    pub fn kept<K: Sink>(&mut self, alloc: Global, sink: &mut K) -> Result<(), Failed>
        requires { self.old.phase ≡ phase.Asked }
        ensures puts { OnOk result (Puts self.old self.new (frame header.Kept [] ∷ []) (K.held sink.old) (K.held sink.new)) }
        ensures cut { OnErr result (PutsCut self.old self.new (frame header.Kept [] ∷ []) (K.held sink.old) (K.held sink.new)) }
        ensures cause { HasCause (K.faults sink.old) (K.faults sink.new) result }
        ensures phase { OnOk result (self.new.phase ≡ phase.Settled) }
    {
        self.phase = Phase::Telling;
        self.tell_all(alloc, sink)?;
        self.phase = Phase::Settled;
        Ok(())
    }
}

// A copy of a list, in the room for it.
fn copied(alloc: Global, room: &mut Due, listed: &Due) -> Due
    ensures { StillDue listed.now result }
{
    let mut copy = replace(room, Due::new(alloc));
    copy.copy(listed);
    copy
}

// Makes places up to this one.
fn make_places(clients: &mut Vec<Option<Client>>, place: u16) -> Result<(), AllocError>
    ensures made { HasPlaces clients.old.items clients.new.items }
    ensures there { OnOk result (place < length clients.new.items) }
    ensures lacks { OnErr result (length clients.new.items ≤ place) }
{
    while clients.len() <= place as usize {
        clients.push(None)?;
    }
    Ok(())
}

// The client at a place is to be closed, if somebody is there who isn't yet. Gives whether somebody was.
fn close_at(
    clients: &mut Vec<Option<Client>>,
    due: &mut Due,
    heard: &mut Due,
    place: u16,
    why: Why,
) -> bool
    ensures closes { ClosesAt clients.old.items place why clients.new.items result }
    ensures due { AreDue clients.old.items due.old heard.old → AreDue clients.new.items due.new heard.new }
{
    let at = place as usize;
    if at >= clients.len() {
        return false;
    }
    if let Some(client) = &mut clients[at] {
        if client.closing().is_none() {
            client.close(why);
            list_closing(due, heard, client, place);
            return true;
        }
    }
    false
}

// A piece came from the client at a place, if somebody is there who isn't to be closed. Gives whether it is to be closed by that.
fn came_at(
    clients: &mut Vec<Option<Client>>,
    due: &mut Due,
    heard: &mut Due,
    place: u16,
    piece: &[u8],
) -> bool
    ensures came { CameAt clients.old.items place piece.now clients.new.items result }
    ensures due { AreDue clients.old.items due.old heard.old → AreDue clients.new.items due.new heard.new }
{
    let at = place as usize;
    if at >= clients.len() {
        return false;
    }
    if let Some(client) = &mut clients[at] {
        if client.closing().is_none() {
            client.came(piece);
            list_came(due, heard, client, place);
            return client.closing().is_some();
        }
    }
    false
}

// What is awaited once somebody is to be closed.
fn after_closing(phase: Phase) -> Phase
    ensures { result ≡ after_closing phase }
{
    match phase {
        Phase::Settled => Phase::Answering,
        _ => phase,
    }
}

// The desk of the client at a place, if somebody is there who is one.
fn desk_of(clients: &[Option<Client>], place: u16) -> Option<u32>
    ensures desk { (client : ClientValue) → get_or clients.now place None ≡ Some client → result ≡ client.desk }
    ensures there { IfSome result (IsDeskOf clients.now place) }
{
    match clients.get(place as usize) {
        Some(Some(client)) => client.desk(),
        _ => None,
    }
}

// The client at a place is to be closed if it is this desk, unless it is already.
fn unseat(clients: &mut Vec<Option<Client>>, heard: &mut Due, place: usize, desk: u32)
    requires { place < length clients.old.items }
    ensures unseats { clients.new.items ≡ slice_set clients.old.items place (option_map (unseated desk) (get_or clients.old.items place None)) }
    ensures due { (due : DueValue) → AreDue clients.old.items due heard.old → AreDue clients.new.items due heard.new }
{
    if let Some(client) = &mut clients[place] {
        if client.closing().is_none() {
            if client.desk() == Some(desk) {
                client.close(Why::Elsewhere);
                list(heard, client, place.min(LAST_PLACE as usize) as u16);
            }
        }
    }
}

// The client at another place is to be closed if it is this desk, unless it is already.
fn unseat_beside(
    clients: &mut Vec<Option<Client>>,
    heard: &mut Due,
    place: u16,
    other: usize,
    desk: u32,
)
    requires { other < length clients.old.items }
    ensures beside { UnseatsBeside clients.old.items clients.new.items place desk other }
    ensures due { (due : DueValue) → AreDue clients.old.items due heard.old → AreDue clients.new.items due heard.new }
{
    if other != place as usize {
        unseat(clients, heard, other, desk);
    }
}

// Every client that is this desk is to be closed, but for the one at a place.
fn unseat_others(clients: &mut Vec<Option<Client>>, heard: &mut Due, place: u16, desk: u32)
    ensures unseats { AreUnseated clients.old.items clients.new.items place desk (length clients.old.items) }
    ensures due { (due : DueValue) → AreDue clients.old.items due heard.old → AreDue clients.new.items due heard.new }
{
    for other in 0..clients.len() {
        unseat_beside(clients, heard, place, other, desk);
    }
}

// The client at a place has perhaps become a desk: then every other client that is the desk is to be closed.
fn seat(register: &mut Register, clients: &mut Vec<Option<Client>>, heard: &mut Due, place: u16)
    requires { AreSeated clients.old.items (length register.old.desks) }
    ensures register { register.new ≡ register.old }
    ensures alone { (client : ClientValue) → get_or clients.old.items place None ≡ Some client
        → clients.new.items ≡ alone clients.old.items place client client.desk }
    ensures due { (due : DueValue) → AreDue clients.old.items due heard.old → AreDue clients.new.items due heard.new }
{
    if let Some(desk) = desk_of(clients, place) {
        let _ = register.replace_client(desk, place);
        unseat_others(clients, heard, place, desk);
    }
}

// Whether the client at a place is a desk.
fn is_desk_at(clients: &[Option<Client>], place: usize, desk: u32) -> bool
    ensures { MatchBool result (IsDeskOf clients.now place desk) (IsDeskOf clients.now place desk → ⊥) }
{
    match clients.get(place) {
        Some(Some(client)) => client.desk() == Some(desk),
        _ => false,
    }
}

// Whether some client is a desk: the one at the place of the hint, if there is one, or any other.
fn is_somebodys(clients: &[Option<Client>], desk: u32, hint: Option<u16>) -> bool
    ensures { MatchBool result (IsSomebodys clients.now desk) (IsSomebodys clients.now desk → ⊥) }
{
    match hint {
        Some(place) if is_desk_at(clients, place as usize, desk) => true,
        _ => is_anybodys(clients, desk),
    }
}

// Whether some client is a desk.
fn is_anybodys(clients: &[Option<Client>], desk: u32) -> bool
    ensures { MatchBool result (IsSomebodys clients.now desk) (IsSomebodys clients.now desk → ⊥) }
{
    for place in 0..clients.len() {
        if is_desk_at(clients, place, desk) {
            return true;
        }
    }
    false
}

// Whether a desk may be forgotten.
fn is_forgettable(register: &Register, clients: &[Option<Client>], desk: u32) -> bool
    requires { desk < length register.now.desks }
    ensures { MatchBool result (IsForgettable register.now clients.now desk) (IsForgettable register.now clients.now desk → ⊥) }
{
    register.is_unused(desk) && !is_somebodys(clients, desk, register.client_of(desk))
}

// A desk that may be forgotten, if there is one.
fn first_spare(register: &Register, clients: &[Option<Client>]) -> Option<u32>
    ensures { MatchOption result ((desk : ℕ) → IsForgettable register.now clients.now desk → ⊥) (IsForgettable register.now clients.now) }
{
    for desk in 0..register.count() as u32 {
        if is_forgettable(register, clients, desk) {
            return Some(desk);
        }
    }
    None
}

// The desk that is forgotten if the client at a place becomes one and there are as many as may be; none for a client that is a desk already.
fn spare_for(register: &Register, clients: &[Option<Client>], place: u16) -> Option<u32>
    ensures spare { (client : ClientValue) → get_or clients.now place None ≡ Some client → client.desk ≡ None → IsSpare register.now clients.now result }
    ensures within { IfSome result (λ desk. desk < length register.now.desks) }
{
    if register.count() < MOST_DESKS {
        return None;
    }
    match clients.get(place as usize) {
        Some(Some(client)) if client.desk().is_none() => first_spare(register, clients),
        _ => None,
    }
}

// Takes the next line of the client at a place, if somebody is there who isn't to be closed.
fn use_line_at(
    alloc: Global,
    register: &mut Register,
    clients: &mut Vec<Option<Client>>,
    heard: &mut Due,
    place: u16,
) -> Took
    requires { AreSeated clients.old.items (length register.old.desks) }
    ensures takes { TakesBy register.old register.new clients.old.items place clients.new.items result }
    ensures seated { AreSeated clients.new.items (length register.new.desks) }
    ensures due { (due : DueValue) → AreDue clients.old.items due heard.old → AreDue clients.new.items due heard.new }
{
    let at = place as usize;
    if at >= clients.len() {
        return Took::Nothing;
    }
    let spare = spare_for(register, clients, place);
    let Some(client) = &mut clients[at] else {
        return Took::Nothing;
    };
    if client.closing().is_some() {
        return Took::Nothing;
    }
    let took = client.use_next(alloc, register, spare);
    list(heard, client, place);
    took
}
