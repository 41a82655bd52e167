//! Places are listed, as something becomes due of the clients at them.
ghost use Rattle.std.specs.Prelude.{ℕ, ◌≡◌, ◌≤◌, None, ◌⊎◌};
ghost use Rattle.nrm_frames.specs.declared.limits.TheConstants.{LAST_PLACE};
ghost use Rattle.nrm_hub.specs.Due.{IsDue, StillDue, StillDueBeside};
ghost use Rattle.nrm_hub.specs.Inner.Seats.{IsQuietAt};
ghost use Rattle.nrm_hub.specs.Waiting.{IsAtRest};

use crate::client::Client;
use crate::due::Due;

/// Something is due at the place of a client.
pub(crate) fn list(due: &mut Due, client: &mut Client, place: u16)
    ensures client { client.new ≡ client.old }
    ensures due { IsDue due.new place }
    ensures still { StillDue due.old due.new }
{
    client.due_at = due.add(client.due_at, place);
}

/// A piece came from the client at a place: its turn comes, or it is to be closed.
pub(crate) fn list_came(due: &mut Due, heard: &mut Due, client: &mut Client, place: u16)
    ensures client { client.new ≡ client.old }
    ensures listed { IsDue heard.new place ⊎ ((client.old.closing ≡ None) × IsDue due.new place) }
    ensures due { StillDueBeside place due.old due.new }
    ensures heard { StillDue heard.old heard.new }
{
    if client.closing().is_none() {
        list(due, client, place);
    } else {
        list_closing(due, heard, client, place);
    }
}

/// The client at a place is to be closed, so that it has no turn.
pub(crate) fn list_closing(due: &mut Due, heard: &mut Due, client: &mut Client, place: u16)
    ensures client { client.new ≡ client.old }
    ensures listed { IsDue heard.new place }
    ensures due { StillDueBeside place due.old due.new }
    ensures heard { StillDue heard.old heard.new }
{
    due.strike(client.due_at, place);
    list(heard, client, place);
}

// Something is due at the place of a client, unless it is at rest.
fn list_unless_at_rest(due: &mut Due, client: &mut Client, place: u16)
    ensures client { client.new ≡ client.old }
    ensures listed { IsAtRest client.old ⊎ IsDue due.new place }
    ensures still { StillDue due.old due.new }
{
    if !client.is_at_rest() {
        list(due, client, place);
    }
}

// Something is due at a place, unless nobody is there, or one who is at rest.
fn list_at(clients: &mut Vec<Option<Client>>, due: &mut Due, place: u16)
    ensures same { clients.new.items ≡ clients.old.items }
    ensures listed { IsQuietAt clients.old.items place ⊎ IsDue due.new place }
    ensures still { StillDue due.old due.new }
{
    let at = place as usize;
    if at >= clients.len() {
        return;
    }
    if let Some(client) = &mut clients[at] {
        list_unless_at_rest(due, client, place);
    }
}

/// The turn of the client at a place comes, if a line of it waits.
pub(crate) fn list_more(clients: &mut Vec<Option<Client>>, due: &mut Due, place: u16)
    ensures same { clients.new.items ≡ clients.old.items }
    ensures still { StillDue due.old due.new }
{
    let at = place as usize;
    if at >= clients.len() {
        return;
    }
    if let Some(client) = &mut clients[at] {
        if client.has_line() {
            list(due, client, place);
        }
    }
}

/// Adds the places of a list to another one, but for those where nobody is, or one who is at rest.
pub(crate) fn move_due(clients: &mut Vec<Option<Client>>, from: &Due, to: &mut Due)
    ensures same { clients.new.items ≡ clients.old.items }
    ensures moved { (place : ℕ) → place ≤ LAST_PLACE → IsDue from.now place → IsQuietAt clients.old.items place ⊎ IsDue to.new place }
    ensures still { StillDue to.old to.new }
{
    for at in 0..from.count() {
        list_at(clients, to, from.at(at));
    }
}
