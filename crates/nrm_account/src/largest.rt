//! The largest party of a product that would be sold, and what a seat more would be answered.
ghost use Rattle.std.specs.Prelude.{◌≡◌, ◌-◌, ◌<◌, ◌≤◌, ◌∷◌, ◌++◌, All, length, map, min, true};
ghost use Rattle.nrm_text.specs.Words.{spaced};
ghost use Rattle.nrm_model.specs.Inventory.{inventory_of, uses_leg};
ghost use Rattle.nrm_model.specs.Network.{least_of};
ghost use Rattle.nrm_model.specs.declared.limits.TheConstants.{MOST_PARTY};
ghost use Rattle.nrm_plan.specs.Plans.{IsPlanOf};
ghost use Rattle.nrm_control.specs.Standing.{IsOnNetwork};
ghost use Rattle.nrm_session.specs.Replies.{bad, reply_to, text_of};
ghost use Rattle.nrm_account.specs.Largest.{largest_party, open_seats};
ghost use Rattle.nrm_account.specs.Texts.{largest_line};

use crate::line::ROOM;
use nrm_book::Book;
use nrm_control::{Answer, Controller};
use nrm_model::{MOST_PARTY, Network};
use nrm_plan::Plan;
use nrm_text::Text;

// The seats of a leg that are open to a product.
fn open_seats(net: &Network, plan: &Plan, book: &Book, product: u16, leg: u8) -> u16
    requires plan { IsPlanOf net.now plan.now }
    requires book { book.now.inventory ≡ inventory_of net.now }
    requires leg { leg < length net.now.legs }
    requires product { product < length net.now.products }
    requires uses { uses_leg (inventory_of net.now) leg product ≡ true }
    ensures { result ≡ open_seats net.now plan.now book.now.bookings product leg }
{
    book.left(leg)
        .saturating_sub(plan.protected_from(net, leg, product))
}

// The least of so many seats and of those that are open on these legs.
fn least_open(net: &Network, plan: &Plan, book: &Book, legs: &[u8], product: u16) -> u16
    requires plan { IsPlanOf net.now plan.now }
    requires book { book.now.inventory ≡ inventory_of net.now }
    requires product { product < length net.now.products }
    requires legs { All (λ leg. (leg < length net.now.legs) × (uses_leg (inventory_of net.now) leg product ≡ true)) legs.now }
    ensures least { result ≡ least_of (MOST_PARTY ∷ map (open_seats net.now plan.now book.now.bookings product) legs.now) }
    ensures within { result ≤ MOST_PARTY }
{
    let mut least = MOST_PARTY;
    for leg in legs {
        least = least.min(open_seats(net, plan, book, product, *leg));
    }
    least
}

/// The largest party of a product that would be sold now: 0 where none would. A request for a party is sold exactly if the party
/// is no larger. Nothing changes, and it takes no memory.
pub fn largest_party(controller: &Controller, product: u16) -> u16
    requires product { product < length controller.now.net.products }
    ensures party { result ≡ largest_party controller.now.net controller.now.plan controller.now.bookings product }
    ensures within { result ≤ MOST_PARTY }
{
    let net = controller.network();
    let plan = controller.plan();
    if plan.fare_refuses(net, product) {
        return 0;
    }
    let legs = net.product_at(product).legs.as_slice();
    least_open(net, plan, controller.book(), legs, product)
}

// Appends the reply to an answer.
#[tactic(auto, using(nrm_text::proofs::Decimals::short_decimal))]
fn push_answer(line: &mut Text<ROOM>, net: &Network, answer: Answer)
    requires on { IsOnNetwork net.now answer }
    requires room { length line.old ≤ 60 }
    ensures { line.new ≡ line.old ++ spaced (text_of (reply_to net.now answer)) }
{
    match answer {
        Answer::Sold { number } => {
            line.push_bytes(b" ok ");
            line.push_u64(number);
        }
        Answer::Leg(leg) => {
            line.push_bytes(b" no ");
            line.push_name(&net.leg_at(leg).name);
        }
        Answer::Fare => line.push_bytes(b" no fare"),
    }
    line.push_bytes(b"\n");
}

/// The line of the largest party of a product, and of what one seat more would be answered.
pub(crate) fn largest(controller: &Controller, product: u16) -> Text<ROOM>
    requires product { product < length controller.now.net.products }
    ensures { result ≡ largest_line controller.now.net controller.now.plan controller.now.bookings controller.now.next product }
{
    let party = largest_party(controller, product);
    let mut line = Text::of_bytes(b"largest");
    line.push_spaced(u64::from(party));
    line.push_bytes(b" then");
    if party < MOST_PARTY {
        push_answer(
            &mut line,
            controller.network(),
            controller.verdict(product, party + 1),
        );
    } else {
        line.push_bytes(b" bad\n");
    }
    line
}
