//! The account of a request: the plan in force, the product, each of its legs, its fare against the bid prices where these decide, and the
//! largest party that would be sold.
ghost use Rattle.std.specs.Prelude.{◌≡◌, ◌<◌, ◌++◌, All, flat_map, length, OnOk, true};
ghost use Rattle.nrm_fraction.specs.Large.{size_limit};
ghost use Rattle.nrm_model.specs.Inventory.{inventory_of, uses_leg};
ghost use Rattle.nrm_virtual.specs.Adjusted.{HasPrices};
ghost use Rattle.nrm_plan.specs.Plans.{IsPlanOf};
ghost use Rattle.nrm_account.specs.Account.{leg_account, request_account};
ghost use Rattle.nrm_account.specs.Inner.Priced.{priced_line, priced_text};
ghost use Rattle.nrm_account.specs.Texts.{fare_text_of, leg_line, leg_text, nest_in_mode, plan_line, product_line, request_text};

use crate::largest::largest;
use crate::line::{LegNumbers, ROOM, leg, plan, price, product, sum};
use crate::protected::push_nest;
use crate::text::push_line;
use nrm_book::Book;
use nrm_control::{Answer, Controller};
use nrm_lp::Certificate;
use nrm_model::{Mode, Network};
use nrm_plan::Plan;
use nrm_text::Text;
use std::alloc::{AllocError, Global};

// The line of the plan in force.
fn plan_line(plan_in_force: &Plan, planned: u64) -> Text<ROOM>
    ensures { result ≡ plan_line planned plan_in_force.now }
{
    plan(plan_in_force.mode(), planned, plan_in_force.period())
}

// The line of a product.
fn product_line(net: &Network, number: u16) -> Text<ROOM>
    requires { number < length net.now.products }
    ensures { result ≡ product_line net.now number }
{
    let its = net.product_at(number);
    product(&its.name, its.fare, its.refund)
}

// The line of a leg of a request.
fn leg_line(
    net: &Network,
    plan: &Plan,
    book: &Book,
    number: u8,
    product: u16,
    party: u16,
) -> Text<ROOM>
    requires plan { IsPlanOf net.now plan.now }
    requires book { book.now.inventory ≡ inventory_of net.now }
    requires leg { number < length net.now.legs }
    requires product { product < length net.now.products }
    requires uses { uses_leg (inventory_of net.now) number product ≡ true }
    ensures { result ≡ leg_line (leg_account net.now plan.now book.now.bookings product party number) }
{
    let its = net.leg_at(number);
    let numbers = LegNumbers {
        authorised: its.authorised,
        left: book.left(number),
        protected: plan.protected_from(net, number, product),
        needs: party,
    };
    leg(&its.name, &numbers)
}

// Appends the nest of a product on a leg, where the mode has nests.
fn push_nest_in_mode(
    alloc: Global,
    text: &mut Vec<u8>,
    net: &Network,
    plan: &Plan,
    leg: u8,
    product: u16,
) -> Result<(), AllocError>
    requires plan { IsPlanOf net.now plan.now }
    requires leg { leg < length net.now.legs }
    requires product { product < length net.now.products }
    requires uses { uses_leg (inventory_of net.now) leg product ≡ true }
    ensures { OnOk result (text.new.items
        ≡ text.old.items ++ nest_in_mode net.now plan.now.mode plan.now.certificate plan.now.period leg product) }
{
    net.limits_hold();
    match (plan.mode(), plan.certificate()) {
        (Mode::Davn, Some(certificate)) => {
            push_nest(alloc, text, net, certificate, plan.period(), leg, product)
        }
        (_, _) => Ok(()),
    }
}

// Appends a leg of a request.
fn push_leg(
    alloc: Global,
    text: &mut Vec<u8>,
    net: &Network,
    plan: &Plan,
    book: &Book,
    leg: u8,
    product: u16,
    party: u16,
) -> Result<(), AllocError>
    requires plan { IsPlanOf net.now plan.now }
    requires book { book.now.inventory ≡ inventory_of net.now }
    requires leg { leg < length net.now.legs }
    requires product { product < length net.now.products }
    requires uses { uses_leg (inventory_of net.now) leg product ≡ true }
    ensures { OnOk result (text.new.items
        ≡ text.old.items ++ leg_text net.now plan.now book.now.bookings product party leg) }
{
    push_nest_in_mode(alloc, text, net, plan, leg, product)?;
    push_line(text, &leg_line(net, plan, book, leg, product, party))
}

// Appends the legs of a request.
fn push_legs(
    alloc: Global,
    text: &mut Vec<u8>,
    net: &Network,
    plan: &Plan,
    book: &Book,
    legs: &[u8],
    product: u16,
    party: u16,
) -> Result<(), AllocError>
    requires plan { IsPlanOf net.now plan.now }
    requires book { book.now.inventory ≡ inventory_of net.now }
    requires product { product < length net.now.products }
    requires legs { All (λ leg. (leg < length net.now.legs) × (uses_leg (inventory_of net.now) leg product ≡ true)) legs.now }
    ensures { OnOk result (text.new.items
        ≡ text.old.items ++ flat_map (leg_text net.now plan.now book.now.bookings product party) legs.now) }
{
    for leg in legs {
        push_leg(alloc, text, net, plan, book, *leg, product, party)?;
    }
    Ok(())
}

// The line of the bid price of a leg.
fn price_line_of(net: &Network, cert: &Certificate, leg: u8) -> Text<ROOM>
    requires prices { HasPrices size_limit (length net.now.legs) cert.now }
    requires leg { leg < length net.now.legs }
    ensures { result ≡ priced_line net.now cert.now leg }
{
    let name = &net.leg_at(leg).name;
    price(name, cert.bid_price(leg), cert.den.unsigned_abs())
}

// Appends the bid prices of legs.
fn push_prices(
    text: &mut Vec<u8>,
    net: &Network,
    cert: &Certificate,
    legs: &[u8],
) -> Result<(), AllocError>
    requires prices { HasPrices size_limit (length net.now.legs) cert.now }
    requires legs { All (λ leg. leg < length net.now.legs) legs.now }
    ensures { OnOk result (text.new.items ≡ text.old.items ++ flat_map (priced_line net.now cert.now) legs.now) }
{
    for leg in legs {
        push_line(text, &price_line_of(net, cert, *leg))?;
    }
    Ok(())
}

// Appends the bid prices of a product's legs, and their sum beside its fare.
fn push_priced(
    text: &mut Vec<u8>,
    net: &Network,
    cert: &Certificate,
    product: u16,
) -> Result<(), AllocError>
    requires prices { HasPrices size_limit (length net.now.legs) cert.now }
    requires product { product < length net.now.products }
    ensures { OnOk result (text.new.items ≡ text.old.items ++ priced_text net.now cert.now product) }
{
    let its = net.product_at(product);
    let legs = its.legs.as_slice();
    push_prices(text, net, cert, legs)?;
    let den = cert.den.unsigned_abs();
    push_line(text, &sum(its.fare, cert.price_sum(legs), den))
}

// Appends the fare of a request against the bid prices, where these decide and no leg is short.
fn push_fare(
    text: &mut Vec<u8>,
    controller: &Controller,
    product: u16,
    party: u16,
) -> Result<(), AllocError>
    requires { product < length controller.now.net.products }
    ensures { OnOk result (text.new.items
        ≡ text.old.items ++ fare_text_of
        (request_account controller.now.net controller.now.plan controller.now.bookings controller.now.next product party)) }
{
    let net = controller.network();
    let plan = controller.plan();
    match (plan.mode(), plan.certificate()) {
        (Mode::Bid, Some(certificate)) => match controller.verdict(product, party) {
            Answer::Leg(_) => Ok(()),
            Answer::Fare | Answer::Sold { .. } => push_priced(text, net, certificate, product),
        },
        (_, _) => Ok(()),
    }
}

/// Appends the account of a request for a party of a product, where `planned` is the number of the line that made the plan in force, or 0.
pub(crate) fn push_request(
    alloc: Global,
    text: &mut Vec<u8>,
    controller: &Controller,
    planned: u64,
    product: u16,
    party: u16,
) -> Result<(), AllocError>
    requires { product < length controller.now.net.products }
    ensures { OnOk result (text.new.items
        ≡ text.old.items ++ request_text controller.now.net planned controller.now.plan controller.now.bookings controller.now.next product party) }
{
    let net = controller.network();
    let plan = controller.plan();
    push_line(text, &plan_line(plan, planned))?;
    push_line(text, &product_line(net, product))?;
    let legs = net.product_at(product).legs.as_slice();
    push_legs(
        alloc,
        text,
        net,
        plan,
        controller.book(),
        legs,
        product,
        party,
    )?;
    push_fare(text, controller, product, party)?;
    push_line(text, &largest(controller, product))
}
