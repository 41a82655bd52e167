//! The parts of a made network: as many seats are authorised as there are, and all is given back of each fare. The seats of
//! the legs are drawn first, then the fares of the products, then the demand, so a contract says how many draws came before.
ghost use Rattle.std.specs.Prelude.{◌≡◌, ◌+◌, ◌<◌, ℕ, IfOk, OnOk, map};
ghost use Rattle.std.specs.List.{range_with_len};
ghost use Rattle.nrm_gen.specs.Draws.{state_after};
ghost use Rattle.nrm_gen.specs.MadeNetwork.{made_demand, made_leg, made_product, product_fare, product_legs};

use crate::draws::Draws;
use crate::names::{leg_name, product_name};
use nrm_model::{Leg, LegNumbers, MOST_REFUND, Product, Thresholds};
use std::alloc::{AllocError, Global};

/// How many histories a made network has.
pub(crate) const HISTORIES: u8 = 8;

/// How many periods each history has.
pub(crate) const PERIODS: u8 = 4;

// The first six inbound, the others outbound.
const LEGS: u8 = 12;

// Two on each leg, the dear one first, and one from each inbound leg to each outbound one.
const PRODUCTS: u8 = 60;

// A number for each product, history and period.
const DEMANDS: u16 = 1_920;

/// The legs.
pub(crate) fn made_legs(alloc: Global, draws: &mut Draws) -> Result<Vec<Leg>, AllocError>
    ensures legs { IfOk result
        (λ legs. (number : ℕ) → draws.old ≡ state_after number 0 → legs.items ≡ map (made_leg number) (range_with_len 0 12)) }
    ensures state { OnOk result ((number : ℕ) → draws.old ≡ state_after number 0 → draws.new ≡ state_after number 12) }
{
    let mut legs = Vec::new(alloc);
    for leg in 0..LEGS {
        legs.push(made_leg(alloc, draws, leg)?)?;
    }
    Ok(legs)
}

/// The products.
pub(crate) fn made_products(alloc: Global, draws: &mut Draws) -> Result<Vec<Product>, AllocError>
    ensures products { IfOk result
        (λ products. (number : ℕ) → draws.old ≡ state_after number 12 → products.items ≡ map (made_product number) (range_with_len 0 60)) }
    ensures state { OnOk result ((number : ℕ) → draws.old ≡ state_after number 12 → draws.new ≡ state_after number 72) }
{
    let mut products = Vec::new(alloc);
    for product in 0..PRODUCTS {
        products.push(made_product(alloc, draws, product)?)?;
    }
    Ok(products)
}

/// The demand, product by product, history by history, period by period.
pub(crate) fn made_demand(alloc: Global, draws: &mut Draws) -> Result<Vec<u16>, AllocError>
    ensures demand { IfOk result (λ demand. (number : ℕ) → draws.old ≡ state_after number 72 → demand.items ≡ made_demand number) }
    ensures state { OnOk result ((number : ℕ) → draws.old ≡ state_after number 72 → draws.new ≡ state_after number 1992) }
{
    let mut demand = Vec::new(alloc);
    for _place in 0..DEMANDS {
        demand.push(draws.draw(6) as u16)?;
    }
    Ok(demand)
}

#[tactic(auto, using(crate::proofs::DrawLemmas::state_after_more), unfolding(crate::specs::Draws::state_after))]
fn made_leg(alloc: Global, draws: &mut Draws, leg: u8) -> Result<Leg, AllocError>
    requires { leg < 12 }
    ensures leg { IfOk result (λ made. (number : ℕ) → draws.old ≡ state_after number leg → made ≡ made_leg number leg) }
    ensures state { OnOk result ((number : ℕ) → draws.old ≡ state_after number leg → draws.new ≡ state_after number (leg + 1)) }
{
    let seats = 40 + draws.draw(40) as u16;
    let cuts = vec![in alloc; 400, 200, 100]?;
    Ok(Leg {
        name: leg_name(leg),
        seats,
        authorised: seats,
        cuts: Thresholds::new(cuts),
    })
}

fn made_product(alloc: Global, draws: &mut Draws, product: u8) -> Result<Product, AllocError>
    requires { product < 60 }
    ensures product { IfOk result
        (λ made. (number : ℕ) → draws.old ≡ state_after number (12 + product) → made ≡ made_product number product) }
    ensures state { OnOk result
        ((number : ℕ) → draws.old ≡ state_after number (12 + product) → draws.new ≡ state_after number (12 + product + 1)) }
{
    let fare = product_fare(draws, product);
    let legs = product_legs(alloc, product)?;
    Ok(Product {
        name: product_name(product),
        fare,
        refund: MOST_REFUND,
        legs: LegNumbers::new(legs),
    })
}

// That of a through product, and on one leg that of the dear product and of the cheap one.
#[tactic(auto, using(crate::proofs::DrawLemmas::state_after_more), unfolding(crate::specs::Draws::state_after))]
fn product_fare(draws: &mut Draws, product: u8) -> u32
    ensures fare { (number : ℕ) → draws.old ≡ state_after number (12 + product) → result ≡ product_fare number product }
    ensures state { (number : ℕ) → draws.old ≡ state_after number (12 + product) → draws.new ≡ state_after number (12 + product + 1) }
{
    if product >= 24 {
        350 + draws.draw(300)
    } else if product % 2 == 0 {
        300 + draws.draw(200)
    } else {
        100 + draws.draw(100)
    }
}

fn product_legs(alloc: Global, product: u8) -> Result<Vec<u8>, AllocError>
    ensures { IfOk result (λ legs. legs.items ≡ product_legs product) }
{
    if product < 24 {
        return Ok(vec![in alloc; product / 2]?);
    }
    let pair = product - 24;
    Ok(vec![in alloc; pair / 6, 6 + pair % 6]?)
}
