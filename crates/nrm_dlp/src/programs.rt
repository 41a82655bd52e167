//! Programs of a network, part by part: caps leg by leg, and bounds, fares and legs product by product. The fares and
//! legs are the network's; what differs from program to program is the caps and the bounds.
ghost use Rattle.std.specs.Prelude.{ℕ, ◌≡◌, ◌<◌, ◌≤◌, ◌*◌, All, IfOk, length, map, slice_index};
ghost use Rattle.std.specs.Int.{IsInRange};
ghost use Rattle.std.specs.List.{range_with_len};
ghost use Rattle.nrm_model.specs.Network.{leg_of};
ghost use Rattle.nrm_model.specs.Demand.{total_to_come};
ghost use Rattle.nrm_model.specs.Inventory.{inventory_of};
ghost use Rattle.nrm_model.specs.Limits.{IsNetwork};
ghost use Rattle.nrm_lp.specs.declared.limits.TheConstants.{MOST_SEATS_IN_ALL};
ghost use Rattle.nrm_dlp.specs.Hindsight.{AreTallies};
ghost use Rattle.nrm_dlp.specs.Programs.{hindsight_program, opening_program, program_at, program_of};

use nrm_lp::Program;
use nrm_model::Network;
use std::alloc::{AllocError, Global};

/// The program of a network with these caps, leg by leg, and bounds, product by product.
///
/// # Errors
/// Memory runs out.
pub fn program_of(
    alloc: Global,
    net: &Network,
    caps: Vec<u32>,
    bounds: Vec<u32>,
) -> Result<Program, AllocError>
    requires legs { length caps.items ≡ length net.now.legs }
    requires caps { All (λ cap. cap ≤ MOST_SEATS_IN_ALL) caps.items }
    requires products { length bounds.items ≡ length net.now.products }
    requires bounds { All (λ bound. bound ≤ MOST_SEATS_IN_ALL) bounds.items }
    ensures { IfOk result (λ program. program ≡ program_of net.now caps.items bounds.items) }
{
    let fares = net.fares_of_products(alloc)?;
    let legs = net.legs_of_products(alloc)?;
    Ok(Program::new(caps, bounds, fares, legs))
}

/// The deterministic linear program of a network at these seats left, from period `period` on (chapter 3 of Talluri
/// and van Ryzin), summed over the demand histories so that all data are whole: a leg's cap is its seats left times
/// the histories, and a product's bound is its demand to come in all of them. `left` has the seats left leg by leg,
/// on each leg at most its authorised seats; periods count from 1.
///
/// # Errors
/// Memory runs out.
pub fn program_at(
    alloc: Global,
    net: &Network,
    left: &[u16],
    period: u8,
) -> Result<Program, AllocError>
    requires legs { length left.now ≡ length net.now.legs }
    requires seats { (leg : ℕ) → leg < length net.now.legs → slice_index left.now leg ≤ (leg_of net.now leg).authorised }
    requires period { IsInRange 1 net.now.periods period }
    ensures { IfOk result (λ program. program ≡ program_at net.now left.now period) }
{
    let caps = caps_of(alloc, net.n(), left)?;
    let bounds = bounds_of(alloc, net, period)?;
    program_of(alloc, net, caps, bounds)
}

/// The program before anything is sold: that of period 1 with every authorised seat left.
///
/// # Errors
/// Memory runs out.
pub fn opening_program(alloc: Global, net: &Network) -> Result<Program, AllocError>
    ensures { IfOk result (λ program. program ≡ opening_program net.now) }
{
    let left = net.authorised_of_legs(alloc)?;
    program_at(alloc, net, &left, 1)
}

/// The program of hindsight: a leg's cap is its authorised seats, and a product's bound its tally of past requests, once
/// and not for each history. `tallies` has the tallies product by product, in seats, none above the least authorised seats
/// among the product's legs.
///
/// # Errors
/// Memory runs out.
pub fn hindsight_program(
    alloc: Global,
    net: &Network,
    tallies: &[u16],
) -> Result<Program, AllocError>
    requires { AreTallies net.now tallies.now }
    ensures { IfOk result (λ program. program ≡ hindsight_program net.now tallies.now) }
{
    let caps = caps_once(alloc, net)?;
    let bounds = widened(alloc, tallies)?;
    program_of(alloc, net, caps, bounds)
}

// The authorised seats of each leg, once and not for each history.
fn caps_once(alloc: Global, net: &Network) -> Result<Vec<u32>, AllocError>
    ensures caps { IfOk result (λ caps. caps.items ≡ (inventory_of net.now).authorised) }
    ensures limits { IsNetwork net.now }
{
    let seats = net.authorised_of_legs(alloc)?;
    widened(alloc, &seats)
}

// These numbers, as caps or bounds.
fn widened(alloc: Global, numbers: &[u16]) -> Result<Vec<u32>, AllocError>
    ensures { IfOk result (λ wide. wide.items ≡ numbers.now) }
{
    numbers
        .iter()
        .map(|number| u32::from(*number))
        .collect(alloc)
}

// The seats left on each leg, once for each history.
fn caps_of(alloc: Global, histories: u8, left: &[u16]) -> Result<Vec<u32>, AllocError>
    ensures { IfOk result (λ caps. caps.items ≡ map (λ seats. histories * seats) left.now) }
{
    left.iter()
        .map(|seats| u32::from(histories) * u32::from(*seats))
        .collect(alloc)
}

// The demand to come of each product.
fn bounds_of(alloc: Global, net: &Network, period: u8) -> Result<Vec<u32>, AllocError>
    requires { IsInRange 1 net.now.periods period }
    ensures { IfOk result
        (λ bounds. bounds.items ≡ map (λ product. total_to_come net.now product period) (range_with_len 0 (length net.now.products))) }
{
    let mut bounds = Vec::new(alloc);
    for j in 0..net.product_count() as u16 {
        bounds.push(net.total(j, period))?;
    }
    Ok(bounds)
}
