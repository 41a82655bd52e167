//! The parts of a network, from plain lists.
ghost use Rattle.std.specs.Prelude.{◌≡◌, IfOk, IsTrue};
ghost use Rattle.nrm_text.specs.Names.{is_name};

use nrm_model::{Leg, LegNumbers, Product, Thresholds};
use nrm_text::{Name, name_of};
use std::alloc::{AllocError, Global};

/// The name that these bytes are.
pub(crate) fn name(text: &[u8]) -> Name
    requires { IsTrue (is_name text.now) }
    ensures { result ≡ text.now }
{
    name_of(text).unwrap()
}

/// A leg of this name with so many physical seats, so many authorised seats and these thresholds.
///
/// # Errors
/// Memory runs out.
pub(crate) fn leg(
    alloc: Global,
    text: &[u8],
    seats: u16,
    authorised: u16,
    thresholds: &[u32],
) -> Result<Leg, AllocError>
    requires { IsTrue (is_name text.now) }
    ensures { IfOk result (λ leg. leg ≡ record { name = text.now; seats = seats; authorised = authorised; cuts = thresholds.now }) }
{
    Ok(Leg {
        name: name(text),
        seats,
        authorised,
        cuts: Thresholds::new(thresholds.to_vec(alloc)?),
    })
}

/// A product of this name at a fare, with a refund percentage, over the legs of these numbers.
///
/// # Errors
/// Memory runs out.
pub(crate) fn product(
    alloc: Global,
    text: &[u8],
    fare: u32,
    refund: u8,
    legs: &[u8],
) -> Result<Product, AllocError>
    requires { IsTrue (is_name text.now) }
    ensures { IfOk result (λ product. product ≡ record { name = text.now; fare = fare; refund = refund; legs = legs.now }) }
{
    Ok(Product {
        name: name(text),
        fare,
        refund,
        legs: LegNumbers::new(legs.to_vec(alloc)?),
    })
}
