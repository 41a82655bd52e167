//! A leg's products with their buckets and their adjusted fares, each found once.
ghost use Rattle.std.specs.Prelude.{◌≡◌, ◌<◌, ◌≤◌, All, IfOk, length, true};
ghost use Rattle.nrm_fraction.specs.Large.{size_limit};
ghost use Rattle.nrm_model.specs.Inventory.{inventory_of, uses_leg};
ghost use Rattle.nrm_model.specs.declared.limits.TheConstants.{MOST_PRODUCTS};
ghost use Rattle.nrm_virtual.specs.Adjusted.{HasPrices, adjusted_fare};
ghost use Rattle.nrm_virtual.specs.Buckets.{bucket_of};
ghost use Rattle.nrm_virtual.specs.Table.{IsTableOf};
ghost use Rattle.nrm_emsr.specs.Inner.Nest.{IsKnown, nest_on};

use nrm_lp::Certificate;
use nrm_model::Network;
use nrm_virtual::{BucketTable, adjusted};
use std::alloc::{AllocError, Global};

/// A product of a leg: its bucket there, and its adjusted fare over the certificate's denominator.
#[derive(Drop)]
pub(crate) struct Nested {
    pub(crate) product: u16,
    pub(crate) bucket: u8,
    pub(crate) fare: i128,
}

/// The products of a leg, in file order.
///
/// # Errors
/// Memory runs out.
pub(crate) fn nested_on(
    alloc: Global,
    net: &Network,
    cert: &Certificate,
    table: &BucketTable,
    leg: u8,
) -> Result<Vec<Nested>, AllocError>
    requires prices { HasPrices size_limit (length net.now.legs) cert.now }
    requires table { IsTableOf net.now cert.now table.now }
    requires leg { leg < length net.now.legs }
    ensures nest { IfOk result (λ nest. nest.items ≡ nest_on net.now cert.now leg) }
    ensures few { IfOk result (λ nest. length nest.items ≤ MOST_PRODUCTS) }
    ensures known { IfOk result (λ nest. All (IsKnown (length net.now.products)) nest.items) }
{
    net.limits_hold();
    let mut nest = Vec::new(alloc);
    for product in net.products_on(leg) {
        nest.push(nested_at(net, cert, table, leg, *product))?;
    }
    Ok(nest)
}

// A product of a leg.
fn nested_at(
    net: &Network,
    cert: &Certificate,
    table: &BucketTable,
    leg: u8,
    product: u16,
) -> Nested
    requires prices { HasPrices size_limit (length net.now.legs) cert.now }
    requires table { IsTableOf net.now cert.now table.now }
    requires leg { leg < length net.now.legs }
    requires product { product < length net.now.products }
    requires uses { uses_leg (inventory_of net.now) leg product ≡ true }
    ensures product { result.product ≡ product }
    ensures bucket { result.bucket ≡ bucket_of net.now cert.now leg product }
    ensures fare { result.fare ≡ adjusted_fare net.now cert.now leg product }
    ensures known { IsKnown (length net.now.products) result }
{
    Nested {
        product,
        bucket: table.bucket_of(leg, product),
        fare: adjusted(net, cert, leg, product),
    }
}
