//! A fare against the bid prices of its legs.
ghost use Rattle.std.specs.Prelude.{◌≡◌, ◌<◌, length};
ghost use Rattle.nrm_fraction.specs.Large.{size_limit};
ghost use Rattle.nrm_virtual.specs.Adjusted.{HasPrices};
ghost use Rattle.nrm_plan.specs.Plans.{below_bid_prices};

use nrm_lp::Certificate;
use nrm_model::Network;

/// Whether the fare of a product is below the sum of the bid prices of its legs, in exact whole numbers over the
/// certificate's denominator.
pub(crate) fn below_bid_prices(net: &Network, certificate: &Certificate, product: u16) -> bool
    requires prices { HasPrices size_limit (length net.now.legs) certificate.now }
    requires product { product < length net.now.products }
    ensures { result ≡ below_bid_prices net.now certificate.now product }
{
    let product = net.product_at(product);
    let fare = u128::from(certificate.den.unsigned_abs()) * u128::from(product.fare);
    fare < u128::from(certificate.price_sum(product.legs.as_slice()))
}
