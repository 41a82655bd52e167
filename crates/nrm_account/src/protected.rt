//! Where the seats of a leg that are protected from a product come from, under virtual nesting.
ghost use Rattle.std.specs.Prelude.{◌≡◌, ◌-◌, ◌*◌, ◌^◌, ◌<◌, ◌≤◌, ◌++◌, length, nat_abs, nat_le, nat_lt, position, IfSome, OnOk, true};
ghost use Rattle.std.specs.Int.{IsInRange};
ghost use Rattle.std.specs.List.{count_by};
ghost use Rattle.nrm_fraction.specs.Large.{size_limit};
ghost use Rattle.nrm_model.specs.Inventory.{inventory_of, uses_leg};
ghost use Rattle.nrm_virtual.specs.Adjusted.{HasPrices};
ghost use Rattle.nrm_virtual.specs.Buckets.{bucket_count, bucket_of};
ghost use Rattle.nrm_emsr.specs.Protections.{protection_of};
ghost use Rattle.nrm_account.specs.Inner.Bases.{IsBasisOf};
ghost use Rattle.nrm_account.specs.Nests.{basis_text, nest_line, nest_text, protected_text};

use crate::line::ROOM;
use crate::nest::{Quotient, demand, enough, nest};
use crate::text::push_line;
use nrm_emsr::{Basis, Mean, basis_of, protections};
use nrm_lp::Certificate;
use nrm_model::Network;
use nrm_text::Text;
use nrm_virtual::{BucketTable, adjusted, bucket};
use std::alloc::{AllocError, Global};

// How many of these numbers are above so many seats.
fn count_above(demands: &[u32], seats: u16) -> usize
    ensures count { result ≡ count_by (λ demand. nat_lt seats demand) demands.now }
    ensures within { result ≤ length demands.now }
{
    let mut count = 0;
    for demand in demands {
        if *demand > u32::from(seats) {
            count += 1;
        }
    }
    count
}

// The line of a product on a leg.
fn nest_line_of(net: &Network, cert: &Certificate, leg: u8, product: u16, bucket: u8) -> Text<ROOM>
    requires prices { HasPrices size_limit (length net.now.legs) cert.now }
    requires leg { leg < length net.now.legs }
    requires product { product < length net.now.products }
    requires uses { uses_leg (inventory_of net.now) leg product ≡ true }
    requires bucket { bucket ≡ bucket_of net.now cert.now leg product }
    requires within { IsInRange 1 (bucket_count net.now leg) bucket }
    ensures { result ≡ nest_line net.now cert.now leg product }
{
    let its = net.leg_at(leg);
    let fare = Quotient {
        num: adjusted(net, cert, leg, product),
        den: u128::from(cert.den.unsigned_abs()),
    };
    nest(&its.name, fare, bucket, its.cuts.as_slice())
}

// A mean fare as a fraction.
fn quotient_of(mean: Mean, cert: &Certificate) -> Quotient
    requires seats { mean.seats < 2 ^ 23 }
    requires den { (1 ≤ nat_abs cert.now.den) × (nat_abs cert.now.den < 2 ^ 63) }
    ensures num { result.num ≡ mean.fares }
    ensures den { result.den ≡ mean.seats * nat_abs cert.now.den }
    ensures size { result.den < 2 ^ 126 }
{
    Quotient {
        num: mean.fares,
        den: u128::from(mean.seats) * u128::from(cert.den.unsigned_abs()),
    }
}

// Appends what some seats are found to be enough from.
fn push_basis(
    text: &mut Vec<u8>,
    net: &Network,
    cert: &Certificate,
    leg: u8,
    period: u8,
    buckets: u8,
    seats: u16,
    basis: &Basis,
) -> Result<(), AllocError>
    requires prices { HasPrices size_limit (length net.now.legs) cert.now }
    requires leg { leg < length net.now.legs }
    requires seats { seats ≡ protection_of net.now cert.now leg period buckets }
    requires basis { IsBasisOf net.now cert.now leg period buckets basis.now }
    ensures { OnOk result (text.new.items ≡ text.old.items ++ basis_text net.now cert.now leg period buckets) }
{
    if basis.above.seats == 0 {
        return Ok(());
    }
    let name = &net.leg_at(leg).name;
    let histories = net.n();
    let mean = quotient_of(basis.above, cert);
    let next = quotient_of(basis.next, cert);
    let demands = basis.demands.as_slice();
    let passed = count_above(demands, seats) as u8;
    push_line(
        text,
        &enough(name, seats, buckets, mean, next, histories, passed),
    )?;
    push_line(text, &demand(name, demands))
}

// Appends where the seats that are protected for buckets 1 to `last` come from, if there are some.
fn push_protected(
    alloc: Global,
    text: &mut Vec<u8>,
    net: &Network,
    cert: &Certificate,
    leg: u8,
    period: u8,
    last: u8,
) -> Result<(), AllocError>
    requires prices { HasPrices size_limit (length net.now.legs) cert.now }
    requires leg { leg < length net.now.legs }
    requires period { IsInRange 1 net.now.periods period }
    requires last { last < bucket_count net.now leg }
    ensures { OnOk result (text.new.items ≡ text.old.items ++ protected_text net.now cert.now leg period last) }
{
    if last == 0 {
        return Ok(());
    }
    // For its clause alone: a leg has few thresholds.
    let _ = net.leg_at(leg);
    let table = BucketTable::build(alloc, net, cert)?;
    let found = protections(alloc, net, cert, &table, leg, period)?;
    let levels = found.as_slice();
    let seats = levels[last as usize - 1];
    if seats == 0 {
        return Ok(());
    }
    match first_reaching(levels, seats) {
        Some(place) => {
            let buckets = place as u8 + 1;
            let basis = basis_of(alloc, net, cert, &table, leg, buckets, period)?;
            push_basis(text, net, cert, leg, period, buckets, levels[place], &basis)
        }
        None => Ok(()),
    }
}

// The place of the first of these numbers that is at least so many seats.
fn first_reaching(levels: &[u16], seats: u16) -> Option<usize>
    ensures place { result ≡ position (λ level. nat_le seats level) levels.now }
    ensures within { IfSome result (λ place. place < length levels.now) }
{
    levels.iter().position(|level| *level >= seats)
}

/// Appends the nest of a product on a leg, and where the seats that are protected from it come from.
pub(crate) fn push_nest(
    alloc: Global,
    text: &mut Vec<u8>,
    net: &Network,
    cert: &Certificate,
    period: u8,
    leg: u8,
    product: u16,
) -> Result<(), AllocError>
    requires prices { HasPrices size_limit (length net.now.legs) cert.now }
    requires period { IsInRange 1 net.now.periods period }
    requires leg { leg < length net.now.legs }
    requires product { product < length net.now.products }
    requires uses { uses_leg (inventory_of net.now) leg product ≡ true }
    ensures { OnOk result (text.new.items ≡ text.old.items ++ nest_text net.now cert.now period leg product) }
{
    let bucket = bucket(net, cert, leg, product);
    push_line(text, &nest_line_of(net, cert, leg, product, bucket))?;
    push_protected(alloc, text, net, cert, leg, period, bucket - 1)
}
