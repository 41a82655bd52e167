//! The nests of a network at bid prices: buckets and protections, worked out once and looked up after. Beside them stand the
//! seats that are protected from each product on each leg, in one list, so that a request looks up one number for a leg.
ghost use Rattle.std.specs.Prelude.{ℕ, ◌≡◌, ◌-◌, ◌*◌, ◌<◌, ◌≤◌, IfOk, Some, [], slice_index_or, length, map, true};
ghost use Rattle.std.specs.Int.{IsInRange};
ghost use Rattle.std.specs.List.{range_with_len};
ghost use Rattle.nrm_fraction.specs.Large.{size_limit};
ghost use Rattle.nrm_model.specs.Inventory.{inventory_of, products_on, uses_leg};
ghost use Rattle.nrm_model.specs.Network.{NetworkValue};
ghost use Rattle.nrm_lp.specs.declared.certificate.Certificate.{Certificate as Cert};
ghost use Rattle.nrm_virtual.specs.Adjusted.{HasPrices};
ghost use Rattle.nrm_virtual.specs.Buckets.{bucket_of};
ghost use Rattle.nrm_virtual.specs.Table.{HasPair, IsTableOf, bucket_in};
ghost use Rattle.nrm_emsr.specs.Protections.{protections_of};
ghost use Rattle.nrm_plan.specs.Nesting.{AreNestsOf, level_at};
ghost use Rattle.nrm_virtual.specs.Inner.Written.{written};
ghost use Rattle.nrm_plan.specs.Inner.Protected.{AreProtectedInAll, protected_at};

use nrm_emsr::protections;
use nrm_lp::Certificate;
use nrm_model::Network;
use nrm_virtual::BucketTable;
use std::alloc::{AllocError, Global};
use std::marker::Model;

/// The bucket of each product on each of its legs, and the protections of each leg.
#[derive(Drop)]
pub(crate) struct Nests {
    buckets: BucketTable,
    protections: Vec<Vec<u16>>,
    products: usize,
    protected: Vec<u16>,
}

impl Model for Nests {
    ghost use Rattle.std.specs.Prelude.{map};
    ghost use Rattle.nrm_plan.specs.Nesting.{NestsValue};
    ghost use Rattle.nrm_plan.specs.Inner.Protected.{AreProtected};

    ghost Value = { NestsValue };

    ghost view = { λ nests. record { buckets = nests.buckets; protections = map (λ v. v.items) nests.protections.items } };

    ghost invariant = { λ nests. AreProtected
        (record { buckets = nests.buckets; protections = map (λ v. v.items) nests.protections.items })
        nests.products nests.protected.items };
}

// The protections of each leg.
fn protections_of_legs(
    alloc: Global,
    net: &Network,
    certificate: &Certificate,
    buckets: &BucketTable,
    period: u8,
) -> Result<Vec<Vec<u16>>, AllocError>
    requires prices { HasPrices size_limit (length net.now.legs) certificate.now }
    requires table { IsTableOf net.now certificate.now buckets.now }
    requires period { IsInRange 1 net.now.periods period }
    ensures { IfOk result
        (λ levels. map (λ v. v.items) levels.items ≡ map (λ leg. protections_of net.now certificate.now leg period)
        (range_with_len 0 (length net.now.legs))) }
{
    let mut levels = Vec::new(alloc);
    for leg in 0..net.leg_count() as u8 {
        levels.push(protections(alloc, net, certificate, buckets, leg, period)?)?;
    }
    Ok(levels)
}

// The seats that are protected for buckets 1 to `bucket`, among the protections of a leg.
fn level_at(levels: &[u16], bucket: u8) -> u16
    requires { bucket ≤ length levels.now }
    ensures { result ≡ level_at levels.now bucket }
{
    if bucket == 0 {
        return 0;
    }
    levels[bucket as usize - 1]
}

// The seats that are protected from a product on one of its legs.
fn protected_at(
    net: &Network,
    buckets: &BucketTable,
    protections: &[Vec<u16>],
    leg: u8,
    product: u16,
) -> u16
    requires nests { (cert : Cert) × (period : ℕ)
        × AreNestsOf net.now period cert (record { buckets = buckets.now; protections = map (λ v. v.items) protections.now }) }
    requires leg { leg < length net.now.legs }
    requires product { product < length net.now.products }
    requires uses { uses_leg (inventory_of net.now) leg product ≡ true }
    ensures { result ≡ protected_at (record { buckets = buckets.now; protections = map (λ v. v.items) protections.now }) leg product }
{
    level_at(
        &protections[leg as usize],
        buckets.bucket_of(leg, product) - 1,
    )
}

// Puts the seats that are protected from a leg's products into their places.
fn put_leg(
    protected: &mut Vec<u16>,
    net: &Network,
    buckets: &BucketTable,
    protections: &[Vec<u16>],
    leg: u8,
)
    requires nests { (cert : Cert) × (period : ℕ)
        × AreNestsOf net.now period cert (record { buckets = buckets.now; protections = map (λ v. v.items) protections.now }) }
    requires leg { leg < length net.now.legs }
    requires long { length protected.old.items ≡ length net.now.legs * length net.now.products }
    ensures { protected.new.items
        ≡ written (leg * length net.now.products)
        (protected_at (record { buckets = buckets.now; protections = map (λ v. v.items) protections.now }) leg)
        (products_on (inventory_of net.now) leg) protected.old.items }
{
    let first = leg as usize * net.product_count();
    for product in net.products_on(leg) {
        protected[first + *product as usize] = protected_at(
            net,
            buckets,
            protections,
            leg,
            *product,
        );
    }
}

// The seats that are protected from each product on each of its legs, and 0 where it doesn't use the leg.
fn protected_in_all(
    alloc: Global,
    net: &Network,
    buckets: &BucketTable,
    protections: &[Vec<u16>],
) -> Result<Vec<u16>, AllocError>
    requires { (cert : Cert) × (period : ℕ)
        × AreNestsOf net.now period cert (record { buckets = buckets.now; protections = map (λ v. v.items) protections.now }) }
    ensures { IfOk result (λ protected. AreProtectedInAll net.now
        (record { buckets = buckets.now; protections = map (λ v. v.items) protections.now }) protected.items) }
{
    let mut protected = vec![in alloc; 0; net.leg_count() * net.product_count()]?;
    for leg in 0..net.leg_count() as u8 {
        put_leg(&mut protected, net, buckets, protections, leg);
    }
    Ok(protected)
}

impl Nests {
    /// The nests of a network at the bid prices of a certificate, from period `period` on.
    ///
    /// # Errors
    /// Memory runs out.
    pub(crate) fn build(
        alloc: Global,
        net: &Network,
        certificate: &Certificate,
        period: u8,
    ) -> Result<Nests, AllocError>
        requires prices { HasPrices size_limit (length net.now.legs) certificate.now }
        requires period { IsInRange 1 net.now.periods period }
        ensures { IfOk result (AreNestsOf net.now period certificate.now) }
    {
        let buckets = BucketTable::build(alloc, net, certificate)?;
        let protections = protections_of_legs(alloc, net, certificate, &buckets, period)?;
        let protected = protected_in_all(alloc, net, &buckets, &protections)?;
        Ok(Nests {
            buckets,
            protections,
            products: net.product_count(),
            protected,
        })
    }

    /// The bucket of a product on one of its legs.
    pub(crate) fn bucket(&self, leg: u8, product: u16) -> u8
        requires { HasPair self.now.buckets leg product }
        ensures found { Some result ≡ bucket_in self.now.buckets leg product }
        ensures bucket { (net : NetworkValue) (cert : Cert) → IsTableOf net cert self.now.buckets
            → result ≡ bucket_of net cert leg product }
    {
        self.buckets.bucket_of(leg, product)
    }

    /// The seats of a leg that are protected for its buckets 1 to `bucket`.
    pub(crate) fn protection(&self, leg: u8, bucket: u8) -> u16
        requires leg { leg < length self.now.protections }
        requires bucket { bucket ≤ length (slice_index_or self.now.protections leg []) }
        ensures { result ≡ level_at (slice_index_or self.now.protections leg []) bucket }
    {
        level_at(&self.protections[leg as usize], bucket)
    }

    /// The seats that are protected from a product on one of its legs: those protected for the buckets above its own.
    pub(crate) fn protected_from(&self, leg: u8, product: u16) -> u16
        requires { HasPair self.now.buckets leg product }
        ensures { (bucket : ℕ) → bucket_in self.now.buckets leg product ≡ Some bucket
            → result ≡ level_at (slice_index_or self.now.protections leg []) (bucket - 1) }
    {
        self.protected[leg as usize * self.products + product as usize]
    }
}
