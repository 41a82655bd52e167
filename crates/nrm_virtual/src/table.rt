//! The buckets of a network, found once and looked up after: one list, leg by leg and on each leg product by product, with
//! 0 where the product doesn't use the leg. The table holds neither the network nor the certificate.
ghost use Rattle.std.specs.Prelude.{◌≡◌, ◌*◌, ◌<◌, IfOk, Some, length};
ghost use Rattle.nrm_fraction.specs.Large.{size_limit};
ghost use Rattle.nrm_model.specs.Inventory.{inventory_of, products_on};
ghost use Rattle.nrm_model.specs.Network.{NetworkValue};
ghost use Rattle.nrm_lp.specs.declared.certificate.Certificate.{Certificate as Cert};
ghost use Rattle.nrm_virtual.specs.Adjusted.{HasPrices};
ghost use Rattle.nrm_virtual.specs.Buckets.{bucket_of};
ghost use Rattle.nrm_virtual.specs.Table.{HasPair, IsTableOf, bucket_in};
ghost use Rattle.nrm_virtual.specs.Inner.Written.{written};

use crate::bucket;
use nrm_lp::Certificate;
use nrm_model::Network;
use std::alloc::{AllocError, Global};
use std::marker::Model;

/// The buckets of a network. Contracts see a list of legs, each with its products and their buckets.
#[derive(Drop)]
pub struct BucketTable {
    buckets: Vec<u8>,
    products: usize,
}

impl Model for BucketTable {
    ghost use Rattle.nrm_virtual.specs.Table.{TableValue, table_in};

    ghost Value = { TableValue };

    ghost view = { λ t. table_in t.products t.buckets.items };
}

impl BucketTable {
    /// The table of a network and a certificate: each leg has exactly its products, in file order.
    ///
    /// # Errors
    /// Memory runs out.
    pub fn build(
        alloc: Global,
        net: &Network,
        cert: &Certificate,
    ) -> Result<BucketTable, AllocError>
        requires { HasPrices size_limit (length net.now.legs) cert.now }
        ensures { IfOk result (IsTableOf net.now cert.now) }
    {
        let products = net.product_count();
        let mut buckets = vec![in alloc; 0; net.leg_count() * products]?;
        for leg in 0..net.leg_count() as u8 {
            put_leg(&mut buckets, net, cert, leg);
        }
        Ok(BucketTable { buckets, products })
    }

    /// The bucket of a product on one of its legs. It takes no memory.
    pub fn bucket_of(&self, leg: u8, product: u16) -> u8
        requires { HasPair self.now leg product }
        ensures found { Some result ≡ bucket_in self.now leg product }
        ensures bucket { (net : NetworkValue) (cert : Cert) → IsTableOf net cert self.now → result ≡ bucket_of net cert leg product }
    {
        self.buckets[leg as usize * self.products + product as usize]
    }
}

// Puts the buckets of a leg's products into their places.
fn put_leg(buckets: &mut Vec<u8>, net: &Network, cert: &Certificate, leg: u8)
    requires prices { HasPrices size_limit (length net.now.legs) cert.now }
    requires leg { leg < length net.now.legs }
    requires long { length buckets.old.items ≡ length net.now.legs * length net.now.products }
    ensures { buckets.new.items
        ≡ written (leg * length net.now.products) (bucket_of net.now cert.now leg) (products_on (inventory_of net.now) leg)
        buckets.old.items }
{
    let first = leg as usize * net.product_count();
    for product in net.products_on(leg) {
        buckets[first + *product as usize] = bucket(net, cert, leg, *product);
    }
}
