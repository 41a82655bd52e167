//! The network: legs and products in file order, tables of their names, and the demand of each product in each
//! history and period, in one list. The tables hold the names in the order of the legs and the products. Beside them
//! stand the numbers of the products that use each leg, so that nobody has to look for them among all products.
ghost use Rattle.std.specs.Prelude.{◌≡◌, ◌≢◌, ◌+◌, ◌<◌, ◌≤◌, AllPairs, IfOk, IfSome, length, map, min, slice_get, sum, Some};
ghost use Rattle.std.specs.Int.{IsInRange};
ghost use Rattle.std.specs.List.{range_with_len};
ghost use Rattle.nrm_model.specs.declared.limits.TheConstants.{MOST_DEMAND, MOST_LEGS, MOST_PRODUCTS, MOST_SEATS, MOST_TOTAL_DEMAND};
ghost use Rattle.nrm_model.specs.Stored.{numbers_using};

use crate::{Leg, NameTable, Product};
use nrm_text::Name;
use std::alloc::{AllocError, Global};
use std::marker::Model;

/// A network within the limits: at least one leg, one product, one history and one period, and no more of each than the
/// limits allow. No two legs have one name, and no two products.
#[derive(Drop)]
pub struct Network {
    histories: u8,
    periods: u8,
    legs: Vec<Leg>,
    products: Vec<Product>,
    demand: Vec<u16>,
    leg_names: NameTable,
    product_names: NameTable,
    products_on_legs: Vec<Vec<u16>>,
}

impl Model for Network {
    ghost use Rattle.std.specs.Prelude.{map};
    ghost use Rattle.nrm_model.specs.Network.{NetworkValue};
    ghost use Rattle.nrm_model.specs.Stored.{IsStored};

    ghost Value = { NetworkValue };

    ghost view = { λ n. record {
      histories = n.histories;
      periods = n.periods;
      legs = n.legs.items;
      products = n.products.items;
      demand = n.demand.items;
    } };

    ghost invariant = { λ n. IsStored
        (record {
          histories = n.histories;
          periods = n.periods;
          legs = n.legs.items;
          products = n.products.items;
          demand = n.demand.items;
        }) n.leg_names n.product_names (map (λ v. v.items) n.products_on_legs.items) };
}

impl Network {
    ghost use Rattle.nrm_model.specs.Limits.{IsLeg, IsNetwork, IsProduct};
    ghost use Rattle.nrm_model.specs.Network.{leg_named, least_authorised_of, product_named};
    ghost use Rattle.nrm_model.specs.Inventory.{inventory_of, products_on, uses_leg};
    ghost use Rattle.nrm_model.specs.Demand.{demand_in, demand_row, demand_to_come, total_to_come};
    ghost use Rattle.nrm_model.specs.Tables.{NamesInOrder};

    /// The network of these parts. `demand` is in seats, product by product, history by history, period by period.
    ///
    /// # Errors
    /// Memory runs out for the tables of names and the lists of the products of each leg.
    pub fn new(
        alloc: Global,
        histories: u8,
        periods: u8,
        legs: Vec<Leg>,
        products: Vec<Product>,
        demand: Vec<u16>,
    ) -> Result<Network, AllocError>
        requires { IsNetwork
            (record { histories = histories; periods = periods; legs = legs.items; products = products.items; demand = demand.items }) }
        ensures { IfOk result
            (λ net. net
            ≡ record { histories = histories; periods = periods; legs = legs.items; products = products.items; demand = demand.items }) }
    {
        let leg_names = names_of_legs(alloc, &legs)?;
        let product_names = names_of_products(alloc, &products)?;
        Network::with_tables(
            alloc,
            histories,
            periods,
            legs,
            products,
            demand,
            leg_names,
            product_names,
        )
    }

    /// The same, with the tables of the names, for a caller that has them.
    ///
    /// # Errors
    /// Memory runs out for the lists of the products of each leg.
    pub fn with_tables(
        alloc: Global,
        histories: u8,
        periods: u8,
        legs: Vec<Leg>,
        products: Vec<Product>,
        demand: Vec<u16>,
        leg_names: NameTable,
        product_names: NameTable,
    ) -> Result<Network, AllocError>
        requires { NamesInOrder
            (record { histories = histories; periods = periods; legs = legs.items; products = products.items; demand = demand.items })
            leg_names product_names }
        ensures { IfOk result
            (λ net. net
            ≡ record { histories = histories; periods = periods; legs = legs.items; products = products.items; demand = demand.items }) }
    {
        let products_on_legs = products_on_legs(alloc, legs.len(), &products)?;
        Ok(Network {
            histories,
            periods,
            legs,
            products,
            demand,
            leg_names,
            product_names,
            products_on_legs,
        })
    }

    /// The network is within its limits. It does nothing.
    pub fn limits_hold(&self)
        ensures limits { IsNetwork self.now }
    {
        // For the network's invariant alone.
        let _ = &self.histories;
    }

    /// How many demand histories there are, N in the formulas: at least one.
    pub fn n(&self) -> u8
        ensures histories { result ≡ self.now.histories }
        ensures limits { IsNetwork self.now }
    {
        self.histories
    }

    /// How many booking periods each history has, T in the formulas: at least one.
    pub fn t(&self) -> u8
        ensures { result ≡ self.now.periods }
    {
        self.periods
    }

    /// How many legs there are: at least one.
    pub fn leg_count(&self) -> usize
        ensures count { result ≡ length self.now.legs }
        ensures within { IsInRange 1 MOST_LEGS result }
        ensures limits { IsNetwork self.now }
    {
        self.legs.len()
    }

    /// How many products there are: at least one.
    pub fn product_count(&self) -> usize
        ensures count { result ≡ length self.now.products }
        ensures within { IsInRange 1 MOST_PRODUCTS result }
        ensures limits { IsNetwork self.now }
    {
        self.products.len()
    }

    /// A leg by its number.
    pub fn leg_at(&self, leg: u8) -> &Leg
        requires { leg < length self.now.legs }
        ensures leg { Some result.now ≡ slice_get self.now.legs leg }
        ensures limits { IsLeg result.now }
    {
        &self.legs[leg as usize]
    }

    /// A product by its number.
    pub fn product_at(&self, product: u16) -> &Product
        requires { product < length self.now.products }
        ensures product { Some result.now ≡ slice_get self.now.products product }
        ensures limits { IsProduct (length self.now.legs) result.now }
    {
        &self.products[product as usize]
    }

    /// Whether a product uses a leg.
    pub fn uses_leg(&self, product: u16, leg: u8) -> bool
        requires { product < length self.now.products }
        ensures { result ≡ uses_leg (inventory_of self.now) leg product }
    {
        self.product_at(product).legs.as_slice().contains(&leg)
    }

    /// The products that use a leg, in file order.
    pub fn products_on(&self, leg: u8) -> &[u16]
        requires { leg < length self.now.legs }
        ensures { result.now ≡ products_on (inventory_of self.now) leg }
    {
        &self.products_on_legs[leg as usize]
    }

    /// The number of the product of this name. `None` exactly where no product has it.
    pub fn find_product(&self, name: &Name) -> Option<u16>
        ensures number { result ≡ product_named self.now name.now }
        ensures within { IfSome result (λ product. product < length self.now.products) }
    {
        match self.product_names.number_of(name) {
            Some(j) => Some(j as u16),
            None => None,
        }
    }

    /// The number of the leg of this name. `None` exactly where no leg has it.
    pub fn find_leg(&self, name: &Name) -> Option<u8>
        ensures number { result ≡ leg_named self.now name.now }
        ensures within { IfSome result (λ leg. leg < length self.now.legs) }
    {
        match self.leg_names.number_of(name) {
            Some(i) => Some(i as u8),
            None => None,
        }
    }

    /// The seats requested of a product in a history (counted from 0) and a period (counted from 1).
    pub fn demand(&self, product: u16, history: u8, period: u8) -> u16
        requires product { product < length self.now.products }
        requires history { history < self.now.histories }
        requires period { IsInRange 1 self.now.periods period }
        ensures { result ≡ demand_in self.now product history period }
    {
        self.row(product, history)[period as usize - 1]
    }

    /// The demand to come of a product in a history (counted from 0): the seats requested from this period on.
    pub fn to_come(&self, product: u16, history: u8, period: u8) -> u32
        requires product { product < length self.now.products }
        requires history { history < self.now.histories }
        requires period { IsInRange 1 self.now.periods period }
        ensures seats { result ≡ demand_to_come self.now product history period }
        ensures within { result ≤ MOST_DEMAND }
    {
        sum_of(&self.row(product, history)[period as usize - 1..])
    }

    /// The demand to come of a product over all histories.
    pub fn total(&self, product: u16, period: u8) -> u32
        requires product { product < length self.now.products }
        requires period { IsInRange 1 self.now.periods period }
        ensures seats { result ≡ total_to_come self.now product period }
        ensures within { result ≤ MOST_TOTAL_DEMAND }
    {
        let mut total = 0;
        for history in 0..self.histories {
            total += self.to_come(product, history, period);
        }
        total
    }

    /// The least authorised seats among a product's legs: no more of it can be sold.
    pub fn least_authorised(&self, product: u16) -> u16
        requires { product < length self.now.products }
        ensures seats { result ≡ least_authorised_of self.now product }
        ensures within { result ≤ MOST_SEATS }
    {
        let mut least = u16::MAX;
        for leg in self.products[product as usize].legs.as_slice() {
            least = least.min(self.legs[*leg as usize].authorised);
        }
        least
    }

    /// The authorised seats of each leg.
    ///
    /// # Errors
    /// Memory runs out.
    pub fn authorised_of_legs(&self, alloc: Global) -> Result<Vec<u16>, AllocError>
        ensures seats { IfOk result (λ seats. seats.items ≡ (inventory_of self.now).authorised) }
        ensures limits { IsNetwork self.now }
    {
        self.legs.iter().map(|leg| leg.authorised).collect(alloc)
    }

    /// The fare of each product.
    ///
    /// # Errors
    /// Memory runs out.
    pub fn fares_of_products(&self, alloc: Global) -> Result<Vec<u32>, AllocError>
        ensures fares { IfOk result (λ fares. fares.items ≡ (inventory_of self.now).fares) }
        ensures limits { IsNetwork self.now }
    {
        self.products
            .iter()
            .map(|product| product.fare)
            .collect(alloc)
    }

    /// The legs of each product, in its own order.
    ///
    /// # Errors
    /// Memory runs out.
    pub fn legs_of_products(&self, alloc: Global) -> Result<Vec<Vec<u8>>, AllocError>
        ensures legs { IfOk result (λ legs. map (λ v. v.items) legs.items ≡ (inventory_of self.now).legs) }
        ensures limits { IsNetwork self.now }
    {
        let mut legs = Vec::new(alloc);
        for product in &self.products {
            legs.push(Vec::from_slice(alloc, product.legs.as_slice())?)?;
        }
        Ok(legs)
    }

    // The demand of a product in a history, period by period.
    fn row(&self, product: u16, history: u8) -> &[u16]
        requires product { product < length self.now.products }
        requires history { history < self.now.histories }
        ensures row { result.now ≡ demand_row self.now product history }
        ensures periods { length result.now ≡ self.now.periods }
        ensures within { sum result.now ≤ MOST_DEMAND }
    {
        let before = product as usize * self.histories as usize + history as usize;
        let from = before * self.periods as usize;
        &self.demand[from..from + self.periods as usize]
    }
}

// The sum of a few demands.
fn sum_of(demands: &[u16]) -> u32
    requires { sum demands.now ≤ MOST_DEMAND }
    ensures { result ≡ sum demands.now }
{
    let mut sum = 0;
    for demand in demands {
        sum += u32::from(*demand);
    }
    sum
}

// The table of the legs' names, in their order.
fn names_of_legs(alloc: Global, legs: &[Leg]) -> Result<NameTable, AllocError>
    requires { AllPairs (λ a b. a ≢ b) (map (λ leg. leg.name) legs.now) }
    ensures { IfOk result (λ names. names ≡ map (λ leg. leg.name) legs.now) }
{
    let mut names = NameTable::new(alloc);
    for leg in legs {
        names.add(leg.name)?;
    }
    Ok(names)
}

// The table of the products' names, in their order.
fn names_of_products(alloc: Global, products: &[Product]) -> Result<NameTable, AllocError>
    requires { AllPairs (λ a b. a ≢ b) (map (λ product. product.name) products.now) }
    ensures { IfOk result (λ names. names ≡ map (λ product. product.name) products.now) }
{
    let mut names = NameTable::new(alloc);
    for product in products {
        names.add(product.name)?;
    }
    Ok(names)
}

// The numbers of the products that use each leg, leg by leg.
fn products_on_legs(
    alloc: Global,
    leg_count: usize,
    products: &[Product],
) -> Result<Vec<Vec<u16>>, AllocError>
    requires legs { leg_count ≤ MOST_LEGS }
    requires products { length products.now ≤ MOST_PRODUCTS }
    ensures { IfOk result (λ on. map (λ v. v.items) on.items ≡ map (numbers_using products.now) (range_with_len 0 leg_count)) }
{
    let mut on_legs = Vec::new(alloc);
    for leg in 0..leg_count as u8 {
        on_legs.push(products_using(alloc, products, leg)?)?;
    }
    Ok(on_legs)
}

// The numbers of the products that use a leg, in their order.
fn products_using(alloc: Global, products: &[Product], leg: u8) -> Result<Vec<u16>, AllocError>
    requires { length products.now ≤ MOST_PRODUCTS }
    ensures { IfOk result (λ on. on.items ≡ numbers_using products.now leg) }
{
    let mut numbers = Vec::new(alloc);
    for (number, product) in products.iter().enumerate() {
        if product.legs.as_slice().contains(&leg) {
            numbers.push(number as u16)?;
        }
    }
    Ok(numbers)
}
