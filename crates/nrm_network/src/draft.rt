//! A network as it is read, row by row: legs and products with tables of their names, the percentage of each product, 100 until a row
//! gives it, and the demand of each product in each history and period, 0 until a row gives it. Nothing else of a row is kept.
ghost use Rattle.std.specs.Prelude.{◌≡◌, ◌<◌, ◌≤◌, ◌+◌, ◌-◌, ◌*◌, ◌^◌, List, [], bytes_eq, false, length, map, sum, true};
ghost use Rattle.std.specs.Prelude.{IfOk, MatchOption, OnOk};
ghost use Rattle.std.specs.List.{list_all, list_any, position_from};
ghost use Rattle.std.specs.Int.{IsInRange};
ghost use Rattle.nrm_model.specs.Limits.{differ, falls};
ghost use Rattle.nrm_model.specs.declared.limits.TheConstants.{MOST_DEMAND, MOST_PRODUCTS};
ghost use Rattle.nrm_network.specs.Inner.RowFields.{fields_in};
ghost use Rattle.nrm_network.specs.Rows.{Row, is_named};
ghost use Rattle.nrm_network.specs.Answer.{AnswersFile};
ghost use Rattle.nrm_network.specs.Checks.{why_refused};
ghost use Rattle.nrm_network.specs.File.{lacks_a_kind, network_or_refusal, number_of_leg};
ghost use Rattle.nrm_network.specs.declared.fault.Why.TheVariants as why;
ghost use Rattle.nrm_network.specs.Inner.Draft.{AddsLeg, AddsProduct, Awaits, SetsDemand, SetsRefund, Stands, Takes, TakesLine, TakesSaid, TakesRecent, names_of};
ghost use Rattle.nrm_network.specs.Inner.Entries.{Counted};
ghost use Rattle.nrm_network.specs.declared.entry.Entry.TheVariants as says;

use crate::entry::{Counts, DemandEntry, Entry, ProductEntry, RefundEntry, read_row};
use crate::fault::{NetFault, RowRefusal, Why};
use crate::front::demand_at_front;
use crate::line::first_line;
use crate::row::RowFields;
use nrm_model::{Leg, LegNumbers, MOST_DEMAND, MOST_REFUND, NameTable, Network, Product};
use nrm_text::Name;
use std::alloc::{AllocError, Global};

/// What was read so far.
#[derive(Drop)]
pub(crate) struct Draft {
    version: u8,
    histories: u8,
    periods: u8,
    legs: Vec<Leg>,
    leg_names: NameTable,
    products: Vec<Product>,
    product_names: NameTable,
    demand: Vec<u16>,
    given: Vec<bool>,
    // Whether a row gave the percentage of each product.
    refunded: Vec<bool>,
    // The number of the product whose demand was given last: rows of one product mostly follow one another.
    recent: usize,
}

// Whether each threshold is below the one before it.
fn falls(cuts: &[u32]) -> bool
    ensures { result ≡ falls cuts.now }
{
    for i in 1..cuts.len() {
        if cuts[i - 1] <= cuts[i] {
            return false;
        }
    }
    true
}

fn total(seats: &[u16]) -> u32
    requires { length seats.now ≤ 65536 }
    ensures { result ≡ sum seats.now }
{
    let mut total = 0;
    for seats in seats {
        total += u32::from(*seats);
    }
    total
}

fn stands_in(name: &Name, others: &[Name]) -> bool
    ensures { result ≡ list_any (λ other. bytes_eq other name.now) others.now }
{
    others.contains(name)
}

// Whether the names differ.
fn differ(names: &[Name]) -> bool
    ensures { result ≡ differ bytes_eq names.now }
{
    for i in 0..names.len() {
        let later = &names[i + 1..];
        if stands_in(&names[i], later) {
            return false;
        }
    }
    true
}

impl Draft {
    /// Before the first row.
    pub(crate) fn new(alloc: Global) -> Draft
        ensures { Stands result [] }
    {
        Draft {
            version: 1,
            histories: 0,
            periods: 0,
            legs: Vec::new(alloc),
            leg_names: NameTable::new(alloc),
            products: Vec::new(alloc),
            product_names: NameTable::new(alloc),
            demand: Vec::new(alloc),
            given: Vec::new(alloc),
            refunded: Vec::new(alloc),
            recent: 0,
        }
    }

    fn counts(&self) -> Counts
        ensures { (taken : List Row) → Stands self.now taken → Counted result taken }
    {
        Counts {
            version: self.version,
            histories: self.histories,
            periods: self.periods,
            legs: self.legs.len(),
            products: self.products.len(),
        }
    }

    // The name of the product whose demand was given last.
    fn recent_name(&self) -> Option<&Name> {
        match self.products.get(self.recent) {
            Some(product) => Some(&product.name),
            None => None,
        }
    }

    fn take_periods(&mut self, version: u8, histories: u8, periods: u8)
        requires { Awaits self.old (says.Periods version histories periods) }
        ensures { TakesSaid (says.Periods version histories periods) self.old self.new (Ok tt) }
    {
        self.version = version;
        self.histories = histories;
        self.periods = periods;
    }

    fn add_leg(&mut self, leg: Leg) -> Result<(), AllocError>
        requires { list_any (λ other. bytes_eq other leg.name) self.old.leg_names ≡ false }
        ensures { OnOk result (AddsLeg self.old self.new leg) }
    {
        self.leg_names.add(leg.name)?;
        self.legs.push(leg)?;
        Ok(())
    }

    fn take_leg(&mut self, leg: Leg) -> Result<(), RowRefusal>
        ensures { TakesSaid (says.Leg leg) self.old self.new result }
    {
        if self.leg_names.number_of(&leg.name).is_some() {
            return Err(RowRefusal::Refused(Why::Twice));
        }
        if !falls(leg.cuts.as_slice()) {
            return Err(RowRefusal::Refused(Why::Thresholds));
        }
        self.add_leg(leg)?;
        Ok(())
    }

    // The numbers of the legs of these names, if each is there.
    fn leg_numbers(&self, alloc: Global, names: &[Name]) -> Result<Option<Vec<u8>>, AllocError>
        requires { length self.now.leg_names ≤ 256 }
        ensures { (legs : List Row) → self.now.leg_names ≡ names_of legs
            → IfOk result (λ found. MatchOption found (list_all (is_named legs) names.now ≡ false)
            (λ numbers. (list_all (is_named legs) names.now ≡ true) × (numbers.items ≡ map (number_of_leg legs) names.now))) }
    {
        let mut numbers = Vec::new(alloc);
        for name in names {
            match self.leg_names.number_of(name) {
                Some(number) => numbers.push(number as u8)?,
                None => return Ok(None),
            }
        }
        Ok(Some(numbers))
    }

    fn add_product(&mut self, product: Product) -> Result<(), AllocError>
        requires { list_any (λ other. bytes_eq other product.name) self.old.product_names ≡ false }
        ensures { OnOk result (AddsProduct self.old self.new product) }
    {
        let histories = self.histories as usize;
        let cells = histories * self.periods as usize;
        self.product_names.add(product.name)?;
        self.products.push(product)?;
        self.demand.resize(self.demand.len() + cells, 0)?;
        self.given.resize(self.given.len() + histories, false)?;
        self.refunded.push(false)?;
        Ok(())
    }

    fn take_product(&mut self, alloc: Global, product: &ProductEntry) -> Result<(), RowRefusal>
        requires { Awaits self.old (says.Product product.now) }
        ensures { TakesSaid (says.Product product.now) self.old self.new result }
    {
        if self.product_names.number_of(&product.name).is_some() {
            return Err(RowRefusal::Refused(Why::Twice));
        }
        if !differ(&product.legs) {
            return Err(RowRefusal::Refused(Why::Twice));
        }
        let Some(legs) = self.leg_numbers(alloc, &product.legs)? else {
            return Err(RowRefusal::Refused(Why::Missing));
        };
        self.add_product(Product {
            name: product.name,
            fare: product.fare,
            refund: MOST_REFUND,
            legs: LegNumbers::new(legs),
        })?;
        Ok(())
    }

    fn set_refund(&mut self, product: usize, percentage: u8)
        requires product { product < length self.old.products.items }
        requires refunded { product < length self.old.refunded.items }
        ensures { SetsRefund self.old self.new product percentage }
    {
        self.products[product].refund = percentage;
        self.refunded[product] = true;
    }

    fn take_refund(&mut self, refund: &RefundEntry) -> Result<(), RowRefusal>
        requires { Awaits self.old (says.Refund refund.now) }
        ensures { TakesSaid (says.Refund refund.now) self.old self.new result }
    {
        let Some(product) = self.product_names.number_of(&refund.product) else {
            return Err(RowRefusal::Refused(Why::Missing));
        };
        if self.refunded[product] {
            return Err(RowRefusal::Refused(Why::Twice));
        }
        self.set_refund(product, refund.percentage);
        Ok(())
    }

    fn set_demand(&mut self, product: usize, cell: usize, seats: &[u16])
        requires given { cell < length self.old.given.items }
        requires room { cell * self.old.periods + length seats.now ≤ length self.old.demand.items }
        ensures { SetsDemand self.old self.new cell seats.now }
    {
        let at = cell * self.periods as usize;
        self.demand[at..at + seats.len()].copy_from_slice(seats);
        self.given[cell] = true;
        self.recent = product;
    }

    // The number of the product of this name, if it is there.
    fn number_of_product(&self, name: &Name) -> Option<usize>
        ensures { (taken : List Row) → Stands self.now taken
            → result ≡ position_from (λ other. bytes_eq other name.now) 0 self.now.product_names }
    {
        match self.products.get(self.recent) {
            Some(product) if product.name == *name => Some(self.recent),
            _ => self.product_names.number_of(name),
        }
    }

    // The place of a product's demand in a history, which counts from 1, among those of all products and histories.
    fn cell_of(&self, product: usize, history: u8) -> usize
        requires product { product < MOST_PRODUCTS }
        requires history { IsInRange 1 self.now.histories history }
        ensures { result ≡ product * self.now.histories + (history - 1) }
    {
        product * self.histories as usize + (history - 1) as usize
    }

    fn take_demand(&mut self, demand: &DemandEntry<'_>) -> Result<(), RowRefusal>
        requires { Awaits self.old (says.Demand demand.now) }
        ensures { TakesSaid (says.Demand demand.now) self.old self.new result }
    {
        let Some(product) = self.number_of_product(&demand.product) else {
            return Err(RowRefusal::Refused(Why::Missing));
        };
        let cell = self.cell_of(product, demand.history);
        if self.given[cell] {
            return Err(RowRefusal::Refused(Why::Twice));
        }
        if total(demand.seats) > MOST_DEMAND {
            return Err(RowRefusal::Refused(Why::Sum));
        }
        self.set_demand(product, cell, demand.seats);
        Ok(())
    }

    /// Takes the next row.
    ///
    /// # Errors
    /// The first check that refuses the row against those before it, or memory ran out.
    pub(crate) fn take(&mut self, alloc: Global, row: &RowFields<'_>) -> Result<(), RowRefusal>
        requires { (taken : List Row) × Stands self.old taken }
        ensures { Takes self.old self.new (fields_in row.now) result }
    {
        let mut places = [0; 16];
        match read_row(alloc, self.counts(), self.recent_name(), row, &mut places)? {
            Entry::Periods {
                version,
                histories,
                periods,
            } => {
                self.take_periods(version, histories, periods);
                Ok(())
            }
            Entry::Leg(leg) => self.take_leg(leg),
            Entry::Product(product) => self.take_product(alloc, &product),
            Entry::Demand(demand) => self.take_demand(&demand),
            Entry::Refund(refund) => self.take_refund(&refund),
        }
    }

    // Takes the row that is the first line of these bytes, and says how long it is, if it is one of the demand of the product whose demand was
    // given last, with no number in it above 999; else nothing changes.
    fn take_recent(&mut self, text: &[u8]) -> Result<Option<usize>, RowRefusal>
        requires { (taken : List Row) × Stands self.old taken }
        ensures { TakesRecent self.old self.new text.now result }
    {
        let counts = self.counts();
        let Some(recent) = self.recent_name() else {
            return Ok(None);
        };
        let product = *recent;
        let mut places = [0; 16];
        let Some((history, behind)) = demand_at_front(counts, &product, text, &mut places) else {
            return Ok(None);
        };
        let seats = &places[..counts.periods as usize];
        self.take_demand(&DemandEntry {
            product,
            history,
            seats,
        })?;
        Ok(Some(text.len() - behind.len()))
    }

    /// Takes the next row, which is the first line of these bytes, and says how long the line is.
    ///
    /// # Errors
    /// The first check that refuses the row against those before it, or memory ran out.
    pub(crate) fn take_line(&mut self, alloc: Global, text: &[u8]) -> Result<usize, RowRefusal>
        requires { (taken : List Row) × Stands self.old taken }
        ensures { TakesLine self.old self.new text.now result }
    {
        if let Some(length) = self.take_recent(text)? {
            return Ok(length);
        }
        let (line, length) = first_line(text);
        self.take(alloc, &RowFields::Line(&line))?;
        Ok(length)
    }

    // Whether there is no leg or no product.
    fn lacks_a_kind(&self) -> bool
        ensures { (taken : List Row) → Stands self.now taken → result ≡ lacks_a_kind taken }
    {
        self.legs.is_empty() || self.products.is_empty()
    }

    /// The network of the rows, of which there were so many. It has the draft's tables of names.
    ///
    /// # Errors
    /// There is no leg or no product: the place after the last row; or memory ran out for what the network keeps beside its parts.
    pub(crate) fn finish(self, alloc: Global, rows: u32) -> Result<Network, NetFault>
        requires stands { (taken : List Row) × Stands self taken }
        requires few { rows < 2 ^ 32 - 1 }
        ensures { (taken : List Row) → Stands self taken → rows ≡ length taken
            → AnswersFile result (network_or_refusal why_refused why.Empty taken) }
    {
        if self.lacks_a_kind() {
            return Err(NetFault::Refused {
                row: rows + 1,
                why: Why::Empty,
            });
        }
        let net = Network::with_tables(
            alloc,
            self.histories,
            self.periods,
            self.legs,
            self.products,
            self.demand,
            self.leg_names,
            self.product_names,
        )?;
        Ok(net)
    }
}
