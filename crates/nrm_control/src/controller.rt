//! The controller: a network, the plan in force, the book of what was sold of it, tallies of what was asked, and what was withheld
//! from cancelled bookings.
ghost use Rattle.std.specs.Prelude.{◌≡◌, ◌/◌, ◌*◌, ◌<◌, ◌≤◌, ◌+◌, ◌^◌, [], All, IfErr, IfNone, IfOk, IfSome, OnErr, OnOk, find, length};
ghost use Rattle.std.specs.Prelude.{ℕ, min, option_map, pos, slice_index, true};
ghost use Rattle.std.specs.Int.{IsInRange};
ghost use Rattle.nrm_number.specs.Gcd.{gcd};
ghost use Rattle.nrm_fraction.specs.Fraction.{◌over◌};
ghost use Rattle.nrm_model.specs.Inventory.{inventory_of, legs_of, uses_leg};
ghost use Rattle.nrm_model.specs.Network.{least_authorised_of};
ghost use Rattle.nrm_model.specs.declared.limits.TheConstants.{BOOKING_LIMIT, MOST_PARTY, MOST_SEATS};
ghost use Rattle.nrm_book.specs.Book.{IsBook, IsLoadable};
ghost use Rattle.nrm_book.specs.Bookings.{booking_numbered, left_on, without};
ghost use Rattle.nrm_hindsight.specs.Requests.{tallies_of};
ghost use Rattle.nrm_plan.specs.Plans.{IsOpeningPlan, IsPlanFault, IsPlanFor, IsPlanOf};
ghost use Rattle.nrm_control.specs.Refunds.{refund_of, withheld_by};
ghost use Rattle.nrm_control.specs.Standing.{IsOnNetwork, IsStartFault};
ghost use Rattle.nrm_control.specs.State.{seats_left};
ghost use Rattle.nrm_control.specs.Verdict.{leg_refuses, verdict_of};

use crate::Answer;
use nrm_book::{Book, Booking};
use nrm_model::{Mode, Network};
use nrm_plan::{Plan, SeatsLeft};
use nrm_simplex::SolveFault;
use std::alloc::{AllocError, Global};
use std::marker::Model;

/// A network under control.
#[derive(Drop)]
pub struct Controller {
    network: Network,
    plan: Plan,
    book: Book,
    tallies: Vec<u16>,
    withheld: u128,
}

impl Model for Controller {
    ghost use Rattle.nrm_control.specs.Standing.{ControlValue, IsInForce};

    ghost Value = { ControlValue };

    ghost view = { λ c. record {
      net = c.network;
      plan = c.plan;
      bookings = c.book.bookings;
      next = c.book.next;
      tallies = c.tallies.items;
      withheld = c.withheld;
    } };

    ghost invariant = { λ c. IsInForce c.network c.plan c.book c.tallies.items c.withheld };
}

// Whether the seats left of a product's leg don't cover the party and the seats that are protected from the product.
fn refuses(net: &Network, plan: &Plan, book: &Book, leg: u8, product: u16, party: u16) -> bool
    requires plan { IsPlanOf net.now plan.now }
    requires book { book.now.inventory ≡ inventory_of net.now }
    requires leg { leg < length net.now.legs }
    requires product { product < length net.now.products }
    requires uses { uses_leg (inventory_of net.now) leg product ≡ true }
    ensures { result ≡ leg_refuses net.now plan.now book.now.bookings product party leg }
{
    let protected = plan.protected_from(net, leg, product);
    u32::from(book.left(leg)) < u32::from(party) + u32::from(protected)
}

// The first of a product's legs, in its own order, that refuses.
fn refusing_leg(
    net: &Network,
    plan: &Plan,
    book: &Book,
    legs: &[u8],
    product: u16,
    party: u16,
) -> Option<u8>
    requires plan { IsPlanOf net.now plan.now }
    requires book { book.now.inventory ≡ inventory_of net.now }
    requires product { product < length net.now.products }
    requires legs { All (λ leg. (leg < length net.now.legs) × (uses_leg (inventory_of net.now) leg product ≡ true)) legs.now }
    ensures { result ≡ find (leg_refuses net.now plan.now book.now.bookings product party) legs.now }
{
    for leg in legs {
        if refuses(net, plan, book, *leg, product, party) {
            return Some(*leg);
        }
    }
    None
}

// What a request gets of a book and a plan of the network. Nothing changes.
fn verdict_on(net: &Network, plan: &Plan, book: &Book, product: u16, party: u16) -> Answer
    requires plan { IsPlanOf net.now plan.now }
    requires book { book.now.inventory ≡ inventory_of net.now }
    requires product { product < length net.now.products }
    ensures answer { result ≡ verdict_of net.now plan.now book.now.bookings book.now.next product party }
    ensures leg { IsOnNetwork net.now result }
    ensures seats { (number : ℕ) → result ≡ Answer.Sold number
        → All (λ leg. party ≤ left_on book.now.inventory book.now.bookings leg) (legs_of book.now.inventory product) }
{
    let legs = net.product_at(product).legs.as_slice();
    if let Some(leg) = refusing_leg(net, plan, book, legs, product, party) {
        return Answer::Leg(leg);
    }
    if plan.fare_refuses(net, product) {
        return Answer::Fare;
    }
    Answer::Sold {
        number: book.next(),
    }
}

// The seats left on each leg.
fn seats_left(net: &Network, book: &Book) -> SeatsLeft
    requires { book.now.inventory ≡ inventory_of net.now }
    ensures { result ≡ seats_left net.now book.now.bookings }
{
    let mut left = SeatsLeft::new();
    for leg in 0..net.leg_count() as u8 {
        left.push(book.left(leg));
    }
    left
}

// The plan of a network in a mode, for the seats left now and from this period on.
fn plan_again(
    alloc: Global,
    net: &Network,
    mode: Mode,
    book: &Book,
    period: u8,
) -> Result<Plan, SolveFault>
    requires book { book.now.inventory ≡ inventory_of net.now }
    requires period { IsInRange 1 net.now.periods period }
    ensures plan { IfOk result (IsPlanFor net.now mode (seats_left net.now book.now.bookings) period) }
    ensures fault { IfErr result (IsPlanFault net.now mode (seats_left net.now book.now.bookings) period) }
{
    let left = seats_left(net, book);
    Plan::make(alloc, net, mode, left.as_slice(), period)
}

// The tallies before anything was asked.
fn no_tallies(alloc: Global, net: &Network) -> Result<Vec<u16>, AllocError>
    ensures { IfOk result (λ tallies. tallies.items ≡ tallies_of net.now []) }
{
    let mut tallies = Vec::new(alloc);
    for _ in 0..net.product_count() as u16 {
        tallies.push(0)?;
    }
    Ok(tallies)
}

// What a controller of a network begins with: the plan of period 1 with every authorised seat left, an empty book and the tallies.
fn begun(alloc: Global, net: &Network, mode: Mode) -> Result<(Plan, Book, Vec<u16>), SolveFault>
    ensures plan { IfOk result (λ begun. IsOpeningPlan net.now mode begun.0) }
    ensures book { IfOk result (λ begun. begun.1 ≡ record { inventory = inventory_of net.now; bookings = []; next = 1 }) }
    ensures sound { IfOk result (λ begun. IsBook begun.1) }
    ensures tallies { IfOk result (λ begun. begun.2.items ≡ tallies_of net.now []) }
    ensures fault { IfErr result (IsStartFault net.now mode) }
{
    let plan = Plan::opening(alloc, net, mode)?;
    let tallies = no_tallies(alloc, net)?;
    let book = Book::new(alloc, net)?;
    Ok((plan, book, tallies))
}

// The tally of a product after a request for a party.
fn tally_after(net: &Network, tally: u16, product: u16, party: u16) -> u16
    requires product { product < length net.now.products }
    requires tally { tally ≤ MOST_SEATS }
    requires party { party ≤ MOST_PARTY }
    ensures { result ≡ min (tally + party) (least_authorised_of net.now product) }
{
    (tally + party).min(net.least_authorised(product))
}

// What is given back for a party: a percentage of its fares together, cut to a whole currency unit once.
fn refund_for(party: u16, fare: u32, percent: u8) -> u64
    ensures { result ≡ party * fare * percent / 100 }
{
    u64::from(party) * u64::from(fare) * u64::from(percent) / 100
}

impl Controller {
    ghost use Rattle.nrm_simplex.specs.Solving.{IsSolveFault};
    ghost use Rattle.nrm_dlp.specs.Hindsight.{IsHindsight};
    ghost use Rattle.nrm_dlp.specs.Programs.{hindsight_program};
    ghost use Rattle.nrm_plan.specs.Plans.{IsOpeningPlan, value_of};
    ghost use Rattle.nrm_control.specs.Standing.{book_of, BoundsRequests, IsControl, IsStartFault, Represents, with_answer};
    ghost use Rattle.nrm_control.specs.State.{after_answer, after_cancellation, after_request, SeatState, with_plan};

    /// A controller of a network with nothing sold, and the plan of period 1 with every authorised seat left.
    ///
    /// # Errors
    /// `Overflow` exactly where the linear program of that plan is Large, which under first come, first served is never;
    /// `NoMemory`. The network is dropped.
    pub fn start(alloc: Global, net: Network, mode: Mode) -> Result<Controller, SolveFault>
        ensures begins { IfOk result (λ controller. controller
            ≡ record { net = net; plan = controller.plan; bookings = []; next = 1; tallies = tallies_of net []; withheld = 0 }) }
        ensures plan { IfOk result (λ controller. IsOpeningPlan net mode controller.plan) }
        ensures sound { IfOk result IsControl }
        ensures fault { IfErr result (IsStartFault net mode) }
    {
        let (plan, book, tallies) = begun(alloc, &net, mode)?;
        Ok(Controller {
            network: net,
            plan,
            book,
            tallies,
            withheld: 0,
        })
    }

    /// Asks for seats of a product for a party. A refusal changes the product's tally alone. It takes no memory.
    pub fn request(&mut self, product: u16, party: u16) -> Answer
        requires product { product < length self.old.net.products }
        requires party { IsInRange 1 MOST_PARTY party }
        requires next { self.old.next < BOOKING_LIMIT }
        ensures answer { result ≡ verdict_of self.old.net self.old.plan self.old.bookings self.old.next product party }
        ensures leg { IsOnNetwork self.old.net result }
        ensures changed { self.new ≡ with_answer self.old product party result }
        ensures sound { IsControl self.new }
        ensures state { (s : SeatState) → Represents self.old s → Represents self.new (after_request self.old.net s product party) }
    {
        let place = product as usize;
        self.tallies[place] = tally_after(&self.network, self.tallies[place], product, party);
        match verdict_on(&self.network, &self.plan, &self.book, product, party) {
            Answer::Sold { .. } => Answer::Sold {
                number: self.book.add(product, party),
            },
            Answer::Leg(leg) => Answer::Leg(leg),
            Answer::Fare => Answer::Fare,
        }
    }

    /// What a request for seats of a product for a party would be answered now. Nothing changes, and it takes no memory.
    pub fn verdict(&self, product: u16, party: u16) -> Answer
        requires product { product < length self.now.net.products }
        ensures answer { result ≡ verdict_of self.now.net self.now.plan self.now.bookings self.now.next product party }
        ensures leg { IsOnNetwork self.now.net result }
        ensures sound { IsControl self.now }
    {
        verdict_on(&self.network, &self.plan, &self.book, product, party)
    }

    /// Books a booking that was kept elsewhere, under its own number, and tallies it as a request that was sold. The plan in force and
    /// the sum withheld stay. It takes no memory.
    pub fn load(&mut self, booking: Booking)
        requires { IsLoadable (book_of self.old) booking }
        ensures loaded { self.new ≡ with_answer self.old booking.product booking.party (Answer.Sold booking.number) }
        ensures sound { IsControl self.new }
        ensures state { (s : SeatState) → Represents self.old s
            → Represents self.new (after_answer s booking.product booking.party (Answer.Sold booking.number)) }
    {
        let place = booking.product as usize;
        self.tallies[place] = tally_after(
            &self.network,
            self.tallies[place],
            booking.product,
            booking.party,
        );
        self.book.load(booking);
    }

    /// Cancels a booking, and gives the refund, in whole currency units: of party times fare the product's percentage, cut to a
    /// whole number. The rest is withheld. `None` exactly where the number isn't live, and then nothing changes. It takes no memory.
    pub fn cancel(&mut self, number: u64) -> Option<u64>
        ensures refund { result ≡ option_map (refund_of self.old.net) (booking_numbered self.old.bookings number) }
        ensures removed { self.new
            ≡ record self.old {
              bookings = without self.old.bookings number;
              withheld = self.old.withheld + withheld_by self.old.net self.old.bookings number;
            } }
        ensures dead { IfNone result (self.new ≡ self.old) }
        ensures sound { IsControl self.new }
        ensures state { (s : SeatState) → Represents self.old s → Represents self.new (after_cancellation self.old.net s number) }
    {
        let booking = self.book.remove(number)?;
        let product = self.network.product_at(booking.product);
        let worth = u64::from(booking.party) * u64::from(product.fare);
        let refund = refund_for(booking.party, product.fare, product.refund);
        self.withheld += u128::from(worth - refund);
        Some(refund)
    }

    /// Optimises again, at the seats left now and from period `period` on: the whole new plan is made before it takes
    /// the old one's place. Gives the plan's mean value, in whole currency units a history, as a numerator and a
    /// denominator in lowest terms. Under first come, first served it solves nothing, takes no memory and gives `None`.
    ///
    /// # Errors
    /// `Overflow` exactly where the linear program at these seats left and this period is Large; `NoMemory`. Nothing changes.
    pub fn reoptimise(
        &mut self,
        alloc: Global,
        period: u8,
    ) -> Result<Option<(u64, u64)>, SolveFault>
        requires period { IsInRange 1 self.old.net.periods period }
        ensures plan { OnOk result
            (IsPlanFor self.old.net self.old.plan.mode (seats_left self.old.net self.old.bookings) period self.new.plan) }
        ensures value { IfOk result (λ told. option_map (λ value. pos value.0 over value.1) told ≡ value_of self.old.net self.new.plan) }
        ensures some { IfOk result (λ told. IfSome told (λ value. 0 < value.1)) }
        ensures lowest { IfOk result (λ told. IfSome told (λ value. gcd value.0 value.1 ≡ 1)) }
        ensures fault { IfErr result (IsPlanFault self.old.net self.old.plan.mode (seats_left self.old.net self.old.bookings) period) }
        ensures unchanged { OnErr result (self.new ≡ self.old) }
        ensures rest { self.new ≡ record self.old { plan = self.new.plan } }
        ensures sound { IsControl self.new }
        ensures state { (s : SeatState) → Represents self.old s → Represents self.new (with_plan s self.new.plan) }
    {
        let mode = self.plan.mode();
        self.plan = plan_again(alloc, &self.network, mode, &self.book, period)?;
        Ok(self.plan.mean_value(&self.network))
    }

    /// The value of hindsight: no choice of the past requests, sold or not, each whole and at most once, that fits the authorised
    /// seats earns more, in whole currency units, as a numerator and a denominator in lowest terms. Nothing changes.
    ///
    /// # Errors
    /// `Overflow` exactly where the linear program of hindsight is Large; `NoMemory`.
    pub fn hindsight(&self, alloc: Global) -> Result<(u64, u64), SolveFault>
        ensures value { IfOk result (λ value. IsHindsight self.now.net self.now.tallies (pos value.0 over value.1)) }
        ensures some { IfOk result (λ value. 0 < value.1) }
        ensures lowest { IfOk result (λ value. gcd value.0 value.1 ≡ 1) }
        ensures bounds { IfOk result (λ value. BoundsRequests self.now (pos value.0 over value.1)) }
        ensures fault { IfErr result (IsSolveFault (hindsight_program self.now.net self.now.tallies)) }
    {
        nrm_dlp::hindsight(alloc, &self.network, &self.tallies)
    }

    /// What was withheld from cancelled bookings since the start, in whole currency units: what they were worth less what was given
    /// back. It is no revenue of a booking, and stays below 2^77.
    pub fn withheld(&self) -> u128
        ensures withheld { result ≡ self.now.withheld }
        ensures small { result < 2 ^ 77 }
        ensures sound { IsControl self.now }
    {
        self.withheld
    }

    /// The tally of a product: the seats that past requests asked for, sold or not, but no more than the least authorised seats
    /// among its legs.
    pub fn tally(&self, product: u16) -> u16
        requires { product < length self.now.net.products }
        ensures tally { result ≡ slice_index self.now.tallies product }
        ensures sound { IsControl self.now }
    {
        self.tallies[product as usize]
    }

    /// It is a controller of a network within the limits. It does nothing.
    pub fn limits_hold(&self)
        ensures sound { IsControl self.now }
    {
        // For the controller's invariant alone.
        let _ = &self.network;
    }

    /// The network.
    pub fn network(&self) -> &Network
        ensures network { result.now ≡ self.now.net }
        ensures sound { IsControl self.now }
    {
        &self.network
    }

    /// The plan in force: that of the last optimisation that was made.
    pub fn plan(&self) -> &Plan
        ensures plan { result.now ≡ self.now.plan }
        ensures sound { IsControl self.now }
    {
        &self.plan
    }

    /// The book of what was sold. It is one of the network, on which no leg has more seats sold than are authorised.
    pub fn book(&self) -> &Book
        ensures book { result.now ≡ book_of self.now }
        ensures sound { IsControl self.now }
    {
        &self.book
    }
}
