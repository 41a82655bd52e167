//! A plan: the mode, the period and the seats left of one optimisation, and its certificate. A plan holds no network.
ghost use Rattle.std.specs.Prelude.{◌≡◌, ◌<◌, ◌≤◌, IfErr, IfOk, IfSome, Option, Some, length, option_map, pos, true, [], slice_index_or};
ghost use Rattle.std.specs.Int.{IsInRange};
ghost use Rattle.nrm_number.specs.Gcd.{gcd};
ghost use Rattle.nrm_fraction.specs.Fraction.{◌over◌};
ghost use Rattle.nrm_lp.specs.declared.certificate.Certificate.{Certificate as CertificateValue};
ghost use Rattle.nrm_model.specs.Inventory.{inventory_of, uses_leg};
ghost use Rattle.nrm_model.specs.Limits.{IsNetwork};
ghost use Rattle.nrm_virtual.specs.Table.{HasPair, bucket_in};
ghost use Rattle.nrm_plan.specs.Nesting.{NestsValue, level_at};
ghost use Rattle.nrm_plan.specs.Plans.{AreSeatsLeft, IsOpeningPlan, IsPlanFault, IsPlanFor, IsPlanOf, HasCertificate, HasNests};
ghost use Rattle.nrm_plan.specs.Plans.{fare_refuses, protected_from, value_of};

use crate::SeatsLeft;
use crate::fares::below_bid_prices;
use crate::nests::Nests;
use nrm_dlp::{mean_value, prices};
use nrm_lp::Certificate;
use nrm_model::{Mode, Network};
use nrm_simplex::SolveFault;
use std::alloc::Global;
use std::marker::Model;

/// What was optimised, and what it gave.
#[derive(Drop)]
pub struct Plan {
    mode: Mode,
    period: u8,
    left: SeatsLeft,
    certificate: Option<Certificate>,
    nests: Option<Nests>,
}

impl Model for Plan {
    ghost use Rattle.nrm_plan.specs.Plans.{PlanValue};

    ghost Value = { PlanValue };

    ghost view = { λ p. record { mode = p.mode; period = p.period; left = p.left; certificate = p.certificate; nests = p.nests } };
}

// The authorised seats of each leg.
fn full_seats(net: &Network) -> SeatsLeft
    ensures seats { result ≡ (inventory_of net.now).authorised }
    ensures limits { IsNetwork net.now }
{
    let mut seats = SeatsLeft::new();
    for leg in 0..net.leg_count() as u8 {
        seats.push(net.leg_at(leg).authorised);
    }
    seats
}

// The certificate and the nests of a plan, where its mode has them.
fn solved(
    alloc: Global,
    net: &Network,
    mode: Mode,
    left: &[u16],
    period: u8,
) -> Result<(Option<Certificate>, Option<Nests>), SolveFault>
    requires left { AreSeatsLeft net.now left.now }
    requires period { IsInRange 1 net.now.periods period }
    ensures certificate { IfOk result (λ made. HasCertificate net.now left.now period mode made.0) }
    ensures nests { IfOk result (λ made. HasNests net.now period mode made.0 made.1) }
    ensures fault { IfErr result (IsPlanFault net.now mode left.now period) }
{
    if mode == Mode::FirstCome {
        return Ok((None, None));
    }
    let certificate = prices(alloc, net, left, period)?;
    if mode == Mode::Bid {
        return Ok((Some(certificate), None));
    }
    let nests = Nests::build(alloc, net, &certificate, period)?;
    Ok((Some(certificate), Some(nests)))
}

impl Plan {
    /// The plan of a network in a mode, at these seats left and from period `period` on: under first come, first served
    /// nothing is solved, and no memory taken; in the other modes it has the certificate of the linear program's closing.
    /// `left` has the seats left leg by leg, on each leg at most its authorised seats; periods count from 1.
    ///
    /// # Errors
    /// `Overflow` exactly where the linear program is Large, and `NoMemory`; first come, first served meets neither.
    pub fn make(
        alloc: Global,
        net: &Network,
        mode: Mode,
        left: &[u16],
        period: u8,
    ) -> Result<Plan, SolveFault>
        requires left { AreSeatsLeft net.now left.now }
        requires period { IsInRange 1 net.now.periods period }
        ensures plan { IfOk result (IsPlanFor net.now mode left.now period) }
        ensures fault { IfErr result (IsPlanFault net.now mode left.now period) }
    {
        net.limits_hold();
        let (certificate, nests) = solved(alloc, net, mode, left, period)?;
        Ok(Plan {
            mode,
            period,
            left: SeatsLeft::of(left),
            certificate,
            nests,
        })
    }

    /// The plan before anything is sold: that of period 1 with every authorised seat left.
    ///
    /// # Errors
    /// As for `make`.
    pub fn opening(alloc: Global, net: &Network, mode: Mode) -> Result<Plan, SolveFault>
        ensures plan { IfOk result (IsOpeningPlan net.now mode) }
        ensures fault { IfErr result (IsPlanFault net.now mode (inventory_of net.now).authorised 1) }
    {
        Plan::make(alloc, net, mode, full_seats(net).as_slice(), 1)
    }

    /// How requests are controlled.
    pub fn mode(&self) -> Mode
        ensures { result ≡ self.now.mode }
    {
        self.mode
    }

    /// The period that was optimised, counted from 1.
    pub fn period(&self) -> u8
        ensures { result ≡ self.now.period }
    {
        self.period
    }

    /// The certificate; a plan of first come, first served has none.
    pub fn certificate(&self) -> Option<&Certificate>
        ensures { option_map (λ certificate. certificate.now) result ≡ self.now.certificate }
    {
        self.certificate.as_ref()
    }

    /// The bid price of a seat on a leg, in currency units: a numerator over the denominator of the certificate, not
    /// reduced.
    ///
    /// The program prints no single price; the call is there for users of the library.
    pub fn price(&self, leg: u8) -> (i64, i64)
        requires { (cert : CertificateValue) × (self.now.certificate ≡ Some cert) × (leg < length cert.p) }
        ensures { IfSome self.now.certificate (λ cert. (result.0 ≡ slice_index_or cert.p leg (pos 0)) × (result.1 ≡ cert.den)) }
    {
        match self.certificate.as_ref() {
            Some(certificate) => (certificate.p.as_slice()[leg as usize], certificate.den),
            None => (0, 1),
        }
    }

    /// The bucket of a product on one of its legs, under virtual nesting.
    pub fn bucket(&self, leg: u8, product: u16) -> u8
        requires { (nests : NestsValue) × (self.now.nests ≡ Some nests) × HasPair nests.buckets leg product }
        ensures { (nests : NestsValue) → self.now.nests ≡ Some nests → Some result ≡ bucket_in nests.buckets leg product }
    {
        match self.nests.as_ref() {
            Some(nests) => nests.bucket(leg, product),
            None => 0,
        }
    }

    /// The seats of a leg that are protected for its buckets 1 to `bucket`, under virtual nesting; none are for no bucket.
    pub fn protection(&self, leg: u8, bucket: u8) -> u16
        requires { (nests : NestsValue) × (self.now.nests ≡ Some nests) × (leg < length nests.protections)
            × (bucket ≤ length (slice_index_or nests.protections leg [])) }
        ensures { (nests : NestsValue) → self.now.nests ≡ Some nests → result ≡ level_at (slice_index_or nests.protections leg []) bucket }
    {
        match self.nests.as_ref() {
            Some(nests) => nests.protection(leg, bucket),
            None => 0,
        }
    }

    /// The mean value of a history, in whole currency units: a numerator and a denominator in lowest terms. `None` under
    /// first come, first served.
    pub fn mean_value(&self, net: &Network) -> Option<(u64, u64)>
        requires { IsPlanOf net.now self.now }
        ensures value { option_map (λ value. pos value.0 over value.1) result ≡ value_of net.now self.now }
        ensures some { IfSome result (λ value. 0 < value.1) }
        ensures lowest { IfSome result (λ value. gcd value.0 value.1 ≡ 1) }
    {
        net.limits_hold();
        let certificate = self.certificate.as_ref()?;
        Some(mean_value(net, certificate))
    }

    /// Whether the fare of a product refuses: under bid-price control, where it is below the sum of the bid prices of the
    /// product's legs; a fare that equals it sells. It takes no memory.
    pub fn fare_refuses(&self, net: &Network, product: u16) -> bool
        requires plan { IsPlanOf net.now self.now }
        requires product { product < length net.now.products }
        ensures { result ≡ fare_refuses net.now self.now product }
    {
        net.limits_hold();
        match (self.mode, self.certificate.as_ref()) {
            (Mode::Bid, Some(certificate)) => below_bid_prices(net, certificate, product),
            _ => false,
        }
    }

    /// The seats that are protected from a product on one of its legs: under virtual nesting those protected for the buckets
    /// above the product's, and none in the other modes. It takes no memory, and works nothing out anew.
    pub fn protected_from(&self, net: &Network, leg: u8, product: u16) -> u16
        requires plan { IsPlanOf net.now self.now }
        requires leg { leg < length net.now.legs }
        requires product { product < length net.now.products }
        requires uses { uses_leg (inventory_of net.now) leg product ≡ true }
        ensures { result ≡ protected_from net.now self.now leg product }
    {
        match self.nests.as_ref() {
            Some(nests) => nests.protected_from(leg, product),
            None => 0,
        }
    }
}
