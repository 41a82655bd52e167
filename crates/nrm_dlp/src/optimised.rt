//! What is optimised of a network: bid prices with their allocation, and what they are worth in a history.
ghost use Rattle.std.specs.Prelude.{ℕ, ◌≡◌, ◌<◌, ◌≤◌, IfErr, IfOk, MatchResult, length, pos, slice_index};
ghost use Rattle.std.specs.Int.{IsInRange};
ghost use Rattle.nrm_number.specs.Gcd.{gcd};
ghost use Rattle.nrm_fraction.specs.Fraction.{◌over◌};
ghost use Rattle.nrm_fraction.specs.Large.{size_limit};
ghost use Rattle.nrm_lp.specs.Certified.{Certifies};
ghost use Rattle.nrm_lp.specs.Means.{mean_value};
ghost use Rattle.nrm_lp.specs.Shape.{HasShape};
ghost use Rattle.nrm_model.specs.Network.{leg_of};
ghost use Rattle.nrm_simplex.specs.Solving.{IsClosing, IsSolveFault};
ghost use Rattle.nrm_dlp.specs.Hindsight.{AreTallies, BoundsAllocations, IsAttained, IsHindsight};
ghost use Rattle.nrm_dlp.specs.Programs.{hindsight_program, program_at};

use crate::programs::{hindsight_program, program_at};
use nrm_lp::Certificate;
use nrm_model::Network;
use nrm_number::short_gcd;
use nrm_simplex::{SolveFault, solve};
use std::alloc::Global;

/// Optimises a network at these seats left, from period `period` on: the certificate of the closing of its program, with
/// an optimal allocation and optimal bid prices, the optimal duals (chapter 3 of Talluri and van Ryzin). `left` has the
/// seats left leg by leg, on each leg at most its authorised seats; periods count from 1.
///
/// # Errors
/// `Overflow` exactly where a number on the program's path or of its closing reaches the limit in size; `NoMemory`.
pub fn prices(
    alloc: Global,
    net: &Network,
    left: &[u16],
    period: u8,
) -> Result<Certificate, SolveFault>
    requires legs { length left.now ≡ length net.now.legs }
    requires seats { (leg : ℕ) → leg < length net.now.legs → slice_index left.now leg ≤ (leg_of net.now leg).authorised }
    requires period { IsInRange 1 net.now.periods period }
    ensures closing { MatchResult result
        (IsClosing (program_at net.now left.now period)) (IsSolveFault (program_at net.now left.now period)) }
    ensures certified { IfOk result (Certifies size_limit (program_at net.now left.now period)) }
{
    let program = program_at(alloc, net, left, period)?;
    solve(alloc, &program)
}

// A fraction's numerator and denominator in lowest terms.
fn reduced(num: u64, den: u64) -> (u64, u64)
    requires { 0 < den }
    ensures value { pos result.0 over result.1 ≡ pos num over den }
    ensures some { 0 < result.1 }
    ensures lowest { gcd result.0 result.1 ≡ 1 }
{
    let shared = short_gcd(num, den);
    (num / shared, den / shared)
}

/// The mean value of a certificate, in whole currency units a history: its value over its denominator and over the
/// histories, as a numerator and a denominator in lowest terms. It takes no memory.
pub fn mean_value(net: &Network, certificate: &Certificate) -> (u64, u64)
    requires { HasShape size_limit (length net.now.products) (length net.now.legs) certificate.now }
    ensures value { pos result.0 over result.1 ≡ mean_value net.now.histories certificate.now }
    ensures some { 0 < result.1 }
    ensures lowest { gcd result.0 result.1 ≡ 1 }
{
    let value = certificate.value.unsigned_abs();
    let den = certificate.den.unsigned_abs() * u64::from(net.n());
    reduced(value, den)
}

/// The value of hindsight: the most that any choice of past requests could have earned, were parts of seats for sale, in
/// whole currency units, as a numerator and a denominator in lowest terms. `tallies` has the tallies product by product, in
/// seats, none above the least authorised seats among the product's legs.
///
/// # Errors
/// `Overflow` exactly where a number on the path of its program or of its closing reaches the limit in size; `NoMemory`.
pub fn hindsight(alloc: Global, net: &Network, tallies: &[u16]) -> Result<(u64, u64), SolveFault>
    requires { AreTallies net.now tallies.now }
    ensures value { IfOk result (λ value. IsHindsight net.now tallies.now (pos value.0 over value.1)) }
    ensures some { IfOk result (λ value. 0 < value.1) }
    ensures lowest { IfOk result (λ value. gcd value.0 value.1 ≡ 1) }
    ensures bounds { IfOk result (λ value. BoundsAllocations (hindsight_program net.now tallies.now) (pos value.0 over value.1)) }
    ensures attained { IfOk result (λ value. IsAttained (hindsight_program net.now tallies.now) (pos value.0 over value.1)) }
    ensures fault { IfErr result (IsSolveFault (hindsight_program net.now tallies.now)) }
{
    let program = hindsight_program(alloc, net, tallies)?;
    let made = solve(alloc, &program)?;
    Ok(reduced(made.value.unsigned_abs(), made.den.unsigned_abs()))
}
