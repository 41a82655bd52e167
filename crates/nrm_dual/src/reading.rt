//! Certificates as they are read from a file: its lines fill a sheet with a fraction for the value, each product and each
//! leg, and the whole sheet gives the certificate.
ghost use Rattle.std.specs.Prelude.{◌≡◌, ◌≤◌, IfErr, IfOk, MatchResult, Err, Ok, length};
ghost use Rattle.nrm_fraction.specs.Large.{size_limit};
ghost use Rattle.nrm_stream.specs.Lines.{lines_of};
ghost use Rattle.nrm_lp.specs.Shape.{HasShape};
ghost use Rattle.nrm_model.specs.Limits.{IsNetwork};
ghost use Rattle.nrm_model.specs.declared.limits.TheConstants.{MOST_CERTIFICATE_BYTES, MOST_HISTORIES, MOST_LEGS, MOST_PRODUCTS};
ghost use Rattle.nrm_dual.specs.Reading.{after_line, after_lines, certificate_of, entry_of};
ghost use Rattle.nrm_dual.specs.Refusals.{AnswersCertificate};
ghost use Rattle.nrm_dual.specs.Named.{IsOfNetwork};
ghost use Rattle.nrm_dual.specs.Inner.Sheets.{IsSheetOf, Refuses, certificate_in, fault_at};

use crate::amounts::certificate_over;
use crate::fault::CertFault;
use crate::place::place_in;
use crate::sheet::{Sheet, first_missing};
use crate::written::written_in;
use nrm_lp::Certificate;
use nrm_model::{MOST_CERTIFICATE_BYTES, Network};
use nrm_stream::next_line;
use nrm_text::NumberFault;
use std::alloc::Global;

/// Reads the certificate that a file gives for a network. Its lines may come in any order, the value, each product and
/// each leg once: `value n/d`, `product NAME n/d` and `leg NAME n/d`, with the mean value and the mean allocations of a
/// history, and the bid prices. The fractions need not be in lowest terms. One carriage return at the end of a line is
/// dropped.
///
/// The certificate is that of all histories together: `q` is the least common denominator of the allocations, `den` that
/// of the value and the bid prices.
///
/// # Errors
/// See [`CertFault`]; the causes come in its order, those of lines at the first line that fails.
pub fn read_certificate(
    alloc: Global,
    net: &Network,
    bytes: &[u8],
) -> Result<Certificate, CertFault>
    ensures file { AnswersCertificate result (certificate_of net.now bytes.now) }
    ensures shaped { IfOk result (HasShape size_limit (length net.now.products) (length net.now.legs)) }
    ensures named { IfErr result (IsOfNetwork net.now) }
{
    if bytes.len() > MOST_CERTIFICATE_BYTES {
        return Err(CertFault::Long);
    }
    let histories = net.n();
    let mut sheet = Sheet::blank(alloc, net)?;
    read_lines(&mut sheet, net, bytes)?;
    certificate_on(alloc, histories, &sheet)
}

// Reads the lines onto a blank sheet.
fn read_lines(sheet: &mut Sheet, net: &Network, bytes: &[u8]) -> Result<(), CertFault>
    requires limits { IsNetwork net.now }
    requires sheet { IsSheetOf net.now sheet.old }
    requires size { length bytes.now ≤ MOST_CERTIFICATE_BYTES }
    ensures lines { MatchResult result (λ _. after_lines net.now sheet.old 1 (lines_of bytes.now) ≡ Ok sheet.new)
        (λ fault. Refuses fault (after_lines net.now sheet.old 1 (lines_of bytes.now))) }
    ensures sheet { IfOk result (λ _. IsSheetOf net.now sheet.new) }
{
    let mut rest = bytes;
    let mut number = 1;
    while let Some((line, after)) = next_line(rest) {
        read_line(sheet, net, line, number)?;
        number += 1;
        rest = after;
    }
    Ok(())
}

// Reads a line of this number.
fn read_line(sheet: &mut Sheet, net: &Network, line: &[u8], number: u32) -> Result<(), CertFault>
    requires limits { IsNetwork net.now }
    requires sheet { IsSheetOf net.now sheet.old }
    ensures line { MatchResult result (λ _. after_line sheet.old number (entry_of net.now line.now) ≡ Ok sheet.new)
        (λ fault. Refuses fault (after_line sheet.old number (entry_of net.now line.now))) }
    ensures sheet { IfOk result (λ _. IsSheetOf net.now sheet.new) }
{
    let Some((place, word)) = place_in(net, line) else {
        return Err(CertFault::Line(number));
    };
    if sheet.has(net, place) {
        return Err(CertFault::Line(number));
    }
    let fraction = written_in(word).map_err(|fault| fault_at(number, fault))?;
    sheet.put(net, place, fraction);
    Ok(())
}

// The fault of the line of this number, by that of its fraction.
fn fault_at(number: u32, fault: NumberFault) -> CertFault
    ensures { result ≡ fault_at number fault }
{
    match fault {
        NumberFault::Off => CertFault::Line(number),
        NumberFault::Over => CertFault::Large(number),
    }
}

// The certificate of a sheet.
fn certificate_on(alloc: Global, histories: u8, sheet: &Sheet) -> Result<Certificate, CertFault>
    requires histories { histories ≤ MOST_HISTORIES }
    requires products { length sheet.now.products ≤ MOST_PRODUCTS }
    requires legs { length sheet.now.legs ≤ MOST_LEGS }
    ensures { AnswersCertificate result (certificate_in histories sheet.now) }
{
    if sheet.value().is_none() {
        return Err(CertFault::NoValue);
    }
    if let Some(product) = first_missing(sheet.products()) {
        return Err(CertFault::NoProduct(product as u16));
    }
    if let Some(leg) = first_missing(sheet.legs()) {
        return Err(CertFault::NoLeg(leg as u8));
    }
    certificate_over(alloc, histories, sheet)
}
