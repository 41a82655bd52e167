//! The canonical file of a network, of version 2, written row by row: the fields with commas between them, and the end of the line
//! after each row.
ghost use Rattle.std.specs.Prelude.{◌≡◌, ◌<◌, ◌∷◌, ◌++◌, All, IfOk, OnOk, decimal, flat_map, length, map};
ghost use Rattle.std.specs.List.{range_with_len};
ghost use Rattle.nrm_model.specs.Limits.{IsNetwork};
ghost use Rattle.nrm_model.specs.Network.{leg_of};
ghost use Rattle.nrm_network.specs.Canonical.{canonical_file, leg_fields, periods_fields, product_fields, refund_fields};
ghost use Rattle.nrm_network.specs.File.{file_of};
ghost use Rattle.nrm_network.specs.Inner.RowText.{after_commas, history_fields, history_text, row_text};

use crate::numbers::{NUMBERS_ROOM, write_numbers};
use itoa::Buffer;
use nrm_model::{Leg, MOST_REFUND, Network, Product};
use std::alloc::{AllocError, Global};

fn push_field(text: &mut Vec<u8>, field: &[u8]) -> Result<(), AllocError>
    ensures { OnOk result (text.new.items ≡ text.old.items ++ 44 ∷ field.now) }
{
    text.push(b',')?;
    text.extend_from_slice(field)
}

fn push_number(text: &mut Vec<u8>, number: u32) -> Result<(), AllocError>
    ensures { OnOk result (text.new.items ≡ text.old.items ++ 44 ∷ decimal number) }
{
    push_field(text, Buffer::new().format(number).as_bytes())
}

fn push_numbers(text: &mut Vec<u8>, numbers: &[u32]) -> Result<(), AllocError>
    ensures { OnOk result (text.new.items ≡ text.old.items ++ after_commas (map decimal numbers.now)) }
{
    for number in numbers {
        push_number(text, *number)?;
    }
    Ok(())
}

fn push_periods(text: &mut Vec<u8>, net: &Network) -> Result<(), AllocError>
    ensures pushed { OnOk result (text.new.items ≡ text.old.items ++ row_text (periods_fields net.now)) }
    ensures limits { OnOk result (IsNetwork net.now) }
{
    text.extend_from_slice(b"periods")?;
    push_number(text, u32::from(net.n()))?;
    push_number(text, u32::from(net.t()))?;
    push_number(text, 2)?;
    text.push(b'\n')?;
    Ok(())
}

fn push_leg(text: &mut Vec<u8>, leg: &Leg) -> Result<(), AllocError>
    ensures { OnOk result (text.new.items ≡ text.old.items ++ row_text (leg_fields leg.now)) }
{
    text.extend_from_slice(b"leg")?;
    push_field(text, leg.name.bytes())?;
    push_number(text, u32::from(leg.seats))?;
    push_number(text, u32::from(leg.authorised))?;
    push_numbers(text, leg.cuts.as_slice())?;
    text.push(b'\n')?;
    Ok(())
}

fn push_leg_names(text: &mut Vec<u8>, net: &Network, legs: &[u8]) -> Result<(), AllocError>
    requires { All (λ leg. leg < length net.now.legs) legs.now }
    ensures { OnOk result (text.new.items ≡ text.old.items ++ after_commas (map (λ leg. (leg_of net.now leg).name) legs.now)) }
{
    for i in legs {
        push_field(text, net.leg_at(*i).name.bytes())?;
    }
    Ok(())
}

fn push_product(text: &mut Vec<u8>, net: &Network, product: &Product) -> Result<(), AllocError>
    requires { All (λ leg. leg < length net.now.legs) product.now.legs }
    ensures { OnOk result (text.new.items ≡ text.old.items ++ row_text (product_fields net.now product.now)) }
{
    text.extend_from_slice(b"product")?;
    push_field(text, product.name.bytes())?;
    push_number(text, product.fare)?;
    push_leg_names(text, net, product.legs.as_slice())?;
    text.push(b'\n')?;
    Ok(())
}

// The row of a product's percentage, unless it is all of the fare.
fn push_refund(text: &mut Vec<u8>, product: &Product) -> Result<(), AllocError>
    ensures { OnOk result (text.new.items ≡ text.old.items ++ flat_map row_text (refund_fields product.now)) }
{
    if product.refund == MOST_REFUND {
        return Ok(());
    }
    text.extend_from_slice(b"refund")?;
    push_field(text, product.name.bytes())?;
    push_number(text, u32::from(product.refund))?;
    text.push(b'\n')?;
    Ok(())
}

fn push_demand(text: &mut Vec<u8>, net: &Network, j: u16, h: u8) -> Result<(), AllocError>
    requires limits { IsNetwork net.now }
    requires product { j < length net.now.products }
    requires history { h < net.now.histories }
    ensures { OnOk result (text.new.items ≡ text.old.items ++ row_text (history_fields net.now j h)) }
{
    let mut numbers = [0; NUMBERS_ROOM];
    let from = write_numbers(&mut numbers, net, j, h);
    text.extend_from_slice(b"demand")?;
    push_field(text, net.product_at(j).name.bytes())?;
    text.extend_from_slice(&numbers[from..])?;
    Ok(())
}

// The row of a product in a history, if any seat was requested.
fn push_history(text: &mut Vec<u8>, net: &Network, j: u16, h: u8) -> Result<(), AllocError>
    requires limits { IsNetwork net.now }
    requires product { j < length net.now.products }
    requires history { h < net.now.histories }
    ensures { OnOk result (text.new.items ≡ text.old.items ++ history_text net.now j h) }
{
    if net.to_come(j, h, 1) == 0 {
        return Ok(());
    }
    push_demand(text, net, j, h)
}

fn push_histories(text: &mut Vec<u8>, net: &Network, j: u16) -> Result<(), AllocError>
    requires { j < length net.now.products }
    ensures { OnOk result (text.new.items ≡ text.old.items ++ flat_map (history_text net.now j) (range_with_len 0 net.now.histories)) }
{
    for h in 0..net.n() {
        push_history(text, net, j, h)?;
    }
    Ok(())
}

fn push_legs(text: &mut Vec<u8>, net: &Network) -> Result<(), AllocError>
    ensures { OnOk result (text.new.items ≡ text.old.items ++ flat_map (λ leg. row_text (leg_fields leg)) net.now.legs) }
{
    for i in 0..net.leg_count() {
        push_leg(text, net.leg_at(i as u8))?;
    }
    Ok(())
}

fn push_products(text: &mut Vec<u8>, net: &Network) -> Result<(), AllocError>
    ensures { OnOk result (text.new.items
        ≡ text.old.items ++ flat_map (λ product. row_text (product_fields net.now product)) net.now.products) }
{
    for j in 0..net.product_count() {
        push_product(text, net, net.product_at(j as u16))?;
    }
    Ok(())
}

fn push_refunds(text: &mut Vec<u8>, net: &Network) -> Result<(), AllocError>
    ensures { OnOk result (text.new.items
        ≡ text.old.items ++ flat_map (λ product. flat_map row_text (refund_fields product)) net.now.products) }
{
    for j in 0..net.product_count() {
        push_refund(text, net.product_at(j as u16))?;
    }
    Ok(())
}

fn push_demands(text: &mut Vec<u8>, net: &Network) -> Result<(), AllocError>
    ensures { OnOk result (text.new.items
        ≡ text.old.items
        ++ flat_map (λ product. flat_map (history_text net.now product) (range_with_len 0 net.now.histories))
        (range_with_len 0 (length net.now.products))) }
{
    let products = net.product_count();
    for j in 0..products {
        push_histories(text, net, j as u16)?;
    }
    Ok(())
}

/// The canonical file of a network, of version 2: the periods, the legs, the products, the percentage of each product of which not all
/// of the fare is given back, and the demand of each product in each history in which a seat was requested.
///
/// It is read back as the same network.
///
/// # Errors
/// Memory runs out.
pub fn print(alloc: Global, net: &Network) -> Result<Vec<u8>, AllocError>
    ensures file { IfOk result (λ file. file.items ≡ canonical_file net.now) }
    ensures read { IfOk result (λ file. file_of file.items ≡ Ok net.now) }
{
    let mut text = Vec::new(alloc);
    push_periods(&mut text, net)?;
    push_legs(&mut text, net)?;
    push_products(&mut text, net)?;
    push_refunds(&mut text, net)?;
    push_demands(&mut text, net)?;
    Ok(text)
}
