//! The classes of a leg, the value of its authorised seats and its protections, as they are written.
ghost use Rattle.std.specs.Prelude.{◌≡◌, ◌≤◌, ◌<◌, ◌+◌, ◌*◌, ◌^◌, ◌++◌, ◌∷◌, [], All, IfErr, IfOk, IfSome, None, codes, decimal, drop};
ghost use Rattle.std.specs.Prelude.{flat_map, length, map, pos};
ghost use Rattle.std.specs.Int.{IsInRange};
ghost use Rattle.nrm_fraction.specs.Fraction.{◌over◌};
ghost use Rattle.nrm_text.specs.Fractions.{fraction_text};
ghost use Rattle.nrm_text.specs.Words.{spaced, text_line};
ghost use Rattle.nrm_model.specs.declared.limits.TheConstants.{MOST_HISTORIES};
ghost use Rattle.nrm_legdp.specs.declared.limits.TheConstants.{MOST_CLASSES};
ghost use Rattle.nrm_legdp.specs.Classes.{count_told};
ghost use Rattle.nrm_legdp.specs.Table.{AreClasses, values_of};
ghost use Rattle.nrm_findings.specs.LegValues.{HasClasses, HasNoClasses, IsValued, class_count, class_line, no_classes_line};
ghost use Rattle.nrm_findings.specs.LegValues.{their_demand, values_text};

use nrm_legdp::{ClassFault, Classes, LegTable, leg_classes, leg_values};
use nrm_model::Network;
use nrm_text::{Line, Name, Text};
use std::alloc::Global;

/// The most bytes of the text of a leg's values, which has ten classes at most.
pub const VALUES_ROOM: usize = 768;

// Appends the line of a class.
fn push_class(text: &mut Text<VALUES_ROOM>, net: &Network, product: u16)
    requires product { product < length net.now.products }
    requires room { length text.old + 40 ≤ VALUES_ROOM }
    ensures text { text.new ≡ text.old ++ class_line net.now product }
    ensures length { length text.new ≤ length text.old + 40 }
{
    let its = net.product_at(product);
    text.push_bytes(b"class ");
    text.push_name(&its.name);
    text.push_spaced(u64::from(its.fare));
    text.push_bytes(b"\n");
}

// Appends the lines of the classes.
fn push_classes(text: &mut Text<VALUES_ROOM>, net: &Network, products: &[u16])
    requires products { All (λ product. product < length net.now.products) products.now }
    requires room { length text.old + 40 * length products.now ≤ VALUES_ROOM }
    ensures text { text.new ≡ text.old ++ flat_map (class_line net.now) products.now }
    ensures length { length text.new ≤ length text.old + 40 * length products.now }
{
    for product in products {
        push_class(text, net, *product);
    }
}

// In how many ways so many histories fall to so many classes.
fn combinations(histories: u8, classes: u8) -> u128
    requires histories { IsInRange 1 MOST_HISTORIES histories }
    requires classes { classes ≤ MOST_CLASSES }
    ensures number { result ≡ histories ^ classes }
    ensures some { 1 ≤ result }
    ensures small { result < 2 ^ 51 }
{
    u128::from(u64::from(histories).pow(u32::from(classes)))
}

// Appends the line of a mean value.
#[tactic(auto, using(nrm_text::proofs::Fractions::short_fraction))]
fn push_value(text: &mut Text<VALUES_ROOM>, leg: &Name, value: u128, ways: u128)
    requires value { value < 2 ^ 87 }
    requires some { 1 ≤ ways }
    requires ways { ways < 2 ^ 51 }
    requires room { length text.old + 98 ≤ VALUES_ROOM }
    ensures text { text.new ≡ text.old ++ text_line (codes "value" ∷ leg.now ∷ fraction_text (pos value over ways) ∷ []) }
    ensures length { length text.new ≤ length text.old + 98 }
{
    text.push_bytes(b"value ");
    text.push_name(leg);
    text.push_bytes(b" ");
    text.push_fraction(value as i128, ways);
    text.push_bytes(b"\n");
}

// Appends the protections of a table behind the first, each behind a space.
fn push_levels(text: &mut Text<VALUES_ROOM>, table: &LegTable, classes: u8)
    requires levels { length table.now.protections ≡ classes }
    requires classes { IsInRange 1 MOST_CLASSES classes }
    requires room { length text.old + 210 ≤ VALUES_ROOM }
    ensures text { text.new ≡ text.old ++ flat_map (λ seats. spaced (decimal seats)) (drop 1 table.now.protections) }
    ensures length { length text.new ≤ length text.old + 189 }
{
    for j in 1..classes {
        text.push_spaced(u64::from(table.protection(j)));
    }
}

// Appends the line of the protections.
fn push_protections(text: &mut Text<VALUES_ROOM>, leg: &Name, table: &LegTable, classes: u8)
    requires levels { length table.now.protections ≡ classes }
    requires classes { IsInRange 1 MOST_CLASSES classes }
    requires room { length text.old + 230 ≤ VALUES_ROOM }
    ensures { text.new ≡ text.old ++ text_line (codes "protect" ∷ leg.now ∷ map (λ seats. decimal seats) (drop 1 table.now.protections)) }
{
    text.push_bytes(b"protect ");
    text.push_name(leg);
    push_levels(text, table, classes);
    text.push_bytes(b"\n");
}

// The classes, the value of so many seats, and the protections.
fn text_of_values(
    net: &Network,
    leg: &Name,
    classes: &Classes,
    table: &LegTable,
    seats: u16,
) -> Text<VALUES_ROOM>
    requires products { All (λ product. product < length net.now.products) classes.now.products }
    requires same { length classes.now.products ≡ length classes.now.fares }
    requires classes { AreClasses (their_demand net.now classes.now) }
    requires table { table.now ≡ values_of (their_demand net.now classes.now) seats }
    requires small { All (All (λ value. value < 2 ^ 87)) table.now.rows }
    ensures { result ≡ values_text net.now leg.now seats classes.now.products (their_demand net.now classes.now) }
{
    let count = classes.products.len() as u8;
    let mut text = Text::new();
    push_classes(&mut text, net, &classes.products);
    push_value(
        &mut text,
        leg,
        table.value(count, seats),
        combinations(net.n(), count),
    );
    push_protections(&mut text, leg, table, count);
    text
}

/// What the dynamic program of the leg of this name finds (chapter 2 of Talluri and van Ryzin): a line for each of its
/// classes, the highest fare first; the greatest mean revenue of its authorised seats over all seasons, in whole currency
/// units as a fraction; and the protections of all classes but the last.
///
/// # Errors
/// `Count`, with the number of products that use the leg and no other, where that is none or more than ten; a leg that
/// isn't there has none. `NoMemory`.
pub fn values_on(alloc: Global, net: &Network, name: &Name) -> Result<Text<VALUES_ROOM>, ClassFault>
    ensures valued { IfOk result (IsValued net.now name.now) }
    ensures refused { IfErr result (λ fault. IfSome (count_told fault) (λ count.
        HasNoClasses net.now name.now × (count ≡ class_count net.now name.now))) }
    ensures memory { IfErr result (λ fault. count_told fault ≡ None → HasClasses net.now name.now) }
{
    let Some(leg) = net.find_leg(name) else {
        return Err(ClassFault::Count(0));
    };
    let classes = leg_classes(alloc, net, leg)?;
    let seats = net.leg_at(leg).authorised;
    let table = leg_values(alloc, &classes.fares, &classes.demands, net.n(), seats)?;
    Ok(text_of_values(net, name, &classes, &table, seats))
}

/// The line that tells how many products would be classes, where there are none or too many.
pub fn line_of_no_classes(count: u16) -> Line
    ensures { result ≡ no_classes_line count }
{
    let mut line = Line::of_bytes(b"classes");
    line.push_spaced(u64::from(count));
    line.push_bytes(b"\n");
    line
}
