//! A row as it is read: its fields by their meaning, each read once. What is asked of a row before any look-up stands
//! here, kind by kind: its place, how many fields it has, that there is room for it, and what its fields are.
ghost use Rattle.std.specs.Prelude.{◌≡◌, ◌≤◌, MatchResult, false};
ghost use Rattle.nrm_network.specs.Inner.RowFields.{fields_in};
ghost use Rattle.nrm_network.specs.Rows.{kind_of, periods_kind, leg_kind, product_kind, demand_kind, refund_kind};
ghost use Rattle.nrm_network.specs.Inner.Entries.{ReadsAs, ReadsRow, first_refusal, kind_by, kind_seen};

use crate::fault::{RowRefusal, Why};
use crate::row::{
    RowFields, field, leg_figures_in, name_again, name_in, names_in, number_in, seats_in,
    version_of,
};
use nrm_model::{
    Leg, MOST_FARE, MOST_HISTORIES, MOST_LEGS, MOST_LEGS_OF_A_PRODUCT, MOST_PERIODS, MOST_PRODUCTS,
    MOST_REFUND, MOST_THRESHOLDS, Thresholds,
};
use nrm_text::Name;
use std::alloc::Global;

/// What a row says.
#[derive(Drop)]
pub(crate) enum Entry<'a> {
    Periods {
        version: u8,
        histories: u8,
        periods: u8,
    },
    Leg(Leg),
    Product(ProductEntry),
    Demand(DemandEntry<'a>),
    Refund(RefundEntry),
}

/// What a row of a product says: its legs are named.
#[derive(Drop)]
pub(crate) struct ProductEntry {
    pub(crate) name: Name,
    pub(crate) fare: u32,
    pub(crate) legs: Vec<Name>,
}

/// What a row of demand says: the seats of each period, which are lent.
#[derive(Clone, Copy)]
pub(crate) struct DemandEntry<'a> {
    pub(crate) product: Name,
    pub(crate) history: u8,
    pub(crate) seats: &'a [u16],
}

/// What a row of a refund says: the percentage of a product.
#[derive(Clone, Copy)]
pub(crate) struct RefundEntry {
    pub(crate) product: Name,
    pub(crate) percentage: u8,
}

/// What was read before a row: the file's version, how many histories and periods there are, both 0 before the first row, and
/// how many legs and products were read.
#[derive(Clone, Copy)]
pub(crate) struct Counts {
    pub(crate) version: u8,
    pub(crate) histories: u8,
    pub(crate) periods: u8,
    pub(crate) legs: usize,
    pub(crate) products: usize,
}

/// The kind of a row, by its first field.
#[derive(Clone, Copy)]
enum RowKind {
    Periods,
    Leg,
    Product,
    Demand,
    Refund,
    Unknown,
}

// The kind of the rows that begin with this word.
fn kind_named(word: &[u8]) -> RowKind
    ensures { kind_seen result ≡ kind_by word.now }
{
    if word == b"periods".as_slice() {
        RowKind::Periods
    } else if word == b"leg".as_slice() {
        RowKind::Leg
    } else if word == b"product".as_slice() {
        RowKind::Product
    } else if word == b"demand".as_slice() {
        RowKind::Demand
    } else if word == b"refund".as_slice() {
        RowKind::Refund
    } else {
        RowKind::Unknown
    }
}

fn kind_of(row: &RowFields<'_>) -> RowKind
    ensures { kind_seen result ≡ kind_of (fields_in row.now) }
{
    kind_named(field(row, 0))
}

// The first of these checks that refuses a row: it is out of order, its fields are too few or too many, or there is no
// room for it.
fn admit(out_of_order: bool, miscounted: bool, too_many: bool) -> Result<(), Why>
    ensures { MatchResult result (λ done. (out_of_order ≡ false) × (miscounted ≡ false) × (too_many ≡ false))
        (λ cause. first_refusal out_of_order miscounted too_many ≡ Some cause) }
{
    if out_of_order {
        return Err(Why::Order);
    }
    if miscounted {
        return Err(Why::Fields);
    }
    if too_many {
        return Err(Why::Many);
    }
    Ok(())
}

fn read_periods<'a>(counts: Counts, row: &RowFields<'_>) -> Result<Entry<'a>, RowRefusal>
    ensures { ReadsAs periods_kind counts (fields_in row.now) result }
{
    let first = counts.histories == 0;
    let count = row.len();
    admit(!first, !(3 <= count && count <= 4), false)?;
    let histories = number_in(field(row, 1), 1, u32::from(MOST_HISTORIES))?;
    let periods = number_in(field(row, 2), 1, u32::from(MOST_PERIODS))?;
    let version = version_of(row)?;
    Ok(Entry::Periods {
        version: version.ok_or(Why::Range)?,
        histories: histories.ok_or(Why::Range)? as u8,
        periods: periods.ok_or(Why::Range)? as u8,
    })
}

fn read_leg<'a>(alloc: Global, counts: Counts, row: &RowFields<'_>) -> Result<Entry<'a>, RowRefusal>
    requires { counts.version ≤ 2 }
    ensures { ReadsAs leg_kind counts (fields_in row.now) result }
{
    let version = counts.version as usize;
    let count = row.len();
    admit(
        counts.histories == 0,
        !(2 + version <= count && count <= 2 + version + MOST_THRESHOLDS),
        MOST_LEGS <= counts.legs,
    )?;
    let name = name_in(field(row, 1))?;
    let figures = leg_figures_in(alloc, counts.version, row)?;
    let figures = figures.ok_or(Why::Range)?;
    Ok(Entry::Leg(Leg {
        name,
        seats: figures.seats,
        authorised: figures.authorised,
        cuts: Thresholds::new(figures.cuts),
    }))
}

fn read_product<'a>(
    alloc: Global,
    counts: Counts,
    row: &RowFields<'_>,
) -> Result<Entry<'a>, RowRefusal>
    ensures { ReadsAs product_kind counts (fields_in row.now) result }
{
    let count = row.len();
    admit(
        counts.histories == 0,
        !(4 <= count && count <= 3 + MOST_LEGS_OF_A_PRODUCT),
        MOST_PRODUCTS <= counts.products,
    )?;
    let name = name_in(field(row, 1))?;
    let legs = names_in(alloc, row)?;
    let fare = number_in(field(row, 2), 1, MOST_FARE)?;
    Ok(Entry::Product(ProductEntry {
        name,
        fare: fare.ok_or(Why::Range)?,
        legs,
    }))
}

fn read_demand<'a>(
    counts: Counts,
    recent: Option<&Name>,
    row: &RowFields<'_>,
    places: &'a mut [u16; 16],
) -> Result<Entry<'a>, RowRefusal>
    requires { counts.periods ≤ 16 }
    ensures { ReadsAs demand_kind counts (fields_in row.now) result }
{
    let periods = counts.periods as usize;
    admit(counts.histories == 0, row.len() != 3 + periods, false)?;
    let product = name_again(field(row, 1), recent)?;
    let history = number_in(field(row, 2), 1, u32::from(counts.histories))?;
    let seats = &mut places[..periods];
    let within = seats_in(row, seats)?;
    let history = history.ok_or(Why::Range)? as u8;
    if !within {
        return Err(RowRefusal::Refused(Why::Range));
    }
    Ok(Entry::Demand(DemandEntry {
        product,
        history,
        seats,
    }))
}

fn read_refund<'a>(counts: Counts, row: &RowFields<'_>) -> Result<Entry<'a>, RowRefusal>
    ensures { ReadsAs refund_kind counts (fields_in row.now) result }
{
    if counts.version != 2 {
        return Err(RowRefusal::Refused(Why::Kind));
    }
    admit(counts.histories == 0, row.len() != 3, false)?;
    let product = name_in(field(row, 1))?;
    let percentage = number_in(field(row, 2), 0, u32::from(MOST_REFUND))?;
    Ok(Entry::Refund(RefundEntry {
        product,
        percentage: percentage.ok_or(Why::Range)? as u8,
    }))
}

/// What a row says that passes the checks that need no look-up. The seats of a demand are written at these places. The
/// recent name is that of the product whose demand was given last.
///
/// # Errors
/// The first check that it fails, or memory ran out.
pub(crate) fn read_row<'a>(
    alloc: Global,
    counts: Counts,
    recent: Option<&Name>,
    row: &RowFields<'_>,
    places: &'a mut [u16; 16],
) -> Result<Entry<'a>, RowRefusal>
    requires version { counts.version ≤ 2 }
    requires periods { counts.periods ≤ 16 }
    ensures { ReadsRow counts (fields_in row.now) result }
{
    match kind_of(row) {
        RowKind::Periods => read_periods(counts, row),
        RowKind::Leg => read_leg(alloc, counts, row),
        RowKind::Product => read_product(alloc, counts, row),
        RowKind::Demand => read_demand(counts, recent, row, places),
        RowKind::Refund => read_refund(counts, row),
        RowKind::Unknown => Err(RowRefusal::Refused(Why::Kind)),
    }
}
