//! The fields of a row, each read once.
ghost use Rattle.std.specs.Prelude.{◌≡◌, ◌≤◌, ◌<◌, ◌+◌, length};
ghost use Rattle.std.specs.Int.{IsInRange};
ghost use Rattle.csv.specs.Records.{fields_of};
ghost use Rattle.nrm_network.specs.Inner.RowFields.{fields_in};
ghost use Rattle.nrm_model.specs.declared.limits.TheConstants.{MOST_DEMAND};
ghost use Rattle.nrm_network.specs.Rows.{field};
ghost use Rattle.nrm_network.specs.Inner.Fields.{LegFiguresIn, NameIn, NamesIn, NumberIn, NumbersIn, SeatsIn, TwoCountsIn, VersionIn};

use crate::fault::{RowRefusal, Why};
use crate::line::{Line, MOST_FIELDS};
use csv::ByteRecord;
use nrm_model::{MOST_DEMAND, MOST_FARE, MOST_SEATS};
use nrm_text::{Name, NumberFault, name_of, read_whole};
use std::alloc::Global;

/// What the row of a leg writes: its seats, its authorised seats and its thresholds.
#[derive(Drop)]
pub(crate) struct LegFigures {
    pub(crate) seats: u16,
    pub(crate) authorised: u16,
    pub(crate) cuts: Vec<u32>,
}

/// The fields of a row: those of a line, lent where they stand, or those of a record that `csv` read.
#[derive(Drop)]
pub(crate) enum RowFields<'a> {
    Line(&'a Line<'a>),
    Record(&'a ByteRecord),
}

impl RowFields<'_> {
    ghost use Rattle.std.specs.Prelude.{◌≡◌, length};
    ghost use Rattle.nrm_network.specs.Inner.RowFields.{fields_in};

    /// How many fields the row has.
    pub(crate) fn len(&self) -> usize
        ensures { result ≡ length (fields_in self.now) }
    {
        match self {
            RowFields::Line(line) => line.len(),
            RowFields::Record(record) => record.len(),
        }
    }
}

// The field of a record at a place, counted from 0; past the last one it is empty.
fn field_of(read: &ByteRecord, i: usize) -> &[u8]
    ensures { result.now ≡ field (fields_of read.now) i }
{
    match read.get(i) {
        Some(field) => field,
        None => &[],
    }
}

/// The field at a place, counted from 0; past the last one it is empty.
pub(crate) fn field<'a>(row: &'a RowFields<'_>, i: usize) -> &'a [u8]
    requires { i < MOST_FIELDS }
    ensures { result.now ≡ field (fields_in row.now) i }
{
    match row {
        RowFields::Line(line) => line.field(i),
        RowFields::Record(record) => field_of(record, i),
    }
}

/// The name that a field is.
pub(crate) fn name_in(text: &[u8]) -> Result<Name, Why>
    ensures { NameIn text.now result }
{
    name_of(text).ok_or(Why::Name)
}

/// The name that a field is. Most often it is the recent one, which needs no check.
pub(crate) fn name_again(text: &[u8], recent: Option<&Name>) -> Result<Name, Why>
    ensures { NameIn text.now result }
{
    match recent {
        Some(name) if name.bytes() == text => Ok(*name),
        _ => name_in(text),
    }
}

/// The names that the fields from the fourth on are.
pub(crate) fn names_in(alloc: Global, row: &RowFields<'_>) -> Result<Vec<Name>, RowRefusal>
    requires { length (fields_in row.now) ≤ MOST_FIELDS }
    ensures { NamesIn (fields_in row.now) result }
{
    let mut names = Vec::new(alloc);
    for i in 3..row.len() {
        names.push(name_in(field(row, i))?)?;
    }
    Ok(names)
}

/// The number that a field writes, if it lies within these bounds.
pub(crate) fn number_in(text: &[u8], least: u32, greatest: u32) -> Result<Option<u32>, Why>
    ensures { NumberIn (text.now, least, greatest) result }
{
    match read_whole(text, u64::from(greatest)) {
        Ok(number) if u64::from(least) <= number => Ok(Some(number as u32)),
        Ok(_) | Err(NumberFault::Over) => Ok(None),
        Err(NumberFault::Off) => Err(Why::Number),
    }
}

// The seats that two fields write, if each writes a number of a leg's seats: 0 to [`nrm_model::MOST_SEATS`].
fn two_counts_in(first: &[u8], second: &[u8]) -> Result<Option<(u16, u16)>, Why>
    ensures { TwoCountsIn first.now second.now result }
{
    let one = number_in(first, 0, u32::from(MOST_SEATS))?;
    let other = number_in(second, 0, u32::from(MOST_SEATS))?;
    match (one, other) {
        (Some(one), Some(other)) => Ok(Some((one as u16, other as u16))),
        _ => Ok(None),
    }
}

/// The file's version by its first row: 1 where that has three fields, and 2 where it has four and the fourth says so.
pub(crate) fn version_of(row: &RowFields<'_>) -> Result<Option<u8>, Why>
    requires { IsInRange 3 4 (length (fields_in row.now)) }
    ensures { VersionIn (fields_in row.now) result }
{
    if row.len() == 3 {
        return Ok(Some(1));
    }
    match number_in(field(row, 3), 2, 2)? {
        Some(_) => Ok(Some(2)),
        None => Ok(None),
    }
}

/// The numbers that the row of a leg writes, in a file of this version, if each lies within its bounds.
pub(crate) fn leg_figures_in(
    alloc: Global,
    version: u8,
    row: &RowFields<'_>,
) -> Result<Option<LegFigures>, RowRefusal>
    requires version { version ≤ 2 }
    requires few { length (fields_in row.now) ≤ MOST_FIELDS }
    ensures { LegFiguresIn version (fields_in row.now) result }
{
    let from = version as usize;
    let counts = two_counts_in(field(row, 2), field(row, 1 + from))?;
    let cuts = numbers_in(alloc, row, 2 + from, 1, MOST_FARE)?;
    match (counts, cuts) {
        (Some((seats, authorised)), Some(cuts)) => Ok(Some(LegFigures {
            seats,
            authorised,
            cuts,
        })),
        _ => Ok(None),
    }
}

// The numbers that the fields from a place on write, if each lies within these bounds.
fn numbers_in(
    alloc: Global,
    row: &RowFields<'_>,
    from: usize,
    least: u32,
    greatest: u32,
) -> Result<Option<Vec<u32>>, RowRefusal>
    requires { length (fields_in row.now) ≤ MOST_FIELDS }
    ensures { NumbersIn from least greatest (fields_in row.now) result }
{
    let mut numbers = Vec::with_capacity(alloc, row.len())?;
    let mut within = true;
    for i in from..row.len() {
        match number_in(field(row, i), least, greatest)? {
            Some(number) => numbers.push(number)?,
            None => within = false,
        }
    }
    Ok(within.then_some(numbers))
}

/// Writes the seats that the fields from the fourth on write, and says whether each number is one of seats: 0 to
/// [`nrm_model::MOST_DEMAND`].
pub(crate) fn seats_in(row: &RowFields<'_>, seats: &mut [u16]) -> Result<bool, Why>
    requires places { length (fields_in row.now) ≡ 3 + length seats.old }
    requires few { length (fields_in row.now) ≤ MOST_FIELDS }
    ensures { SeatsIn (fields_in row.now) seats.new result }
{
    let mut within = true;
    for i in 0..seats.len() {
        match number_in(field(row, i + 3), 0, MOST_DEMAND)? {
            Some(count) => seats[i] = count as u16,
            None => within = false,
        }
    }
    Ok(within)
}
