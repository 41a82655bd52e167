//! The numbers of a demand row and the end of its line. They are written from the last to the first, each where it goes.
ghost use Rattle.std.specs.Prelude.{◌≡◌, ◌<◌, ◌≤◌, ◌+◌, ◌*◌, [], ◌∷◌, ◌++◌, decimal, drop, length, map};
ghost use Rattle.nrm_model.specs.Demand.{demand_row};
ghost use Rattle.nrm_model.specs.Limits.{IsNetwork};
ghost use Rattle.nrm_network.specs.Inner.RowText.{after_commas};
ghost use Rattle.nrm_network.specs.declared.numbers.TheConstants.{NUMBERS_ROOM};

use itoa::write_digits;
use nrm_model::{MOST_PERIODS, Network};

/// The most bytes that they take: a comma and three digits each, and the end of the line.
pub(crate) const NUMBERS_ROOM: usize = 4 * (MOST_PERIODS as usize + 1) + 1;

// Writes a comma and a number before a place, and gives where they start.
#[inline(always)]
fn write_number(row: &mut [u8], end: usize, number: u16) -> usize
    requires digits { number < 1000 }
    requires room { 4 ≤ end }
    requires within { end ≤ length row.old }
    ensures few { end ≤ result + 4 }
    ensures before { result < end }
    ensures written { drop result row.new ≡ 44 ∷ (decimal number ++ drop end row.old) }
{
    let start = write_digits(u64::from(number), row, end) - 1;
    row[start] = b',';
    start
}

// Writes the demand of a product in a history before a place, period by period, and gives where it starts.
fn write_seats(row: &mut [u8], end: usize, net: &Network, j: u16, h: u8) -> usize
    requires limits { IsNetwork net.now }
    requires product { j < length net.now.products }
    requires history { h < net.now.histories }
    requires room { 4 * net.now.periods ≤ end }
    requires within { end ≤ length row.old }
    ensures few { end ≤ result + 4 * net.now.periods }
    ensures before { result ≤ end }
    ensures written { drop result row.new ≡ after_commas (map decimal (demand_row net.now j h)) ++ drop end row.old }
{
    let mut start = end;
    for t in (0..net.t()).rev() {
        start = write_number(row, start, net.demand(j, h, t + 1));
    }
    start
}

/// Writes the number of a history, the demand of a product in it and the end of the line, and gives where they start.
pub(crate) fn write_numbers(row: &mut [u8; NUMBERS_ROOM], net: &Network, j: u16, h: u8) -> usize
    requires limits { IsNetwork net.now }
    requires product { j < length net.now.products }
    requires history { h < net.now.histories }
    ensures within { result ≤ NUMBERS_ROOM }
    ensures written { drop result row.new ≡ 44 ∷ (decimal (h + 1) ++ (after_commas (map decimal (demand_row net.now j h)) ++ 10 ∷ [])) }
{
    let end = NUMBERS_ROOM - 1;
    row[end] = b'\n';
    let start = write_seats(row, end, net, j, h);
    write_number(row, start, u16::from(h) + 1)
}
