//! Rows small enough to work by hand, and rows at the limit.
ghost use Rattle.std.specs.Prelude.{◌≡◌, ◌≤◌, ◌+◌, IfOk, length};
ghost use Rattle.nrm_fraction.specs.Large.{IsSmall};

use nrm_row::{Row, RowFault};
use std::alloc::{AllocError, Global};
use std::test::Fail;

// Whether a row is these numbers over this denominator, the least.
fn is_over(row: &Row, den: i64, numbers: &[i64]) -> bool {
    for col in 0..row.width() {
        if numbers.get(usize::from(col)) != Some(&row.num(col)) {
            return false;
        }
    }
    row.den() == den && usize::from(row.width()) == numbers.len()
}

// The same of some columns of a row.
fn is_part_over(row: &Row, alloc: Global, from: u16, width: u16, den: i64, numbers: &[i64]) -> bool
    requires some { 1 ≤ width }
    requires within { from + width ≤ length row.now }
{
    match row.part(alloc, from, width) {
        Ok(part) => is_over(&part, den, numbers),
        Err(_) => false,
    }
}

fn two(alloc: Global, first: i64, last: i64) -> Result<Row, AllocError>
    requires first_small { IsSmall first }
    requires last_small { IsSmall last }
    ensures { IfOk result (λ row. length row ≡ 2) }
{
    Row::of(alloc, 2, &[(0, first), (1, last)])
}

fn four(alloc: Global, first: i64, second: i64, third: i64, last: i64) -> Result<Row, AllocError>
    requires first_small { IsSmall first }
    requires second_small { IsSmall second }
    requires third_small { IsSmall third }
    requires last_small { IsSmall last }
    ensures { IfOk result (λ row. length row ≡ 4) }
{
    Row::of(alloc, 4, &[(0, first), (1, second), (2, third), (3, last)])
}

#[test]
#[tactic(auto, using(nrm_fraction::proofs::Tests::less_true))]
fn is_combined_with_a_unit_row(rt: HostRuntime) -> Result<(), Fail> {
    let row = four(rt.alloc(), 2, 4, 0, 6)?;
    assert!(rt; row.is_positive(0));
    assert!(rt; row.is_nought(2) && !row.is_nought(0) && !row.is_negative(0));
    let mut combined = four(rt.alloc(), 1, 1, 1, 5)?;
    assert!(rt; combined.is_positive(0));
    assert!(rt; row.less_ratio(&combined, 0, 1));
    let unit = row.unit(rt.alloc(), 0)?;
    assert_eq!(rt; unit.entries(), [(0, 1), (1, 2), (3, 3)].as_slice());
    assert!(rt; combined.combine(rt.alloc(), &unit, 0).is_ok());
    assert!(rt; is_over(&combined, 1, &[0, -1, 1, 2]));
    assert!(rt; is_over(&unit.into_row(), 1, &[1, 2, 0, 3]));
    Ok(())
}

#[test]
#[tactic(auto, using(nrm_fraction::proofs::Tests::less_true))]
fn tells_least_denominators(rt: HostRuntime) -> Result<(), Fail> {
    let row = four(rt.alloc(), 3, 1, 2, 6)?;
    assert!(rt; row.is_positive(0));
    let unit = row.unit(rt.alloc(), 0)?;
    let mut thirds = four(rt.alloc(), 2, 5, 7, 1)?;
    assert!(rt; thirds.combine(rt.alloc(), &unit, 0).is_ok());
    assert!(rt; is_over(&thirds, 3, &[0, 13, 17, -9]));
    let mut nothing = row;
    assert!(rt; nothing.combine(rt.alloc(), &unit, 0).is_ok());
    assert_eq!(rt; nothing.den(), 1);
    assert_eq!(rt; unit.into_row().den(), 3);
    Ok(())
}

#[test]
#[tactic(auto, using(nrm_fraction::proofs::Tests::less_true))]
fn takes_a_part_in_its_own_lowest_terms(rt: HostRuntime) -> Result<(), Fail> {
    let row = four(rt.alloc(), 6, 1, 2, 3)?;
    assert!(rt; row.is_positive(0));
    let sixths = row.unit(rt.alloc(), 0)?.into_row();
    assert_eq!(rt; sixths.den(), 6);
    assert!(rt; is_part_over(&sixths, rt.alloc(), 1, 2, 6, &[1, 2]));
    assert!(rt; is_part_over(&sixths, rt.alloc(), 2, 1, 3, &[1]));
    assert!(rt; is_part_over(&sixths, rt.alloc(), 0, 4, 6, &[6, 1, 2, 3]));
    Ok(())
}

#[test]
#[tactic(auto, using(nrm_fraction::proofs::Tests::less_true))]
fn is_large_at_the_limit(rt: HostRuntime) -> Result<(), Fail> {
    let row = two(rt.alloc(), 1, -1)?;
    assert!(rt; row.is_positive(0));
    let unit = row.unit(rt.alloc(), 0)?;
    let mut below = two(rt.alloc(), 1, 281_474_976_710_654)?;
    assert!(rt; below.combine(rt.alloc(), &unit, 0).is_ok());
    assert!(rt; is_over(&below, 1, &[0, 281_474_976_710_655]));
    let mut at = two(rt.alloc(), 1, 281_474_976_710_655)?;
    match at.combine(rt.alloc(), &unit, 0) {
        Err(RowFault::Large { number }) => assert_eq!(rt; number, 281_474_976_710_656),
        _ => assert!(rt; false, "the row is Large"),
    }
    assert_eq!(rt; at.num(0), 1);
    Ok(())
}

#[test]
#[tactic(auto, using(nrm_fraction::proofs::Tests::less_true))]
fn ratios_tie_first(rt: HostRuntime) -> Result<(), Fail> {
    let row = four(rt.alloc(), 2, 4, 0, 6)?;
    let other = four(rt.alloc(), 1, 1, 1, 3)?;
    assert!(rt; row.is_positive(0));
    assert!(rt; other.is_positive(0));
    assert!(rt; other.less_ratio(&row, 0, 1));
    assert!(rt; !row.less_ratio(&other, 0, 1));
    Ok(())
}
