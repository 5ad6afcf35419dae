// The conditions of an audit, one by one.
ghost use Rattle.std.specs.Prelude.{◌≡◌, pos, ◌-ℤ◌, map};
ghost use Rattle.tpcc_audit.specs.Books.{or_nothing, paid_in, tally_in};
ghost use Rattle.tpcc_audit.specs.Conditions as conditions;

use crate::books::paid_at;
use crate::facts::{District, DistrictRow, WarehouseRow};
use crate::findings::Audit;
use crate::tallies::{Tally, tally_at};
use std::collections::BTreeMap;

/// A condition that each district has to meet.
#[derive(Clone, Copy, Debug, PartialEq, Eq)]
pub enum Condition {
    /// The next order's number follows on the greatest one of its orders, and of its open orders.
    Numbers,
    /// The numbers of the open orders have no gap.
    Gaps,
    /// There are as many lines as the orders say.
    Lines,
}

/// The finding on two amounts that have to agree at a district.
fn compared(condition: u8, at: District, wanted: i128, found: i128) -> Audit
    ensures { result ≡ conditions.compared condition at wanted found }
{
    if wanted == found {
        return Audit::Holds;
    }
    Audit::Fails {
        condition,
        w: at.w,
        d: at.d,
        wanted,
        found,
    }
}

/// What was paid to a warehouse is what was paid to its districts.
fn amount(row: WarehouseRow, paid: i128) -> Audit
    ensures { result ≡ conditions.amount row paid }
{
    let at = District { w: row.w, d: 0 };
    compared(1, at, paid, i128::from(row.ytd))
}

/// The number, or 0 where there is none.
fn or_nothing(number: Option<i64>) -> i128
    ensures { result ≡ or_nothing number }
{
    match number {
        Some(number) => i128::from(number),
        None => 0,
    }
}

/// The number before the next order's.
fn last(row: DistrictRow) -> i128
    ensures { result ≡ row.next -ℤ pos 1 }
{
    i128::from(row.next) - 1
}

/// The finding on a number, if there is one.
fn agrees_if_any(condition: u8, at: District, wanted: i128, found: Option<i64>) -> Audit
    ensures { result ≡ conditions.agrees_if_any condition at wanted found }
{
    match found {
        Some(found) => compared(condition, at, wanted, i128::from(found)),
        None => Audit::Holds,
    }
}

/// The next order's number.
fn numbers(row: DistrictRow, tally: Tally) -> Audit
    ensures { result ≡ conditions.numbers row tally }
{
    let wanted = last(row);
    let orders = compared(2, row.at, wanted, or_nothing(tally.greatest_order));
    orders.or(agrees_if_any(2, row.at, wanted, tally.greatest_open))
}

/// How many numbers there are from the least to the greatest.
fn reach(least: i64, greatest: i64) -> i128
    ensures { result ≡ conditions.reach least greatest }
{
    i128::from(greatest) - i128::from(least) + 1
}

/// The finding on so many numbers from the least to the greatest.
fn span(at: District, count: u64, least: i64, greatest: i64) -> Audit
    ensures { result ≡ conditions.compared 3 at (conditions.reach least greatest) (pos count) }
{
    compared(3, at, reach(least, greatest), i128::from(count))
}

/// The numbers of the open orders.
fn gaps(row: DistrictRow, tally: Tally) -> Audit
    ensures { result ≡ conditions.gaps row tally }
{
    match tally.least_open {
        Some(least) => match tally.greatest_open {
            Some(greatest) => span(row.at, tally.open_count, least, greatest),
            None => Audit::Holds,
        },
        None => Audit::Holds,
    }
}

/// The finding on one condition at one district.
fn at_district(condition: Condition, row: DistrictRow, tally: Tally) -> Audit
    ensures { result ≡ conditions.at_district condition row tally }
{
    match condition {
        Condition::Numbers => numbers(row, tally),
        Condition::Gaps => gaps(row, tally),
        Condition::Lines => compared(4, row.at, tally.due, i128::from(tally.lines)),
    }
}

/// The first warehouse whose amount does not agree.
pub(crate) fn first_amount(rows: &[WarehouseRow], paid: &BTreeMap<i64, i128>) -> Audit
    ensures { result ≡ conditions.first (map (λ row. conditions.amount row (paid_in paid.now row.w)) rows.now) }
{
    for row in rows {
        let finding = amount(*row, paid_at(paid, row.w));
        if finding != Audit::Holds {
            return finding;
        }
    }
    Audit::Holds
}

/// The first district that does not meet the condition.
pub(crate) fn first_district(
    condition: Condition,
    rows: &[DistrictRow],
    tallies: &BTreeMap<District, Tally>,
) -> Audit
    ensures { result ≡ conditions.first
        (map (λ row. conditions.at_district condition row (tally_in tallies.now row.at)) rows.now) }
{
    for row in rows {
        let finding = at_district(condition, *row, tally_at(tallies, row.at));
        if finding != Audit::Holds {
            return finding;
        }
    }
    Audit::Holds
}
