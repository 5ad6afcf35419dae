// What the rows of a district come to.
ghost use Rattle.std.specs.Prelude.{◌≡◌, ℕ, ◌+◌, OnOk};
ghost use Rattle.tpcc_audit.specs.declared.facts.District.{District as Place};
ghost use Rattle.tpcc_audit.specs.Books as books;

use crate::facts::District;
use aria_base::Memory;
use std::collections::BTreeMap;

/// What the orders of a district, those that are open, and the lines of all of them come to.
#[derive(Clone, Copy, Debug, PartialEq, Eq)]
pub struct Tally {
    /// The greatest number of an order.
    pub greatest_order: Option<i64>,
    /// The greatest number of an open order.
    pub greatest_open: Option<i64>,
    /// The least number of an open order.
    pub least_open: Option<i64>,
    /// How many orders are open.
    pub open_count: u64,
    /// How many lines the orders say that they have.
    pub due: i128,
    /// How many lines there are.
    pub lines: u64,
}

/// The tally of a district.
pub(crate) fn tally_at(tallies: &BTreeMap<District, Tally>, at: District) -> Tally
    ensures { result ≡ books.tally_in tallies.now at }
{
    match tallies.get(&at) {
        Some(tally) => *tally,
        None => Tally {
            greatest_order: None,
            greatest_open: None,
            least_open: None,
            open_count: 0,
            due: 0,
            lines: 0,
        },
    }
}

/// The greater one of a number and of what was the greatest so far.
fn greater(so_far: Option<i64>, number: i64) -> Option<i64>
    ensures { result ≡ books.greater so_far number }
{
    match so_far {
        Some(greatest) => Some(greatest.max(number)),
        None => Some(number),
    }
}

/// The lesser one of a number and of what was the least so far.
fn lesser(so_far: Option<i64>, number: i64) -> Option<i64>
    ensures { result ≡ books.lesser so_far number }
{
    match so_far {
        Some(least) => Some(least.min(number)),
        None => Some(number),
    }
}

/// A tally with one more order of this number and of so many lines.
fn with_order(tally: Tally, order: i64, lines: i64) -> Tally
    requires { books.HasRoom tally }
    ensures { result ≡ books.with_order tally order lines }
{
    Tally {
        greatest_order: greater(tally.greatest_order, order),
        due: tally.due + i128::from(lines),
        ..tally
    }
}

/// A tally with one more open order of this number.
fn with_open(tally: Tally, order: i64) -> Tally
    requires { books.HasRoom tally }
    ensures { result ≡ books.with_open tally order }
{
    Tally {
        greatest_open: greater(tally.greatest_open, order),
        least_open: lesser(tally.least_open, order),
        open_count: tally.open_count + 1,
        ..tally
    }
}

/// A tally with one more line.
fn with_line(tally: Tally) -> Tally
    requires { books.HasRoom tally }
    ensures { result ≡ books.with_line tally }
{
    Tally {
        lines: tally.lines + 1,
        ..tally
    }
}

/// Sets the tally of a district.
fn set(tallies: &mut BTreeMap<District, Tally>, at: District, tally: Tally) -> Result<(), Memory>
    ensures { OnOk result ((q : Place) → books.tally_in tallies.new q ≡ books.set_at at tally q (books.tally_in tallies.old q)) }
{
    tallies.insert(at, tally)?;
    Ok(())
}

/// Counts an order of a district, which says that it has so many lines.
pub(crate) fn count_order(
    tallies: &mut BTreeMap<District, Tally>,
    at: District,
    order: i64,
    lines: i64,
) -> Result<(), Memory>
    requires { (q : Place) → books.HasRoom (books.tally_in tallies.old q) }
    ensures tallies { OnOk result ((q : Place) → books.tally_in tallies.new q
        ≡ books.set_at at (books.with_order (books.tally_in tallies.old q) order lines) q (books.tally_in tallies.old q)) }
    ensures within { OnOk result ((n : ℕ) (q : Place)
        → books.IsWithin n (books.tally_in tallies.old q) → books.IsWithin (n + 1) (books.tally_in tallies.new q)) }
{
    let tally = tally_at(tallies, at);
    set(tallies, at, with_order(tally, order, lines))?;
    Ok(())
}

/// Counts an open order of a district.
pub(crate) fn count_open(
    tallies: &mut BTreeMap<District, Tally>,
    at: District,
    order: i64,
) -> Result<(), Memory>
    requires { (q : Place) → books.HasRoom (books.tally_in tallies.old q) }
    ensures tallies { OnOk result ((q : Place) → books.tally_in tallies.new q
        ≡ books.set_at at (books.with_open (books.tally_in tallies.old q) order) q (books.tally_in tallies.old q)) }
    ensures within { OnOk result ((n : ℕ) (q : Place)
        → books.IsWithin n (books.tally_in tallies.old q) → books.IsWithin (n + 1) (books.tally_in tallies.new q)) }
{
    let tally = tally_at(tallies, at);
    set(tallies, at, with_open(tally, order))?;
    Ok(())
}

/// Counts a line of an order of a district.
pub(crate) fn count_line(
    tallies: &mut BTreeMap<District, Tally>,
    at: District,
) -> Result<(), Memory>
    requires { (q : Place) → books.HasRoom (books.tally_in tallies.old q) }
    ensures tallies { OnOk result ((q : Place) → books.tally_in tallies.new q
        ≡ books.set_at at (books.with_line (books.tally_in tallies.old q)) q (books.tally_in tallies.old q)) }
    ensures within { OnOk result ((n : ℕ) (q : Place)
        → books.IsWithin n (books.tally_in tallies.old q) → books.IsWithin (n + 1) (books.tally_in tallies.new q)) }
{
    let tally = tally_at(tallies, at);
    set(tallies, at, with_line(tally))?;
    Ok(())
}
