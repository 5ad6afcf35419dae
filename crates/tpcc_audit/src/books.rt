// What the rows of a database come to, gathered in one pass over them.
ghost use Rattle.std.specs.Prelude.{◌≡◌, ℕ, ◌+◌, ◌*◌, ◌^◌, ℤ, [], map, if◌then◌else◌, IfOk, OnOk};
ghost use Rattle.std.specs.Ordering.{int_eq};
ghost use Rattle.std.specs.Map.Iter.{deref_pair};
ghost use Rattle.tpcc_audit.specs.Facts as facts;
ghost use Rattle.tpcc_audit.specs.Books as books;

use crate::facts::{District, DistrictRow, Fact, WarehouseRow, fact_of};
use crate::tallies::{Tally, count_line, count_open, count_order};
use aria_base::{Key, Memory, Row};
use std::alloc::Global;
use std::collections::BTreeMap;

/// The rows of warehouses and districts, and what the other rows come to for each of them.
#[derive(Drop)]
pub(crate) struct Books {
    /// The warehouses, in the order of their numbers.
    pub warehouses: Vec<WarehouseRow>,
    /// The districts, in the order of their warehouses' numbers and their own.
    pub districts: Vec<DistrictRow>,
    /// What was paid to all districts of a warehouse this year, in cents.
    pub paid: BTreeMap<i64, i128>,
    pub tallies: BTreeMap<District, Tally>,
}

/// What was paid to all districts of a warehouse.
pub(crate) fn paid_at(paid: &BTreeMap<i64, i128>, w: i64) -> i128
    ensures { result ≡ books.paid_in paid.now w }
{
    match paid.get(&w) {
        Some(sum) => *sum,
        None => 0,
    }
}

/// Sets what was paid to all districts of a warehouse.
fn set_paid(paid: &mut BTreeMap<i64, i128>, w: i64, sum: i128) -> Result<(), Memory>
    ensures { OnOk result ((q : ℤ) → books.paid_in paid.new q ≡ (if int_eq w q then sum else books.paid_in paid.old q)) }
{
    paid.insert(w, sum)?;
    Ok(())
}

/// Adds what was paid to a district of a warehouse.
fn pay(paid: &mut BTreeMap<i64, i128>, w: i64, ytd: i64) -> Result<(), Memory>
    requires { (q : ℤ) → books.IsModerate (books.paid_in paid.old q) }
    ensures paid { OnOk result ((q : ℤ) → books.paid_in paid.new q ≡ books.raised w ytd q (books.paid_in paid.old q)) }
    ensures within { OnOk result ((n : ℕ) (q : ℤ)
        → books.IsUpTo (n * 2 ^ 63) (books.paid_in paid.old q) → books.IsUpTo ((n + 1) * 2 ^ 63) (books.paid_in paid.new q)) }
{
    let sum = paid_at(paid, w) + i128::from(ytd);
    set_paid(paid, w, sum)?;
    Ok(())
}

impl Books {
    /// Books of no rows.
    fn new(alloc: Global) -> Books
        ensures { books.Keeps result [] }
    {
        Books {
            warehouses: Vec::new(alloc),
            districts: Vec::new(alloc),
            paid: BTreeMap::new(alloc),
            tallies: BTreeMap::new(alloc),
        }
    }

    /// Takes one more fact into the books.
    fn note(&mut self, fact: Fact) -> Result<(), Memory>
        requires { books.IsRoomy self.old }
        ensures noted { OnOk result (books.IsNoted self.old fact self.new) }
        ensures bounded { OnOk result ((n : ℕ) → books.IsBounded n self.old → books.IsBounded (n + 1) self.new) }
    {
        match fact {
            Fact::Warehouse(row) => {
                self.warehouses.push(row)?;
                Ok(())
            }
            Fact::District(row) => {
                self.districts.push(row)?;
                pay(&mut self.paid, row.at.w, row.ytd)?;
                Ok(())
            }
            Fact::Open { at, order } => {
                count_open(&mut self.tallies, at, order)?;
                Ok(())
            }
            Fact::Order { at, order, lines } => {
                count_order(&mut self.tallies, at, order, lines)?;
                Ok(())
            }
            Fact::Line { at } => {
                count_line(&mut self.tallies, at)?;
                Ok(())
            }
            Fact::Other => Ok(()),
        }
    }
}

/// The books of these rows.
pub(crate) fn books_of(alloc: Global, rows: &[(&Key, &Row)]) -> Result<Books, Memory>
    ensures { IfOk result (λ kept. books.Keeps kept (map facts.fact_of (map deref_pair rows.now))) }
{
    let mut kept = Books::new(alloc);
    for (key, row) in rows {
        kept.note(fact_of(key, row))?;
    }
    Ok(kept)
}
