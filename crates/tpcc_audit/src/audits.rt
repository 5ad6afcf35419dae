// The audit of tables.
ghost use Rattle.std.specs.Prelude.{◌≡◌, List, IfOk};
ghost use Rattle.tpcc_audit.specs.declared.facts.Fact.{Fact as Told};
ghost use Rattle.tpcc_audit.specs.Books.{Keeps};
ghost use Rattle.tpcc_audit.specs.Conditions.{finding, audited};

use crate::books::{Books, books_of};
use crate::conditions::{Condition, first_amount, first_district};
use crate::findings::Audit;
use aria_base::Memory;
use std::alloc::Global;
use tbl_rows::Tables;

/// Whether the amounts and numbers in tables of the catalogue `tpcc` agree, or where they first do not:
/// at the least condition, of those at the least warehouse, and there at the least district. It goes
/// over the rows once, in the order of their keys, and asks memory for that list and for some numbers
/// of each warehouse and district. In tables that do not fit the catalogue a part of a key or a column
/// that is no number counts as 0.
pub fn audit(alloc: Global, tables: &Tables) -> Result<Audit, Memory>
    ensures { IfOk result (λ found. found ≡ audited tables.now) }
{
    let rows = tables.rows()?;
    let kept = books_of(alloc, &rows)?;
    Ok(finding(&kept))
}

/// The finding on books that are kept of some rows.
fn finding(kept: &Books) -> Audit
    ensures { (told : List Told) → Keeps kept.now told → result ≡ finding told }
{
    let districts = &kept.districts;
    let tallies = &kept.tallies;
    first_amount(&kept.warehouses, &kept.paid)
        .or(first_district(Condition::Numbers, districts, tallies))
        .or(first_district(Condition::Gaps, districts, tallies))
        .or(first_district(Condition::Lines, districts, tallies))
}
