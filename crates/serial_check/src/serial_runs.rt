// The requests of an order, run one after the other.
ghost use Rattle.std.specs.Prelude.{◌≡◌, map, IfOk, OnOk};
ghost use Rattle.std.specs.BTreeMap as tree;
ghost use Rattle.std.specs.Map.Iter.{deref};
ghost use Rattle.std.specs.Ordering.{nat_cmp};
ghost use Rattle.batch_rules.specs.Serials.{serial_map};
ghost use Rattle.batch_rules.specs.Touches.{map_after};
ghost use Rattle.batch_rules.specs.Trees.{end_of};
ghost use Rattle.proc_lang.specs.Catalogs.{run_of};
ghost use Rattle.proc_lang.specs.Meaning.{is_done};
ghost use Rattle.serial_check.specs.Runs.{end_in};

use aria_base::{Memory, Request};
use exec_phase::execute;
use proc_lang::{Catalog, End};
use std::alloc::Global;
use std::collections::BTreeMap;
use tbl_rows::Tables;
use tbl_snapshot::{Snapshot, put_changes};

/// How requests end, by their numbers.
pub(crate) type Ends = BTreeMap<u64, End>;

/// Runs these requests in place, one after the other, and tells how each ends.
pub(crate) fn run_in_order(
    alloc: Global,
    catalog: &Catalog,
    tables: &mut Tables,
    order: &[&Request],
) -> Result<Ends, Memory>
    ensures ends { IfOk result (λ ends. tree.get nat_cmp ends ≡ end_in (run_of catalog.now) tables.old (map deref order.now)) }
    ensures rows { OnOk result (tables.new ≡ serial_map is_done (run_of catalog.now) tables.old (map deref order.now)) }
{
    let mut ends = BTreeMap::new(alloc);
    for request in order {
        let end = run_request(alloc, catalog, tables, request)?;
        ends.insert(request.q, end)?;
    }
    Ok(ends)
}

/// Runs a request in place.
#[tactic(auto, using(crate::proofs::Framed::framed))]
fn run_request(
    alloc: Global,
    catalog: &Catalog,
    tables: &mut Tables,
    request: &Request,
) -> Result<End, Memory>
    ensures end { IfOk result (λ end. end ≡ end_of (run_of catalog.now request.now) tables.old) }
    ensures rows { OnOk result (tables.new ≡ map_after is_done (run_of catalog.now request.now) tables.old) }
{
    let outcome = execute(alloc, catalog, request, Snapshot::of(tables))?;
    put_changes(tables, outcome.writes)?;
    Ok(outcome.end)
}
