// The rows of a database at one node.
ghost use Rattle.std.specs.Prelude.{◌≡◌, ◌<◌, ◌==◌, map, OnOk};
ghost use Rattle.std.specs.FinMap as fin;
ghost use Rattle.std.specs.Map.Iter.{deref_pair};
ghost use Rattle.node_batch.specs.Mails.{node_of as home_of};
ghost use Rattle.node_seats.specs.RowsAt.{put_one, put_all};

use aria_base::{Duplicate, Key, Memory, Row};
use node_batch::node_of;
use std::alloc::Global;
use tbl_rows::Tables;

/// Puts copies of the rows whose keys are at a node, of so many.
pub fn put_rows_at(
    alloc: Global,
    into: &mut Tables,
    from: &Tables,
    nodes: u32,
    node: u32,
) -> Result<(), Memory>
    requires { 0 < nodes }
    ensures { OnOk result (into.new ≡ put_all (λ k. home_of nodes k == node) into.old (fin.entries from.now)) }
{
    let rows = from.rows()?;
    put_each(alloc, into, &rows, nodes, node)?;
    Ok(())
}

/// Puts copies of those among these rows whose keys are at a node. Of a key that stands twice the first one counts.
pub(crate) fn put_each(
    alloc: Global,
    into: &mut Tables,
    rows: &[(&Key, &Row)],
    nodes: u32,
    node: u32,
) -> Result<(), Memory>
    requires { 0 < nodes }
    ensures { OnOk result (into.new ≡ put_all (λ k. home_of nodes k == node) into.old (map deref_pair rows.now)) }
{
    let mut place = rows.len();
    'rows: while place > 0 {
        place -= 1;
        let (key, row) = rows[place];
        put_at(alloc, into, key, row, nodes, node)?;
    }
    Ok(())
}

/// Puts a copy of the row where its key is at the node.
fn put_at(
    alloc: Global,
    into: &mut Tables,
    key: &Key,
    row: &Row,
    nodes: u32,
    node: u32,
) -> Result<(), Memory>
    requires { 0 < nodes }
    ensures { OnOk result (into.new ≡ put_one (λ k. home_of nodes k == node) into.old (key.now, row.now)) }
{
    if node_of(nodes, key) != node {
        return Ok(());
    }
    into.put(key.duplicate(alloc)?, row.duplicate(alloc)?)?;
    Ok(())
}
