// What a node sends.
ghost use Rattle.std.specs.Prelude.{◌≡◌, ◌<◌, ◌-◌, ◌^◌, length, ◌%◌, ◌==◌, ◌++◌, ◌∷◌, [], if◌then◌else◌, map, filter, IfOk, OnOk};
ghost use Rattle.tbl_rows.specs.Shards.{home};
ghost use Rattle.node_batch.specs.Letters.{message_of, sets_of, holders_of};
ghost use Rattle.node_batch.specs.Mails.{node_of as home_of, part_at, marks_mails, run_mails, own_mail, own_mails, leasts_mails};
ghost use Rattle.node_batch.specs.OwnRuns.{told_of};

use crate::letters::{Least, Letter, Part, Said};
use crate::own_runs::OwnRun;
use aria_base::{Changes, Duplicate, Key, Keys, Memory, Request, Row};
use proc_exec::{Outcome, Within};
use proc_lang::Catalog;
use std::alloc::Global;
use tbl_rows::shard_of;

/// A node at a batch, among so many nodes.
#[derive(Clone, Copy, Debug)]
pub struct Site {
    pub batch: u64,
    pub node: u32,
    pub nodes: u32,
}

/// The node of a key, of so many.
pub fn node_of(nodes: u32, key: &Key) -> u32
    requires { 0 < nodes }
    ensures of { result ≡ home_of nodes key.now }
    ensures below { result < nodes }
{
    u32::from(shard_of(key)) % nodes
}

/// Appends what is due of a run: that it has to be told a key, or its part at each node.
pub fn push_run(
    alloc: Global,
    site: Site,
    tid: u32,
    within: Within,
    out: &mut Vec<Letter>,
) -> Result<(), Memory>
    requires { 0 < site.nodes }
    ensures { OnOk result (map message_of out.new.items ≡ map message_of out.old.items ++ run_mails site tid within) }
{
    match within {
        Within::Moved(key) => {
            let addressee = node_of(site.nodes, &key);
            out.push(Letter {
                batch: site.batch,
                tid,
                sender: site.node,
                addressee,
                said: Said::Ask(key),
            })?;
            return Ok(());
        }
        Within::Ended(outcome) => return push_marks(alloc, site, tid, &outcome, out),
    }
}

/// Appends what is due of the runs of the node's own requests.
pub fn push_own_runs(
    alloc: Global,
    catalog: &Catalog,
    site: Site,
    list: &[Request],
    runs: &[OwnRun],
    out: &mut Vec<Letter>,
) -> Result<(), Memory>
    requires nodes { 0 < site.nodes }
    requires few { length list.now < 2 ^ 32 - 1 }
    requires runs { length runs.now ≡ length list.now }
    ensures { OnOk result (map message_of out.new.items
        ≡ map message_of out.old.items ++ own_mails catalog.now site 0 list.now (map told_of runs.now)) }
{
    for place in 0..list.len() {
        let number = place as u32;
        push_own_run(
            alloc,
            catalog,
            site,
            number,
            &list[place],
            &runs[place],
            out,
        )?;
    }
    Ok(())
}

/// Appends what is due of the run where the request is the node's own.
fn push_own_run(
    alloc: Global,
    catalog: &Catalog,
    site: Site,
    number: u32,
    request: &Request,
    run: &OwnRun,
    out: &mut Vec<Letter>,
) -> Result<(), Memory>
    requires nodes { 0 < site.nodes }
    requires few { number < 2 ^ 32 - 1 }
    ensures { OnOk result (map message_of out.new.items
        ≡ map message_of out.old.items ++ own_mail catalog.now site number request.now (told_of run.now)) }
{
    if number % site.nodes != site.node {
        return Ok(());
    }
    let within = run.next(alloc, catalog, request)?;
    push_run(alloc, site, number + 1, within, out)?;
    Ok(())
}

/// Appends the part of the outcome's sets at each node.
fn push_marks(
    alloc: Global,
    site: Site,
    tid: u32,
    outcome: &Outcome,
    out: &mut Vec<Letter>,
) -> Result<(), Memory>
    requires { 0 < site.nodes }
    ensures { OnOk result (map message_of out.new.items ≡ map message_of out.old.items ++ marks_mails site tid outcome.now) }
{
    for node in 0..site.nodes {
        let part = part_of(alloc, site.nodes, node, outcome)?;
        out.push(Letter {
            batch: site.batch,
            tid,
            sender: site.node,
            addressee: node,
            said: Said::Marks(part),
        })?;
    }
    Ok(())
}

/// Appends the least holders of each request, to the request's node.
pub fn push_leasts(site: Site, leasts: &[Least], out: &mut Vec<Letter>) -> Result<(), Memory>
    requires nodes { 0 < site.nodes }
    requires few { length leasts.now < 2 ^ 32 - 1 }
    ensures { OnOk result (map message_of out.new.items ≡ map message_of out.old.items ++ leasts_mails site 0 (map holders_of leasts.now)) }
{
    for place in 0..leasts.len() {
        let number = place as u32;
        out.push(Letter {
            batch: site.batch,
            tid: number + 1,
            sender: site.node,
            addressee: number % site.nodes,
            said: Said::Least(leasts[place]),
        })?;
    }
    Ok(())
}

/// The part of the outcome's sets at a node.
fn part_of(alloc: Global, nodes: u32, node: u32, outcome: &Outcome) -> Result<Part, Memory>
    requires { 0 < nodes }
    ensures { IfOk result (λ part. sets_of part ≡ part_at nodes node outcome.now) }
{
    Ok(Part {
        reads: reads_of(alloc, nodes, node, outcome)?,
        rows: rows_of(alloc, nodes, node, outcome)?,
    })
}

/// The keys that it read there.
fn reads_of(alloc: Global, nodes: u32, node: u32, outcome: &Outcome) -> Result<Keys, Memory>
    requires { 0 < nodes }
    ensures { IfOk result (λ keys. keys ≡ filter (λ k. home_of nodes k == node) outcome.now.reads) }
{
    let mut keys = Vec::new(alloc);
    for key in outcome.reads.as_slice() {
        if node_of(nodes, key) == node {
            keys.push(key.duplicate(alloc)?)?;
        }
    }
    Ok(Keys::from_vec(keys))
}

/// The rows that it leaves there.
fn rows_of(alloc: Global, nodes: u32, node: u32, outcome: &Outcome) -> Result<Changes, Memory>
    requires { 0 < nodes }
    ensures { IfOk result (λ rows. rows ≡ filter (λ row. home_of nodes row.0 == node) outcome.now.writes) }
{
    let mut rows = Vec::new(alloc);
    for write in outcome.writes.as_slice() {
        push_row(alloc, nodes, node, write, &mut rows)?;
    }
    Ok(Changes::from_vec(rows))
}

/// Appends a row whose key is there.
fn push_row(
    alloc: Global,
    nodes: u32,
    node: u32,
    write: &(Key, Option<Row>),
    rows: &mut Vec<(Key, Option<Row>)>,
) -> Result<(), Memory>
    requires { 0 < nodes }
    ensures { OnOk result (rows.new.items ≡ rows.old.items ++ (if home_of nodes write.now.0 == node then write.now ∷ [] else [])) }
{
    if node_of(nodes, &write.0) != node {
        return Ok(());
    }
    rows.push(write.duplicate(alloc)?)?;
    Ok(())
}
