// Nodes before the first event, and a batch that starts.
ghost use Rattle.std.specs.Prelude.{◌≡◌, ◌<◌, ◌≤◌, ◌+◌, length, IfOk, OnOk};
ghost use Rattle.aria_base.specs.Orders.{key_cmp, Cells, Database};
ghost use Rattle.aria_base.specs.declared.calls.Request.{Request as Q};
ghost use Rattle.aria_base.specs.declared.limits.TheConstants.{MOST_REQUESTS};
ghost use Rattle.batch_core.specs.Steps.{numbered};
ghost use Rattle.proc_lang.specs.declared.ends.End.{End};
ghost use Rattle.node_rules.specs.Worlds.{at_first, step, Start};
ghost use Rattle.node_rules.specs.Worlds.{World as Definition};
ghost use Rattle.node_world.specs.Worlds.{net_in, world_in, Keeps};
ghost use Rattle.node_world.specs.Steps.{IsFixed, IsReady, IsStarted};

use crate::worlds::{MOST_NODES, World};
use aria_base::{Call, Memory};
use batch_core::number_calls;
use batch_rules::verdicts::Rule;
use node_seats::{first_seats, lengthen_all};
use proc_lang::Catalog;
use std::alloc::Global;
use tbl_rows::Tables;

impl World {
    /// So many nodes that divide these rows, before the first event.
    pub fn begin(
        alloc: Global,
        catalog: Catalog,
        rows: &Tables,
        nodes: u32,
        rule: Rule,
    ) -> Result<World, Memory>
        requires nodes { (1 ≤ nodes) × (nodes ≤ MOST_NODES) }
        ensures fixed { IfOk result (λ w. (w.catalog ≡ catalog) × (w.rule ≡ rule) × (w.nodes ≡ nodes)) }
        ensures requests { IfOk result (λ w. w.requests ≡ 0) }
        ensures kept { IfOk result (λ w. Keeps rows.now w) }
        ensures world { IfOk result (λ w. world_in rows.now w ≡ at_first (net_in w) rows.now) }
    {
        let seats = first_seats(alloc, rows, nodes)?;
        Ok(World {
            catalog,
            rule,
            nodes,
            started: Vec::new(alloc),
            requests: 0,
            sent: Vec::new(alloc),
            given: Vec::new(alloc),
            seats,
        })
    }

    /// Starts a batch with these calls, which get the next request numbers.
    pub fn start(&mut self, alloc: Global, calls: Vec<Call>) -> Result<(), Memory>
        requires room { self.old.requests + length calls.items ≤ MOST_REQUESTS }
        requires ready { (start : Database) × IsReady start self.old }
        ensures fixed { OnOk result (IsFixed self.old self.new) }
        ensures stepped { OnOk result ((start : Database) → IsReady start self.old
            → Keeps start self.new × (world_in start self.new ≡ step (net_in self.old) (world_in start self.old) (Start (numbered self.old.requests calls.items)))) }
    {
        let old = self.started.len();
        self.push_batch(alloc, calls)?;
        let nodes = self.nodes as usize;
        'nodes: for n in 0..nodes {
            self.begin_batch(alloc, n, old)?;
        }
        Ok(())
    }

    /// Keeps the batch, and lengthens the lists of the nodes that come to it.
    fn push_batch(&mut self, alloc: Global, calls: Vec<Call>) -> Result<(), Memory>
        requires room { self.old.requests + length calls.items ≤ MOST_REQUESTS }
        ensures fixed { OnOk result (IsFixed self.old self.new) }
        ensures started { OnOk result ((start : Database) → IsReady start self.old
            → IsStarted start (step (net_in self.old) (world_in start self.old) (Start (numbered self.old.requests calls.items))) self.new 0
            (length self.old.started.items)) }
    {
        let old = self.started.len();
        let total = self.requests + calls.len() as u64;
        let new = number_calls(Vec::new(alloc), calls, self.requests)?;
        lengthen_all(alloc, &mut self.seats, old, &new)?;
        self.started.push(new)?;
        self.requests = total;
        Ok(())
    }

    /// A node's turn at the start of a batch, which is the one behind so many.
    fn begin_batch(&mut self, alloc: Global, n: usize, old: usize) -> Result<(), Memory>
        requires below { n < self.old.nodes }
        requires started { (start : Database) × (end : Definition key_cmp Cells Q End) × IsStarted start end self.old n old }
        ensures fixed { OnOk result (IsFixed self.old self.new) }
        ensures started { OnOk result ((start : Database) (end : Definition key_cmp Cells Q End) → IsStarted start end self.old n old
            → IsStarted start end self.new (n + 1) old) }
    {
        if self.seats[n].entries.len() < old {
            return Ok(());
        }
        let seat = &self.seats[n];
        let out = seat.first_runs(alloc, &self.catalog)?;
        self.send(out)?;
        self.go_on(alloc, n)?;
        Ok(())
    }
}
