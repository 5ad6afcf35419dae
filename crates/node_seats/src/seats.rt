// A node with what it has of all batches.
ghost use Rattle.std.specs.Prelude.{◌≡◌, ◌<◌, ◌≤◌, ◌+◌, ◌-◌, ◌^◌, ◌++◌, ◌∷◌, [], length, map, IfOk, OnOk};
ghost use Rattle.aria_base.specs.Orders.{key_cmp, Cells};
ghost use Rattle.aria_base.specs.declared.calls.Request.{Request as Q};
ghost use Rattle.batch_rules.specs.declared.verdicts.Rule.{Rule as Way};
ghost use Rattle.node_rules.specs.Dues.{Desk};
ghost use Rattle.node_rules.specs.Newses.{desk_with, news, first_news};
ghost use Rattle.node_batch.specs.NodeBatches.{Shows, IsFresh};
ghost use Rattle.node_batch.specs.Letters.{net_of, message_of};
ghost use Rattle.node_batch.specs.Sames.{same_message};
ghost use Rattle.node_seats.specs.Nodes.{given_of};
ghost use Rattle.node_seats.specs.Seats.{IsBegun, IsLengthened, IsCompleted};

use crate::numbers::Numbers;
use aria_base::{Memory, Request};
use batch_rules::verdicts::Rule;
use node_batch::{Entry, Letter, NodeBatch, Site};
use proc_lang::Catalog;
use std::alloc::Global;
use std::mem;
use std::snapshot::Snapshot;
use tbl_rows::Tables;

/// A node: its rows with its current batch, and what became of its own requests before.
#[derive(Drop)]
pub struct Seat {
    /// Its rows, and what it keeps of its current batch.
    pub bench: NodeBatch,
    /// How many requests of its list were carried over.
    pub carried: usize,
    /// What became of its own requests in each batch that it completed.
    pub entries: Vec<Vec<Entry>>,
    /// The numbers of the messages that it keeps.
    pub given: Snapshot<Numbers>,
}

impl Seat {
    /// A node with these rows, before the first batch.
    pub fn begin(alloc: Global, site: Site, rows: Tables) -> Seat
        ensures { IsBegun site rows result }
    {
        Seat {
            bench: NodeBatch::begin(alloc, site, rows),
            carried: 0,
            entries: Vec::new(alloc),
            given: Numbers::none(),
        }
    }

    /// More requests for the batch that it comes to, where it completed so many: one that is behind is left as it is.
    pub fn lengthen(&mut self, alloc: Global, done: usize, new: &[Request]) -> Result<(), Memory>
        ensures { OnOk result (IsLengthened done new.now self.old self.new) }
    {
        if self.entries.len() < done {
            return Ok(());
        }
        self.bench.lengthen(alloc, new)?;
        Ok(())
    }

    /// A message of its batch, of which nothing was told before, is kept, and its news are appended.
    pub fn give(
        &mut self,
        alloc: Global,
        catalog: &Catalog,
        rule: Rule,
        letter: &Letter,
        number: usize,
        out: &mut Vec<Letter>,
    ) -> Result<(), Memory>
        requires nodes { (0 < self.old.bench.site.nodes) × (self.old.bench.site.nodes ≤ 2 ^ 32 - 1) }
        requires few { length self.old.bench.list.items < 2 ^ 32 - 1 }
        requires fresh { (desk : Desk key_cmp Cells Q) × Shows catalog.now rule same_message desk self.old.bench
            × IsFresh (net_of catalog.now rule self.old.bench.site.nodes same_message) desk (message_of letter.now) }
        ensures site { OnOk result (self.new.bench.site ≡ self.old.bench.site) }
        ensures same { OnOk result ((self.new.carried ≡ self.old.carried) × (self.new.entries ≡ self.old.entries)) }
        ensures given { OnOk result (given_of self.new ≡ given_of self.old ++ number ∷ []) }
        ensures shows { OnOk result ((desk : Desk key_cmp Cells Q) → Shows catalog.now rule same_message desk self.old.bench
            → IsFresh (net_of catalog.now rule self.old.bench.site.nodes same_message) desk (message_of letter.now)
            → Shows catalog.now rule same_message (desk_with (net_of catalog.now rule self.old.bench.site.nodes same_message) desk (message_of letter.now)) self.new.bench
            × (map message_of out.new.items ≡ map message_of out.old.items
            ++ news (net_of catalog.now rule self.old.bench.site.nodes same_message) desk (message_of letter.now))) }
    {
        self.bench.take(alloc, catalog, rule, letter, out)?;
        let earlier = mem::replace(&mut self.given, Numbers::none());
        self.given = Numbers::and(earlier, number);
        Ok(())
    }

    /// What the first runs of its own requests ask for or come to.
    pub fn first_runs(&self, alloc: Global, catalog: &Catalog) -> Result<Vec<Letter>, Memory>
        requires nodes { 0 < self.now.bench.site.nodes }
        requires few { length self.now.bench.list.items < 2 ^ 32 - 1 }
        requires shown { (rule : Way) × (desk : Desk key_cmp Cells Q) × Shows catalog.now rule same_message desk self.now.bench }
        ensures { IfOk result (λ out. (rule : Way) (desk : Desk key_cmp Cells Q) → Shows catalog.now rule same_message desk self.now.bench
            → map message_of out.items ≡ first_news (net_of catalog.now rule self.now.bench.site.nodes same_message) desk) }
    {
        let mut out = Vec::new(alloc);
        self.bench.first_runs(alloc, catalog, &mut out)?;
        Ok(out)
    }

    /// Completes its batch, and takes the next one with these new requests.
    pub fn complete(
        &mut self,
        alloc: Global,
        catalog: &Catalog,
        new: &[Request],
    ) -> Result<(), Memory>
        requires nodes { 0 < self.old.bench.site.nodes }
        requires few { length self.old.bench.list.items < 2 ^ 32 - 1 }
        requires batch { self.old.bench.site.batch < 2 ^ 64 - 1 }
        requires shown { (rule : Way) × (desk : Desk key_cmp Cells Q) × Shows catalog.now rule same_message desk self.old.bench }
        ensures { OnOk result ((rule : Way) (desk : Desk key_cmp Cells Q) → Shows catalog.now rule same_message desk self.old.bench
            → IsCompleted (net_of catalog.now rule self.old.bench.site.nodes same_message) desk new.now self.old self.new) }
    {
        let own = self.bench.entries(alloc, catalog)?;
        self.entries.push(own)?;
        let carried = self.bench.go_on(alloc, new)?;
        self.carried = carried;
        self.given = Numbers::none();
        Ok(())
    }
}
