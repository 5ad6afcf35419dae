// The nodes with all messages, and what the delivery of one does to them.
ghost use Rattle.std.specs.Prelude.{◌≡◌, ◌<◌, ◌+◌, ◌++◌, ◌&&◌, length, replicate, nat_lt, true, false, slice_get, Some, OnOk};
ghost use Rattle.aria_base.specs.Orders.{key_cmp, Cells, Database};
ghost use Rattle.aria_base.specs.declared.calls.Request.{Request as Q};
ghost use Rattle.proc_lang.specs.declared.ends.End.{End};
ghost use Rattle.node_rules.specs.Dues.{is_over};
ghost use Rattle.node_rules.specs.Worlds.{desk_of, step, Deliver};
ghost use Rattle.node_rules.specs.Worlds.{World as Definition};
ghost use Rattle.node_batch.specs.declared.letters.Letter.{Letter as Mail};
ghost use Rattle.node_world.specs.Worlds.{net_in, world_in, done_in, Keeps};
ghost use Rattle.node_world.specs.Steps.{IsFixed, IsReady, IsNew, IsOld, IsOn, IsDone};

use aria_base::{Memory, Request};
use batch_rules::verdicts::Rule;
use node_batch::Letter;
use node_seats::Seat;
use proc_lang::Catalog;
use std::alloc::Global;

/// The most nodes; the fewest are 1.
pub const MOST_NODES: u32 = 8;

/// What is fixed, the batches that were started, all messages ever sent, and the nodes.
#[derive(Drop)]
pub struct World {
    /// What the requests call.
    pub catalog: Catalog,
    /// The rule of the commit phase.
    pub rule: Rule,
    /// How many nodes there are.
    pub nodes: u32,
    /// The new requests of each batch.
    pub started: Vec<Vec<Request>>,
    /// How many these are.
    pub requests: u64,
    /// All messages, in the order in which they were sent.
    pub sent: Vec<Letter>,
    /// Of each whether it was given to its node while its batch was the node's.
    pub given: Vec<bool>,
    /// The nodes.
    pub seats: Vec<Seat>,
}

impl World {
    /// Delivers a message.
    pub fn deliver(&mut self, alloc: Global, k: usize) -> Result<(), Memory>
        requires sent { k < length self.old.sent.items }
        requires ready { (start : Database) × IsReady start self.old }
        ensures fixed { OnOk result (IsFixed self.old self.new) }
        ensures stepped { OnOk result ((start : Database) → IsReady start self.old
            → Keeps start self.new × (world_in start self.new ≡ step (net_in self.old) (world_in start self.old) (Deliver k))) }
    {
        if !self.is_new(k) {
            return Ok(());
        }
        let to = self.sent[k].addressee as usize;
        self.give(alloc, k, to)?;
        self.go_on(alloc, to)?;
        Ok(())
    }

    /// Whether the message is of its node's batch, and was not given to it before.
    fn is_new(&self, k: usize) -> bool
        requires sent { k < length self.now.sent.items }
        requires ready { (start : Database) × IsReady start self.now }
        ensures new { result ≡ true → IsNew k self.now }
        ensures old { result ≡ false → IsOld k self.now }
    {
        if self.given[k] {
            return false;
        }
        let letter = &self.sent[k];
        let to = letter.addressee as usize;
        letter.batch == self.seats[to].bench.site.batch
    }

    /// A message is given for the first time: its node keeps it, and sends its news.
    fn give(&mut self, alloc: Global, k: usize, to: usize) -> Result<(), Memory>
        requires sent { k < length self.old.sent.items }
        requires ready { (start : Database) × IsReady start self.old }
        requires new { IsNew k self.old }
        requires to { (l : Mail) → slice_get self.old.sent.items k ≡ Some l → l.addressee ≡ to }
        ensures fixed { OnOk result (IsFixed self.old self.new) }
        ensures on { OnOk result ((start : Database) → IsReady start self.old
            → IsOn start (step (net_in self.old) (world_in start self.old) (Deliver k)) self.new to) }
    {
        let mut out = Vec::new(alloc);
        let seat = &mut self.seats[to];
        seat.give(alloc, &self.catalog, self.rule, &self.sent[k], k, &mut out)?;
        self.given[k] = true;
        self.send(out)?;
        Ok(())
    }

    /// Appends messages, which were given to nobody.
    pub fn send(&mut self, out: Vec<Letter>) -> Result<(), Memory>
        ensures fixed { OnOk result (IsFixed self.old self.new) }
        ensures rest { OnOk result ((self.new.started ≡ self.old.started) × (self.new.requests ≡ self.old.requests) × (self.new.seats ≡ self.old.seats)) }
        ensures sent { OnOk result (self.new.sent.items ≡ self.old.sent.items ++ out.items) }
        ensures given { OnOk result (self.new.given.items ≡ self.old.given.items ++ replicate (length out.items) false) }
    {
        let mut out = out;
        let many = out.len();
        self.sent.append(&mut out)?;
        push_flags(&mut self.given, many)?;
        Ok(())
    }

    /// A node goes on from batch to batch, as long as each is over.
    pub fn go_on(&mut self, alloc: Global, n: usize) -> Result<(), Memory>
        requires on { (start : Database) × (end : Definition key_cmp Cells Q End) × IsOn start end self.old n }
        ensures fixed { OnOk result (IsFixed self.old self.new) }
        ensures kept { OnOk result ((start : Database) (end : Definition key_cmp Cells Q End) → IsOn start end self.old n
            → Keeps start self.new × (world_in start self.new ≡ end)) }
    {
        'batches: while self.is_over(n) {
            self.next_batch(alloc, n)?;
        }
        Ok(())
    }

    /// Whether the node's batch was started, and it was told all fates.
    fn is_over(&self, n: usize) -> bool
        requires kept { (start : Database) × Keeps start self.now }
        requires below { n < self.now.nodes }
        ensures { (start : Database) → Keeps start self.now
            → result ≡ (nat_lt ((world_in start self.now).node n).done (length (world_in start self.now).started)
            && is_over (net_in self.now) (desk_of (net_in self.now) (world_in start self.now) n)) }
    {
        let seat = &self.seats[n];
        if self.started.len() <= seat.entries.len() {
            return false;
        }
        seat.bench.is_over()
    }

    /// A node completes its batch, and sends the first runs of the next one where that was started.
    fn next_batch(&mut self, alloc: Global, n: usize) -> Result<(), Memory>
        requires on { (start : Database) × (end : Definition key_cmp Cells Q End) × IsOn start end self.old n × IsDone start self.old n }
        ensures fixed { OnOk result (IsFixed self.old self.new) }
        ensures started { OnOk result (self.new.started ≡ self.old.started) }
        ensures more { OnOk result (done_in self.new n ≡ done_in self.old n + 1) }
        ensures on { OnOk result ((start : Database) (end : Definition key_cmp Cells Q End) → IsOn start end self.old n → IsDone start self.old n
            → IsOn start end self.new n) }
    {
        let next = self.seats[n].entries.len() + 1;
        if next < self.started.len() {
            let seat = &mut self.seats[n];
            seat.complete(alloc, &self.catalog, &self.started[next])?;
            let out = seat.first_runs(alloc, &self.catalog)?;
            self.send(out)?;
            return Ok(());
        }
        let none = Vec::new(alloc);
        let seat = &mut self.seats[n];
        seat.complete(alloc, &self.catalog, &none)?;
        Ok(())
    }
}

/// Appends so many flags that are not set.
fn push_flags(flags: &mut Vec<bool>, many: usize) -> Result<(), Memory>
    ensures { OnOk result (flags.new.items ≡ flags.old.items ++ replicate many false) }
{
    for _ in 0..many {
        flags.push(false)?;
    }
    Ok(())
}
