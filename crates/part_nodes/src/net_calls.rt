// The calls of nodes.
ghost use Rattle.std.specs.Prelude.{◌≡◌, ◌<◌, ◌≤◌, ◌+◌, ◌-◌, ◌==◌, ◌||◌, not, if◌then◌else◌, ℕ, length, slice_get, None, Some, true, false, IfOk, IfErr};
ghost use Rattle.std.specs.Option.{option_map};
ghost use Rattle.aria_base.specs.declared.limits.TheConstants.{MOST_REQUESTS};
ghost use Rattle.batch_core.specs.Steps.{answer, list_of, numbered};
ghost use Rattle.batch_core.specs.Serial.{IsSerialAnswer};
ghost use Rattle.node_rules.specs.Worlds.{at_first, step, Start, Deliver, is_behind};
ghost use Rattle.proc_lang.specs.Catalogs.{run_of};
ghost use Rattle.batch_core.specs.declared.answers.Answer.{Answer as A};
ghost use Rattle.part_nodes.specs.Asked.{HasRoom, calls_of, event_of, is_past, state_in, handed_in};
ghost use Rattle.node_world.specs.Worlds.{all_past, AreLevel};
ghost use Rattle.part_nodes.specs.Databases.{IsOneDatabase};
ghost use Rattle.node_world.specs.Worlds.{net_in, world_in, done_in};
ghost use Rattle.part_nodes.specs.Ready.{AreReady};
ghost use Rattle.part_nodes.specs.Settling.{Settles};
ghost use Rattle.node_world.specs.Steps.{IsFixed};
ghost use Rattle.part_nodes.specs.declared.events.NodesRefused.TheVariants as refused;
ghost use Rattle.node_world.specs.declared.worlds.TheConstants.{MOST_NODES};

use crate::events::{NetEvent, NodesRefused};
use crate::nodes::Nodes;
use aria_base::{Call, Memory};
use batch_core::Answer;
use batch_rules::verdicts::Rule;
use node_answers::{answer_of, merged};
use node_world::World;
use proc_lang::Catalog;
use std::alloc::Global;
use std::snapshot::Snapshot;
use tbl_rows::Tables;

impl Nodes {
    /// So many nodes, from 1 to 8, that divide these rows, before the first event.
    pub fn begin(
        alloc: Global,
        catalog: Catalog,
        tables: Tables,
        nodes: u32,
        rule: Rule,
    ) -> Result<Nodes, Memory>
        requires { (1 ≤ nodes) × (nodes ≤ MOST_NODES) }
        ensures fixed { IfOk result (λ n. (n.world.catalog ≡ catalog) × (n.world.rule ≡ rule) × (n.world.nodes ≡ nodes)) }
        ensures start { IfOk result (λ n. n.start.value ≡ tables) }
        ensures requests { IfOk result (λ n. n.world.requests ≡ 0) }
        ensures world { IfOk result (λ n. world_in n.start.value n.world ≡ at_first (net_in n.world) tables) }
        ensures ready { IfOk result (λ n. AreReady n) }
    {
        let world = World::begin(alloc, catalog, &tables, nodes, rule)?;
        Ok(Nodes {
            world,
            settled: 0,
            start: Snapshot::of(&tables),
            alloc,
        })
    }

    /// What one event makes of the nodes. A started batch has the calls as its new requests, with the next request numbers; all calls
    /// that are started are at most 10,000. A message may be delivered at any time and as often as wanted. An error: no message has that
    /// number, or there was no memory. The nodes are gone then.
    pub fn step(self, event: NetEvent) -> Result<Nodes, NodesRefused>
        requires room { HasRoom self.world.requests event }
        requires ready { AreReady self }
        ensures fixed { IfOk result (λ n. IsFixed self.world n.world) }
        ensures start { IfOk result (λ n. n.start.value ≡ self.start.value) }
        ensures requests { IfOk result (λ n. n.world.requests ≡ self.world.requests + calls_of event) }
        ensures stepped { IfOk result (λ n. world_in n.start.value n.world
            ≡ step (net_in self.world) (world_in self.start.value self.world) (event_of self.world.requests event)) }
        ensures ready { IfOk result (λ n. AreReady n) }
        ensures not_sent { is_past self.world event ≡ true → result ≡ Err (refused.NotSent (length self.world.sent.items)) }
        ensures memory { is_past self.world event ≡ false → IfErr result (λ r. r ≡ refused.Memory) }
    {
        match event {
            NetEvent::Start(calls) => {
                let nodes = self.start(calls)?;
                return Ok(nodes);
            }
            NetEvent::Deliver(k) => {
                let sent = self.sent();
                if sent <= k {
                    return Err(NodesRefused::NotSent { sent });
                }
                let nodes = self.deliver(k)?;
                return Ok(nodes);
            }
        }
    }

    /// Delivers all messages in the order of their sending, again and again, until every node has completed every started batch.
    /// Those that had been sent when it last ended would change nothing, and are passed over. An error: there was no memory, and the
    /// nodes are gone.
    pub fn settle(self) -> Result<Nodes, Memory>
        requires ready { AreReady self }
        ensures fixed { IfOk result (λ n. IsFixed self.world n.world) }
        ensures start { IfOk result (λ n. n.start.value ≡ self.start.value) }
        ensures requests { IfOk result (λ n. n.world.requests ≡ self.world.requests) }
        ensures settled { IfOk result (λ n. Settles (net_in self.world) self.start.value (world_in self.start.value self.world)
            (world_in n.start.value n.world)) }
        ensures done { IfOk result (λ n. (node : ℕ) → node < n.world.nodes → done_in n.world node ≡ length n.world.started.items) }
        ensures level { IfOk result (λ n. AreLevel n.world) }
        ensures ready { IfOk result (λ n. AreReady n) }
    {
        let mut nodes = self;
        'passes: while nodes.is_behind() {
            // Those before are of batches that their nodes have completed: they would drop them.
            'each: for k in nodes.settled..nodes.sent() {
                nodes = nodes.deliver(k)?;
            }
        }
        nodes.settled = nodes.sent();
        Ok(nodes)
    }

    /// How many batches the node has completed. No memory.
    pub fn done(&self, node: u32) -> u64
        requires below { node < self.now.world.nodes }
        requires ready { AreReady self.now }
        ensures done { result ≡ done_in self.now.world node }
        ensures node { result ≡ ((world_in self.now.start.value self.now.world).node node).done }
    {
        self.world.seats[node as usize].entries.len() as u64
    }

    /// How many nodes there are. No memory.
    pub fn nodes(&self) -> u32
        ensures { result ≡ self.now.world.nodes }
    {
        self.world.nodes
    }

    /// How many messages were sent. No memory.
    pub fn sent(&self) -> u64
        ensures count { result ≡ length self.now.world.sent.items }
        ensures sent { result ≡ length (world_in self.now.start.value self.now.world).sent }
    {
        self.world.sent.len() as u64
    }

    /// The node that the message with this number, from 0, is for. None where no message has it. No memory.
    pub fn addressee(&self, k: u64) -> Option<u32>
        ensures { result ≡ option_map (λ m. m.addressee) (slice_get (world_in self.now.start.value self.now.world).sent k) }
    {
        match self.world.sent.get(k as usize) {
            Some(letter) => Some(letter.addressee),
            None => None,
        }
    }

    /// How many calls were started. No memory.
    pub fn requests(&self) -> u64
        ensures { result ≡ self.now.world.requests }
    {
        self.world.requests
    }

    /// How many batches were started. No memory.
    pub fn batches(&self) -> u64
        ensures { result ≡ length self.now.world.started.items }
    {
        self.world.started.len() as u64
    }

    /// How many requests the first node carries; so many wait at each one that has completed the same batches. No memory.
    pub fn waiting(&self) -> u64
        requires ready { AreReady self.now }
        ensures { result ≡ length (state_in self.now.start.value self.now.world (done_in self.now.world 0)).waiting }
    {
        self.world.seats[0].carried as u64
    }

    /// The answer of the batch with this number, from 1: that of one database. None where some node has not completed it, or the number
    /// is 0. An error: there was no memory.
    pub fn answer(&self, batch: u64) -> Result<Option<Answer>, Memory>
        requires ready { AreReady self.now }
        ensures answer { IfOk result (λ a. a ≡ (if (batch == 0) || not (all_past self.now.world batch) then None
            else Some (answer (run_of self.now.world.catalog) (state_in self.now.start.value self.now.world (batch - 1))
            (handed_in self.now.start.value self.now.world (batch - 1))))) }
        ensures serial { IfOk result (λ a. (x : A) → a ≡ Some x
            → IsSerialAnswer (run_of self.now.world.catalog) (state_in self.now.start.value self.now.world (batch - 1)).rows
            (list_of (state_in self.now.start.value self.now.world (batch - 1)) (handed_in self.now.start.value self.now.world (batch - 1))) x
            (state_in self.now.start.value self.now.world batch)) }
    {
        if batch == 0 {
            return Ok(None);
        }
        if !self.world.is_past(batch) {
            return Ok(None);
        }
        let entries = merged(self.alloc, &self.world.seats, batch as usize - 1)?;
        let answer = answer_of(self.alloc, batch, &entries)?;
        Ok(Some(answer))
    }

    /// The rows of all nodes, which have completed the same batches. An error: there was no memory.
    pub fn tables(&self) -> Result<Tables, Memory>
        requires level { AreLevel self.now.world }
        requires ready { AreReady self.now }
        ensures { IfOk result (λ rows. rows ≡ (state_in self.now.start.value self.now.world (done_in self.now.world 0)).rows) }
    {
        let rows = self.world.tables(self.alloc)?;
        Ok(rows)
    }

    /// Does nothing: a caller knows behind it what is true of all nodes at any time.
    pub fn ready(&self)
        requires ready { AreReady self.now }
        ensures { IsOneDatabase self.now.start.value self.now.world }
    {
        let _ = &self.world;
    }

    /// Starts a batch with these calls.
    fn start(self, calls: Vec<Call>) -> Result<Nodes, Memory>
        requires ready { AreReady self }
        requires room { self.world.requests + length calls.items ≤ MOST_REQUESTS }
        ensures fixed { IfOk result (λ n. IsFixed self.world n.world) }
        ensures start { IfOk result (λ n. n.start.value ≡ self.start.value) }
        ensures requests { IfOk result (λ n. n.world.requests ≡ self.world.requests + length calls.items) }
        ensures stepped { IfOk result (λ n. world_in n.start.value n.world
            ≡ step (net_in self.world) (world_in self.start.value self.world) (Start (numbered self.world.requests calls.items))) }
        ensures ready { IfOk result (λ n. AreReady n) }
    {
        let Nodes {
            world,
            settled,
            start,
            alloc,
        } = self;
        let mut world = world;
        world.start(alloc, calls)?;
        Ok(Nodes {
            world,
            settled,
            start,
            alloc,
        })
    }

    /// Delivers a message, where one has this number.
    fn deliver(self, k: u64) -> Result<Nodes, Memory>
        requires ready { AreReady self }
        ensures fixed { IfOk result (λ n. IsFixed self.world n.world) }
        ensures start { IfOk result (λ n. n.start.value ≡ self.start.value) }
        ensures requests { IfOk result (λ n. n.world.requests ≡ self.world.requests) }
        ensures stepped { IfOk result (λ n. world_in n.start.value n.world
            ≡ step (net_in self.world) (world_in self.start.value self.world) (Deliver k)) }
        ensures ready { IfOk result (λ n. AreReady n) }
    {
        if self.sent() <= k {
            return Ok(self);
        }
        let Nodes {
            world,
            settled,
            start,
            alloc,
        } = self;
        let mut world = world;
        world.deliver(alloc, k as usize)?;
        Ok(Nodes {
            world,
            settled,
            start,
            alloc,
        })
    }

    /// Whether a node has not completed all that was started.
    fn is_behind(&self) -> bool
        requires ready { AreReady self.now }
        ensures { result ≡ is_behind (net_in self.now.world) (world_in self.now.start.value self.now.world) }
    {
        self.world.is_behind()
    }
}
