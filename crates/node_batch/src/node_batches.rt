// A node at its current batch.
ghost use Rattle.std.specs.Prelude.{◌≡◌, ◌<◌, ◌≤◌, ◌+◌, ◌-◌, ◌^◌, ◌++◌, ℕ, [], None, length, slice_index_or, map, IfOk, OnOk};
ghost use Rattle.aria_base.specs.Orders.{key_cmp, Cells};
ghost use Rattle.aria_base.specs.declared.calls.Request.{Request as Q};
ghost use Rattle.aria_base.specs.declared.keys.Key.{Key as Name};
ghost use Rattle.batch_rules.specs.declared.verdicts.Rule.{Rule as Way};
ghost use Rattle.proc_lang.specs.Catalogs.{Plan};
ghost use Rattle.node_rules.specs.Dues.{Desk, marks_of, holders_from, fate_of, is_over};
ghost use Rattle.node_rules.specs.Messages.{Message, Ask, Told, Marks, Fate};
ghost use Rattle.node_rules.specs.Messages.{Least as LeastOf};
ghost use Rattle.node_batch.specs.declared.holds.Hold.{Hold as H};
ghost use Rattle.std.specs.FinMap as fin;
ghost use Rattle.node_rules.specs.Worlds.{entries_left};
ghost use Rattle.node_rules.specs.Newses.{desk_with, news, first_news};
ghost use Rattle.node_batch.specs.NodeBatches.{Shows, IsBare, IsFresh};
ghost use Rattle.node_batch.specs.Endings.{all_installed, all_waiting};
ghost use Rattle.node_batch.specs.Entries.{entry_of};
ghost use Rattle.node_batch.specs.Letters.{Same, net_of, message_of, sets_of, holders_of};

use crate::blanks::{no_fates, no_holds, no_parts, no_runs};
use crate::endings::{install_all, waiting_of};
use crate::entries::{Entry, entries_of};
use crate::firsts::leasts;
use crate::holds::{Hold, heard_also, push_fates, verdict_of};
use crate::letters::{Least, Letter, Part, Said};
use crate::mails::{Site, push_leasts, push_own_runs, push_run};
use crate::own_runs::OwnRun;
use aria_base::{Duplicate, Key, Memory, Request, Row};
use batch_rules::verdicts::{Rule, Verdict};
use proc_lang::Catalog;
use std::alloc::Global;
use tbl_rows::Tables;

/// A node at its batch: what it keeps of what was given to it.
#[derive(Drop)]
pub struct NodeBatch {
    pub site: Site,
    pub rows: Tables,
    pub list: Vec<Request>,
    /// By TID, the rows that the request was told. Those of other nodes' requests stay empty.
    pub runs: Vec<OwnRun>,
    /// By TID, the part of the request's sets here, empty where it was not given; and how many were.
    pub parts: Vec<Part>,
    pub marked: usize,
    /// By TID, the least holders that nodes told of the node's own requests.
    pub holds: Vec<Hold>,
    /// By TID, the verdict where it was given, and how many were.
    pub fates: Vec<Option<Verdict>>,
    pub fated: usize,
}

impl NodeBatch {
    /// A row is told to a request of its own: it runs again, and asks for the next key or sends its marks.
    pub fn take_told(
        &mut self,
        alloc: Global,
        catalog: &Catalog,
        tid: u32,
        key: &Key,
        row: &Option<Row>,
        out: &mut Vec<Letter>,
    ) -> Result<(), Memory>
        requires nodes { 0 < self.old.site.nodes }
        requires low { 1 ≤ tid }
        requires high { tid ≤ length self.old.list.items }
        requires runs { length self.old.runs.items ≡ length self.old.list.items }
        ensures site { OnOk result (self.new.site ≡ self.old.site) }
        ensures shows { OnOk result ((rule : Way) (same : Same) (desk : Desk key_cmp Cells Q) (m : Message Name Cells)
            → Shows catalog.now rule same desk self.old → m.tid ≡ tid → m.content ≡ Told key.now row.now
            → Shows catalog.now rule same (desk_with (net_of catalog.now rule self.old.site.nodes same) desk m) self.new
            × (map message_of out.new.items ≡ map message_of out.old.items ++ news (net_of catalog.now rule self.old.site.nodes same) desk m)) }
    {
        let place = tid as usize - 1;
        self.runs[place].tell(alloc, key, row)?;
        let within = self.runs[place].next(alloc, catalog, &self.list[place])?;
        push_run(alloc, self.site, tid, within, out)?;
        Ok(())
    }

    /// A row is wanted: it is told.
    pub fn take_ask(
        &self,
        alloc: Global,
        tid: u32,
        key: &Key,
        out: &mut Vec<Letter>,
    ) -> Result<(), Memory>
        requires nodes { 0 < self.now.site.nodes }
        requires low { 1 ≤ tid }
        requires high { tid ≤ length self.now.list.items }
        ensures { OnOk result ((plan : Plan) (rule : Way) (same : Same) (desk : Desk key_cmp Cells Q) (m : Message Name Cells)
            → Shows plan rule same desk self.now → m.tid ≡ tid → m.content ≡ Ask key.now
            → Shows plan rule same (desk_with (net_of plan rule self.now.site.nodes same) desk m) self.now
            × (map message_of out.new.items ≡ map message_of out.old.items ++ news (net_of plan rule self.now.site.nodes same) desk m)) }
    {
        let row = row_at(alloc, &self.rows, key)?;
        let key = key.duplicate(alloc)?;
        out.push(Letter {
            batch: self.site.batch,
            tid,
            sender: self.site.node,
            addressee: (tid - 1) % self.site.nodes,
            said: Said::Told(key, row),
        })?;
        Ok(())
    }

    /// A request's part is given, where none was given of it: with the last one, the least holders of all requests are sent.
    pub fn take_marks(
        &mut self,
        alloc: Global,
        tid: u32,
        part: Part,
        out: &mut Vec<Letter>,
    ) -> Result<(), Memory>
        requires nodes { 0 < self.old.site.nodes }
        requires low { 1 ≤ tid }
        requires high { tid ≤ length self.old.parts.items }
        requires few { length self.old.parts.items < 2 ^ 32 - 1 }
        requires left { self.old.marked < length self.old.parts.items }
        ensures site { OnOk result (self.new.site ≡ self.old.site) }
        ensures shows { OnOk result ((plan : Plan) (rule : Way) (same : Same) (desk : Desk key_cmp Cells Q) (m : Message Name Cells)
            → Shows plan rule same desk self.old → m.tid ≡ tid → m.content ≡ Marks (sets_of part)
            → marks_of (net_of plan rule self.old.site.nodes same) desk tid ≡ None
            → Shows plan rule same (desk_with (net_of plan rule self.old.site.nodes same) desk m) self.new
            × (map message_of out.new.items ≡ map message_of out.old.items ++ news (net_of plan rule self.old.site.nodes same) desk m)) }
    {
        self.parts[tid as usize - 1] = part;
        self.marked += 1;
        if self.marked < self.parts.len() {
            return Ok(());
        }
        let least = leasts(alloc, &self.parts)?;
        push_leasts(self.site, &least, out)?;
        Ok(())
    }

    /// A node tells the least holders there of a request of the node's own, where it told none before: with the last node's, the verdict
    /// is sent to all.
    pub fn take_least(
        &mut self,
        rule: Rule,
        tid: u32,
        least: Least,
        out: &mut Vec<Letter>,
    ) -> Result<(), Memory>
        requires low { 1 ≤ tid }
        requires high { tid ≤ length self.old.list.items }
        requires holds { length self.old.holds.items ≡ length self.old.list.items }
        requires few { (d : H) → (slice_index_or self.old.holds.items (tid - 1) d).heard < self.old.site.nodes }
        requires nodes { self.old.site.nodes ≤ 2 ^ 32 - 1 }
        ensures site { OnOk result (self.new.site ≡ self.old.site) }
        ensures shows { OnOk result ((plan : Plan) (same : Same) (desk : Desk key_cmp Cells Q) (m : Message Name Cells)
            → Shows plan rule same desk self.old → m.tid ≡ tid → m.content ≡ LeastOf (holders_of least) → m.sender < self.old.site.nodes
            → holders_from (net_of plan rule self.old.site.nodes same) desk tid m.sender ≡ None
            → Shows plan rule same (desk_with (net_of plan rule self.old.site.nodes same) desk m) self.new
            × (map message_of out.new.items ≡ map message_of out.old.items ++ news (net_of plan rule self.old.site.nodes same) desk m)) }
    {
        let place = tid as usize - 1;
        let hold = heard_also(self.holds[place], least);
        self.holds[place] = hold;
        if hold.heard < self.site.nodes {
            return Ok(());
        }
        push_fates(self.site, tid, verdict_of(rule, hold), out)?;
        Ok(())
    }

    /// A verdict is told, where none was told of this request.
    pub fn take_fate(&mut self, tid: u32, verdict: Verdict)
        requires low { 1 ≤ tid }
        requires high { tid ≤ length self.old.fates.items }
        requires few { self.old.fated < length self.old.fates.items }
        ensures site { self.new.site ≡ self.old.site }
        ensures shows { (plan : Plan) (rule : Way) (same : Same) (desk : Desk key_cmp Cells Q) (m : Message Name Cells)
            → Shows plan rule same desk self.old → m.tid ≡ tid → m.content ≡ Fate verdict
            → fate_of (net_of plan rule self.old.site.nodes same) desk tid ≡ None
            → Shows plan rule same (desk_with (net_of plan rule self.old.site.nodes same) desk m) self.new }
    {
        self.fates[tid as usize - 1] = Some(verdict);
        self.fated += 1;
    }

    /// Whether all verdicts were told.
    pub fn is_over(&self) -> bool
        ensures { (plan : Plan) (rule : Way) (same : Same) (desk : Desk key_cmp Cells Q) → Shows plan rule same desk self.now
            → result ≡ is_over (net_of plan rule self.now.site.nodes same) desk }
    {
        self.fated == self.fates.len()
    }

    /// A node of which nothing is asked yet: without requests.
    pub fn begin(alloc: Global, site: Site, rows: Tables) -> NodeBatch
        ensures site { result.site ≡ site }
        ensures rows { result.rows ≡ rows }
        ensures list { result.list.items ≡ [] }
        ensures shows { (plan : Plan) (rule : Way) (same : Same) (desk : Desk key_cmp Cells Q) → IsBare desk site rows []
            → Shows plan rule same desk result }
    {
        NodeBatch {
            site,
            rows,
            list: Vec::new(alloc),
            runs: Vec::new(alloc),
            parts: Vec::new(alloc),
            marked: 0,
            holds: Vec::new(alloc),
            fates: Vec::new(alloc),
            fated: 0,
        }
    }

    /// More requests at the end of its list, where nothing was given to it of this batch yet.
    pub fn lengthen(&mut self, alloc: Global, more: &[Request]) -> Result<(), Memory>
        ensures site { OnOk result (self.new.site ≡ self.old.site) }
        ensures rows { OnOk result (self.new.rows ≡ self.old.rows) }
        ensures list { OnOk result (self.new.list.items ≡ self.old.list.items ++ more.now) }
        ensures shows { OnOk result ((plan : Plan) (rule : Way) (same : Same) (desk : Desk key_cmp Cells Q)
            → IsBare desk self.new.site self.new.rows self.new.list.items → Shows plan rule same desk self.new) }
    {
        push_copies(alloc, &mut self.list, more)?;
        let many = self.list.len();
        self.runs = no_runs(alloc, many)?;
        self.parts = no_parts(alloc, many)?;
        self.marked = 0;
        self.holds = no_holds(alloc, many)?;
        self.fates = no_fates(alloc, many)?;
        self.fated = 0;
        Ok(())
    }

    /// Installs the rows of its batch, and goes on to the next one, with the requests that wait and these new ones. It tells how many
    /// wait.
    pub fn go_on(&mut self, alloc: Global, new: &[Request]) -> Result<usize, Memory>
        requires batch { self.old.site.batch < 2 ^ 64 - 1 }
        requires parts { length self.old.fates.items ≡ length self.old.parts.items }
        requires list { length self.old.fates.items ≡ length self.old.list.items }
        ensures site { OnOk result (self.new.site ≡ record { batch = self.old.site.batch + 1; node = self.old.site.node; nodes = self.old.site.nodes }) }
        ensures rows { OnOk result (self.new.rows ≡ all_installed self.old.rows (map sets_of self.old.parts.items) self.old.fates.items) }
        ensures list { OnOk result (self.new.list.items ≡ all_waiting self.old.list.items self.old.fates.items ++ new.now) }
        ensures carried { IfOk result (λ carried. carried ≡ length (all_waiting self.old.list.items self.old.fates.items)) }
        ensures shows { OnOk result ((plan : Plan) (rule : Way) (same : Same) (desk : Desk key_cmp Cells Q)
            → IsBare desk self.new.site self.new.rows self.new.list.items → Shows plan rule same desk self.new) }
    {
        install_all(alloc, &mut self.rows, &self.parts, &self.fates)?;
        self.list = waiting_of(alloc, &self.list, &self.fates)?;
        let carried = self.list.len();
        self.site.batch += 1;
        self.lengthen(alloc, new)?;
        Ok(carried)
    }

    /// Appends what the first runs of its own requests ask for or come to.
    pub fn first_runs(
        &self,
        alloc: Global,
        catalog: &Catalog,
        out: &mut Vec<Letter>,
    ) -> Result<(), Memory>
        requires nodes { 0 < self.now.site.nodes }
        requires few { length self.now.list.items < 2 ^ 32 - 1 }
        requires runs { length self.now.runs.items ≡ length self.now.list.items }
        ensures { OnOk result ((rule : Way) (same : Same) (desk : Desk key_cmp Cells Q) → Shows catalog.now rule same desk self.now
            → map message_of out.new.items ≡ map message_of out.old.items ++ first_news (net_of catalog.now rule self.now.site.nodes same) desk) }
    {
        push_own_runs(alloc, catalog, self.site, &self.list, &self.runs, out)?;
        Ok(())
    }

    /// What becomes of its own requests, where all verdicts were told.
    pub fn entries(&self, alloc: Global, catalog: &Catalog) -> Result<Vec<Entry>, Memory>
        requires nodes { 0 < self.now.site.nodes }
        requires few { length self.now.list.items < 2 ^ 32 - 1 }
        requires fates { length self.now.fates.items ≡ length self.now.list.items }
        requires runs { length self.now.runs.items ≡ length self.now.list.items }
        ensures { IfOk result (λ entries. (rule : Way) (same : Same) (desk : Desk key_cmp Cells Q) → Shows catalog.now rule same desk self.now
            → map entry_of entries.items ≡ entries_left (net_of catalog.now rule self.now.site.nodes same) desk) }
    {
        let entries = entries_of(
            alloc,
            catalog,
            self.site,
            &self.list,
            &self.fates,
            &self.runs,
        )?;
        Ok(entries)
    }

    /// A message of its batch, of which nothing was told before, is kept, and its news are appended.
    pub fn take(
        &mut self,
        alloc: Global,
        catalog: &Catalog,
        rule: Rule,
        letter: &Letter,
        out: &mut Vec<Letter>,
    ) -> Result<(), Memory>
        requires nodes { (0 < self.old.site.nodes) × (self.old.site.nodes ≤ 2 ^ 32 - 1) }
        requires few { length self.old.list.items < 2 ^ 32 - 1 }
        requires fresh { (same : Same) × (desk : Desk key_cmp Cells Q) × Shows catalog.now rule same desk self.old
            × IsFresh (net_of catalog.now rule self.old.site.nodes same) desk (message_of letter.now) }
        ensures site { OnOk result (self.new.site ≡ self.old.site) }
        ensures shows { OnOk result ((same : Same) (desk : Desk key_cmp Cells Q)
            → Shows catalog.now rule same desk self.old → IsFresh (net_of catalog.now rule self.old.site.nodes same) desk (message_of letter.now)
            → Shows catalog.now rule same (desk_with (net_of catalog.now rule self.old.site.nodes same) desk (message_of letter.now)) self.new
            × (map message_of out.new.items ≡ map message_of out.old.items
            ++ news (net_of catalog.now rule self.old.site.nodes same) desk (message_of letter.now))) }
    {
        let tid = letter.tid;
        match &letter.said {
            Said::Ask(key) => {
                self.take_ask(alloc, tid, key, out)?;
                return Ok(());
            }
            Said::Told(key, row) => {
                self.take_told(alloc, catalog, tid, key, row, out)?;
                return Ok(());
            }
            Said::Marks(part) => {
                let part = part.copy(alloc)?;
                self.take_marks(alloc, tid, part, out)?;
                return Ok(());
            }
            Said::Least(least) => {
                self.take_least(rule, tid, *least, out)?;
                return Ok(());
            }
            Said::Fate(verdict) => {
                self.take_fate(tid, *verdict);
                return Ok(());
            }
        }
    }
}

/// Appends copies of the requests.
fn push_copies(alloc: Global, list: &mut Vec<Request>, more: &[Request]) -> Result<(), Memory>
    ensures { OnOk result (list.new.items ≡ list.old.items ++ more.now) }
{
    for request in more {
        list.push(request.duplicate(alloc)?)?;
    }
    Ok(())
}

/// A copy of the row at the key, or that there is none.
fn row_at(alloc: Global, rows: &Tables, key: &Key) -> Result<Option<Row>, Memory>
    ensures { IfOk result (λ row. row ≡ fin.get rows.now key.now) }
{
    match rows.get(key) {
        Some(row) => return Ok(Some(row.duplicate(alloc)?)),
        None => return Ok(None),
    }
}
