// A database before its first batch, and from then on the nodes that divide it.
ghost use Rattle.std.specs.Prelude.{◌≡◌, ◌≤◌, IfOk};
ghost use Rattle.node_world.specs.declared.worlds.TheConstants.{MOST_NODES};
ghost use Rattle.run_commands.specs.Bases.{counts_of};
ghost use Rattle.serving.specs.Lives.{listing};
ghost use Rattle.nodes_command.specs.Bases.{AreDone, IsBegun, IsHead, IsUnder, put_in, state_now, state_of};
ghost use Rattle.proc_lang.specs.Catalogs.{Plan};

use answer_text::print_state;
use aria_base::{Key, Memory, Row};
use batch_rules::verdicts::Rule;
use part_nodes::Nodes;
use proc_lang::Catalog;
use script_places::Counts;
use std::alloc::Global;
use tbl_rows::Tables;

/// A database before its first batch, and from then on the nodes that divide it.
#[derive(Drop)]
pub(crate) enum Base {
    /// The rows of the head so far, and the rule of all batches.
    Rows(Tables, Rule),
    /// A batch was run.
    Runs(Nodes),
}

impl Base {
    /// What decides about the end of a batch.
    pub fn counts(&self) -> Counts
        requires { (plan : Plan) × IsUnder plan self.now }
        ensures { result ≡ counts_of (state_of self.now) }
    {
        match self {
            Base::Rows(_, _) => Counts {
                batches: 0,
                requests: 0,
                waiting: 0,
            },
            Base::Runs(nodes) => counts(nodes),
        }
    }

    /// With the row at the key, before the first batch.
    pub fn put(self, key: Key, row: Row) -> Result<Base, Memory>
        requires { IsHead self }
        ensures { IfOk result (λ next. next ≡ put_in self key row) }
    {
        match self {
            Base::Rows(mut tables, rule) => {
                tables.put(key, row)?;
                Ok(Base::Rows(tables, rule))
            }
            Base::Runs(_) => unreachable!(),
        }
    }

    /// As so many nodes that run batches, under this catalogue.
    pub fn begun(self, alloc: Global, catalog: &Catalog, nodes: u32) -> Result<Nodes, Memory>
        requires nodes { (1 ≤ nodes) × (nodes ≤ MOST_NODES) }
        requires under { IsUnder catalog.now self }
        ensures { IfOk result (IsBegun catalog.now self) }
    {
        match self {
            Base::Rows(tables, rule) => {
                let catalog = catalog.copy(alloc)?;
                let begun = Nodes::begin(alloc, catalog, tables, nodes, rule)?;
                Ok(begun)
            }
            Base::Runs(nodes) => Ok(nodes),
        }
    }

    /// The listing of its rows, under this catalogue.
    pub fn list(&self, alloc: Global, catalog: &Catalog) -> Result<Vec<u8>, Memory>
        requires { IsUnder catalog.now self.now }
        ensures { IfOk result (λ text. text.items ≡ listing catalog.now (state_of self.now)) }
    {
        match self {
            Base::Rows(tables, _) => print_state(alloc, catalog, tables, 0),
            Base::Runs(nodes) => list_nodes(alloc, catalog, nodes),
        }
    }
}

/// What decides about the end of a batch, where no batch is under way.
fn counts(nodes: &Nodes) -> Counts
    requires { AreDone nodes.now }
    ensures { result ≡ counts_of (state_now nodes.now) }
{
    nodes.ready();
    Counts {
        batches: nodes.batches(),
        requests: nodes.requests(),
        waiting: nodes.waiting() as usize,
    }
}

/// The listing of the rows of all nodes, under this catalogue, where no batch is under way.
pub(crate) fn list_nodes(alloc: Global, catalog: &Catalog, nodes: &Nodes) -> Result<Vec<u8>, Memory>
    requires { AreDone nodes.now }
    ensures { IfOk result (λ text. text.items ≡ listing catalog.now (state_now nodes.now)) }
{
    nodes.ready();
    let tables = nodes.tables()?;
    print_state(alloc, catalog, &tables, nodes.batches())
}
