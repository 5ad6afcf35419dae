// What is asked of nodes.
ghost use Rattle.std.specs.Prelude.{◌≡◌, ◌<◌, length, nat_lt, nat_le, IfOk};
ghost use Rattle.std.specs.FinMap as fin;
ghost use Rattle.std.specs.List.{list_any, list_all};
ghost use Rattle.aria_base.specs.Orders.{Database};
ghost use Rattle.node_seats.specs.Nodes.{ArePartsOf};

use crate::worlds::World;
use aria_base::Memory;
use node_seats::put_rows_at;
use std::alloc::Global;
use tbl_rows::Tables;

impl World {
    /// Whether a node has not completed all that was started.
    pub fn is_behind(&self) -> bool
        ensures { result ≡ list_any (λ s. nat_lt (length s.entries.items) (length self.now.started.items)) self.now.seats.items }
    {
        let many = self.started.len();
        for seat in &self.seats {
            if seat.entries.len() < many {
                return true;
            }
        }
        false
    }

    /// Whether all nodes have completed so many batches.
    pub fn is_past(&self, batches: u64) -> bool
        ensures { result ≡ list_all (λ s. nat_le batches (length s.entries.items)) self.now.seats.items }
    {
        for seat in &self.seats {
            if (seat.entries.len() as u64) < batches {
                return false;
            }
        }
        true
    }

    /// The rows of all nodes.
    pub fn tables(&self, alloc: Global) -> Result<Tables, Memory>
        requires some { 0 < self.now.nodes }
        requires seats { length self.now.seats.items ≡ self.now.nodes }
        ensures { IfOk result (λ rows. (whole : Database) → ArePartsOf whole self.now.nodes self.now.seats.items → rows ≡ whole) }
    {
        let mut rows = Tables::new(alloc)?;
        for node in 0..self.nodes {
            let seat = &self.seats[node as usize];
            put_rows_at(alloc, &mut rows, &seat.bench.rows, self.nodes, node)?;
        }
        Ok(rows)
    }
}
