// Rows that a scan finds, in order.
ghost use Rattle.std.specs.Prelude.{◌≡◌, IfOk, OnOk};
ghost use Rattle.std.specs.Option.{option_copied};
ghost use Rattle.std.specs.FinMap as fin;
ghost use Rattle.batch_rules.specs.Trees.{set_at};

use aria_base::{Duplicate, Key, Memory, Row};
use range_rules::Pairs;
use std::alloc::Global;
use std::marker::Model;
use tbl_rows::SortedRows;

/// Rows that are found one by one, copied into an ordered map. A contract sees the map of them.
#[derive(Drop)]
pub(crate) struct Found {
    alloc: Global,
    rows: SortedRows,
}

impl Model for Found {
    ghost use Rattle.aria_base.specs.Orders.{Database};
    ghost use Rattle.aria_base.specs.Codes.{database_code};

    ghost Value = { Database };

    ghost coded = { database_code };

    ghost view = { λ a. a.rows };
}

impl Found {
    /// No rows.
    pub(crate) fn new(alloc: Global) -> Found
        ensures { result ≡ fin.empty }
    {
        Found {
            alloc,
            rows: SortedRows::new(alloc),
        }
    }

    /// Sets what stands at a key: a copy of the row, or nothing. An error: there was no memory.
    pub(crate) fn set(&mut self, key: &Key, row: Option<&Row>) -> Result<(), Memory>
        ensures { OnOk result (self.new ≡ set_at self.old key.now (option_copied row.entry)) }
    {
        let alloc = self.alloc;
        match row {
            Some(row) => {
                self.rows.put(key.duplicate(alloc)?, row.duplicate(alloc)?)?;
                Ok(())
            }
            None => {
                self.rows.delete(key);
                Ok(())
            }
        }
    }

    /// The rows with their keys, in order.
    pub(crate) fn into_pairs(self) -> Result<Pairs, Memory>
        ensures { IfOk result (λ pairs. pairs ≡ fin.entries self) }
    {
        self.rows.into_pairs(self.alloc)
    }
}
