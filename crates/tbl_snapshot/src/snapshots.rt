// Tables lent for reading.
ghost use Rattle.std.specs.Prelude.{◌≡◌};
ghost use Rattle.std.specs.Option.{option_copied};
ghost use Rattle.std.specs.FinMap as fin;
ghost use Rattle.tbl_rows.specs.Hashes.{hash_of};

use aria_base::{Key, Row};
use std::marker::Model;
use tbl_rows::Tables;

/// Tables that stay as they are while the snapshot lives: a shared reference to them, of which
/// [`Snapshot::copy`] makes another. A contract sees the tables' map.
#[derive(Drop)]
pub struct Snapshot<'a> {
    tables: &'a Tables,
}

impl<'a> Model for Snapshot<'a> {
    ghost use Rattle.aria_base.specs.Orders.{Database};
    ghost use Rattle.aria_base.specs.Codes.{database_code};

    ghost Value = { Database };

    ghost coded = { database_code };

    ghost view = { λ a. a.tables.now };
}

impl<'a> Snapshot<'a> {
    /// The snapshot of these tables. No memory.
    pub fn of(tables: &'a Tables) -> Snapshot<'a>
        ensures { result ≡ tables.now }
    {
        Snapshot { tables }
    }

    /// Another snapshot of the same tables, which may outlive this one. No memory.
    pub fn copy(&self) -> Snapshot<'a>
        ensures { result ≡ self.now }
    {
        Snapshot {
            tables: self.tables,
        }
    }

    /// The row at a key. No memory.
    pub fn get(&self, key: &Key) -> Option<&Row>
        ensures { option_copied result ≡ fin.get self.now key.now }
    {
        self.tables.get(key)
    }

    /// The row at the key of this hash. No memory.
    pub(crate) fn get_at(&self, hash: u64, key: &Key) -> Option<&Row>
        requires { hash ≡ hash_of key.now }
        ensures { option_copied result ≡ fin.get self.now key.now }
    {
        self.tables.get_at(hash, key)
    }
}
