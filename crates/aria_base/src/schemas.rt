// The tables of a database, and whether a key and a row fit them.
ghost use Rattle.std.specs.Prelude.{◌≡◌, ◌↔◌, IsTrue, map, List};
ghost use Rattle.aria_base.specs.Schemas.{Fits};

use crate::copies::Duplicate;
use crate::keys::Key;
use crate::lists::Items;
use crate::memory::Memory;
use crate::texts::Txt;
use crate::values::{Kind, Kinded, Kinds, Row};
use std::alloc::Global;

/// A table.
#[derive(Debug, Drop, PartialEq, Eq)]
pub struct Table {
    /// What it is called.
    pub name: Txt,
    /// The kinds of its key's parts, from the left: one to five.
    pub key: Kinds,
    /// The kinds of its columns, from the left: at most 16.
    pub cols: Kinds,
}

/// The tables of a catalogue; a table's number is its place, from 0.
pub type Schema = Items<Table>;

impl Items<Table> {
    /// Whether the key's table is there, the key has that table's parts in number and kind, and the
    /// row its columns.
    pub fn fits(&self, key: &Key, row: &Row) -> bool
        ensures { IsTrue result ↔ Fits self.now key.now row.now }
    {
        let Some(table) = self.as_slice().get(usize::from(key.table)) else {
            return false;
        };
        are_of(key.parts.as_slice(), table.key.as_slice())
            && are_of(row.as_slice(), table.cols.as_slice())
    }
}

/// Whether these have the kinds, one by one.
fn are_of<T: Kinded>(items: &[T], kinds: &[Kind]) -> bool
    ensures { IsTrue result ↔ (map T.kind_of items.now ≡ kinds.now) }
{
    if items.len() != kinds.len() {
        return false;
    }
    for (at, item) in items.iter().enumerate() {
        if item.kind() != kinds[at] {
            return false;
        }
    }
    true
}

impl Duplicate for Table {
    fn duplicate(&self, alloc: Global) -> Result<Self, Memory> {
        Ok(Table {
            name: self.name.duplicate(alloc)?,
            key: self.key.duplicate(alloc)?,
            cols: self.cols.duplicate(alloc)?,
        })
    }
}
