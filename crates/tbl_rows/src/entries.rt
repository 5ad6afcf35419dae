// A row as a bucket holds it.
ghost use Rattle.std.specs.Prelude.{◌≡◌, ◌^◌, ◌<◌, ◌≤◌};
ghost use Rattle.std.specs.Ordering.{eq_by_cmp};
ghost use Rattle.aria_base.specs.Orders.{key_cmp};
ghost use Rattle.tbl_rows.specs.Hashes.{hash_of};
ghost use Rattle.tbl_rows.specs.Pools.{is_moved};
ghost use Rattle.tbl_rows.specs.declared.homes.TheConstants.{LAST_LEVEL};

use crate::homes::bucket_at;
use aria_base::{Duplicate, Key, Memory, Row, same_key};
use std::alloc::Global;
use std::marker::Model;
use std::mem;

/// A row with its key, and with the key's hash, so that a search compares keys only where the hashes are one. A
/// contract sees the key and the row.
///
/// The key is the longest and stands last: of a short one all that a search reads lies side by side.
#[derive(Drop)]
pub(crate) struct Entry {
    hash: u64,
    row: Row,
    key: Key,
}

impl Model for Entry {
    ghost use Rattle.std.specs.Prelude.{◌≡◌};
    ghost use Rattle.aria_base.specs.Orders.{Cells};
    ghost use Rattle.aria_base.specs.declared.keys.Key.{Key as Name};
    ghost use Rattle.tbl_rows.specs.Codes.{entry_code};
    ghost use Rattle.tbl_rows.specs.Hashes.{hash_of};

    ghost Value = { Name × Cells };

    ghost coded = { entry_code };

    ghost view = { λ a. (a.key, a.row) };

    ghost invariant = { λ a. a.hash ≡ hash_of a.key };
}

impl Entry {
    /// This row at this key, whose hash it is.
    pub(crate) fn new(hash: u64, key: Key, row: Row) -> Entry
        requires { hash ≡ hash_of key }
        ensures { result ≡ (key, row) }
    {
        Entry {
            hash,
            key,
            row: fitted(row),
        }
    }

    /// The key.
    pub(crate) fn key(&self) -> &Key
        ensures { result.now ≡ self.now.0 }
    {
        &self.key
    }

    /// The row.
    pub(crate) fn row(&self) -> &Row
        ensures { result.now ≡ self.now.1 }
    {
        &self.row
    }

    /// Whether it is the row of this key, whose hash it is.
    pub(crate) fn is_at(&self, hash: u64, key: &Key) -> bool
        requires { hash ≡ hash_of key.now }
        ensures { result ≡ eq_by_cmp key_cmp key.now self.now.0 }
    {
        hash == self.hash && same_key(key, &self.key)
    }

    /// Whether it moves when the next of so many buckets is made.
    #[tactic(auto, unfolding(crate::specs::Pools::slot))]
    pub(crate) fn is_moved(&self, level: u32, count: usize) -> bool
        requires level { level ≤ LAST_LEVEL }
        requires least { 2 ^ level ≤ count }
        requires most { count < 2 ^ 32 }
        ensures { result ≡ is_moved level count self.now.0 }
    {
        bucket_at(level, count + 1, self.hash) == count
    }

    /// Sets the row, and hands out the one that stood there. Rows of one length change places block and all: the
    /// values move into the block that stays, and what is handed out lies in the block that came, which was written a
    /// moment ago and is soon used again.
    pub(crate) fn set_row(&mut self, row: Row) -> Row
        ensures set { self.new ≡ (self.old.0, row) }
        ensures was { result ≡ self.old.1 }
    {
        let mut new = row.into_vec();
        let none = Row::from_vec(Vec::new(*new.allocator()));
        let mut old = mem::replace(&mut self.row, none).into_vec();
        if old.len() == new.len() {
            old.as_mut_slice().swap_with_slice(new.as_mut_slice());
            self.row = Row::from_vec(old);
            return Row::from_vec(new);
        }
        self.row = fitted(Row::from_vec(new));
        Row::from_vec(old)
    }
}

/// The same row, in a block of its size, if there is memory for one: it stays for long, and may come
/// in a block that grew by doubling. The block is a new one, since one that shrinks where it lies leaves
/// a piece that is of little use.
fn fitted(row: Row) -> Row
    ensures { result ≡ row }
{
    let mut values = row.into_vec();
    if values.len() == values.capacity() {
        return Row::from_vec(values);
    }
    match Vec::with_capacity(*values.allocator(), values.len()) {
        Ok(mut exact) => match exact.append(&mut values) {
            Ok(()) => Row::from_vec(exact),
            Err(_) => Row::from_vec(values),
        },
        Err(_) => Row::from_vec(values),
    }
}

impl Duplicate for Entry {
    fn duplicate(&self, alloc: Global) -> Result<Self, Memory> {
        Ok(Entry {
            hash: self.hash,
            key: self.key.duplicate(alloc)?,
            row: self.row.duplicate(alloc)?,
        })
    }
}
