// Keys under a prefix, and a prefix as a key.
ghost use Rattle.std.specs.Prelude.{◌≡◌, IfOk};
ghost use Rattle.std.specs.Ordering.{eq_by_cmp};
ghost use Rattle.aria_base.specs.Orders.{part_cmp};
ghost use Rattle.range_rules.specs.Scans.{begins, is_under, key_or};

use crate::routines::Prefix;
use aria_base::{Duplicate, Key, Memory, Part, Parts};
use std::alloc::Global;

impl Prefix {
    /// Whether the key is under this prefix: it has the table, and begins with the parts. No memory.
    pub fn covers(&self, key: &Key) -> bool
        ensures { result ≡ is_under self.now key.now }
    {
        self.table == key.table && begins(self.parts.as_slice(), key.parts.as_slice())
    }

    /// The prefix as a key, or the key that is given, where it has no parts. An error: there was no memory.
    pub fn key_or(&self, alloc: Global, whole: Key) -> Result<Key, Memory>
        ensures { IfOk result (λ key. key ≡ key_or whole self.now) }
    {
        match self.parts.as_slice() {
            [] => Ok(whole),
            parts => Ok(Key {
                table: self.table,
                parts: Parts::copy_of(alloc, parts)?,
            }),
        }
    }
}

impl Duplicate for Prefix {
    fn duplicate(&self, alloc: Global) -> Result<Self, Memory> {
        Ok(Prefix {
            table: self.table,
            parts: self.parts.duplicate(alloc)?,
        })
    }
}

/// Whether the parts begin with these.
fn begins(front: &[Part], parts: &[Part]) -> bool
    ensures { result ≡ begins front.now parts.now }
{
    for (place, part) in front.iter().enumerate() {
        let Some(other) = parts.get(place) else {
            return false;
        };
        if !same_part(part, other) {
            return false;
        }
    }
    true
}

/// Whether the two parts are one.
fn same_part(a: &Part, b: &Part) -> bool
    ensures { result ≡ eq_by_cmp part_cmp a.now b.now }
{
    a.cmp(b).is_eq()
}
