// Keys and the parts that they are made of, and how keys are ordered.
ghost use Rattle.std.specs.Prelude.{◌≡◌, IfOk};
ghost use Rattle.std.specs.List.{list_any};
ghost use Rattle.std.specs.Ordering.{eq_by_cmp};
ghost use Rattle.aria_base.specs.Kinds.{part_kind};
ghost use Rattle.aria_base.specs.Orders.{key_cmp};

use crate::copies::Duplicate;
use crate::lists::Items;
use crate::memory::Memory;
use crate::parts::Parts;
use crate::texts::Txt;
use crate::values::{Kind, Kinded, Row};
use std::alloc::Global;
use std::cmp::Ordering;
use std::hash::Hash;

/// A part of a key. Numbers come before texts; numbers are ordered by size, texts by their bytes from the
/// left, where a prefix of a text comes before it.
#[derive(Debug, Drop, PartialEq, Eq, PartialOrd, Ord, Hash)]
pub enum Part {
    /// A whole number.
    Int(i64),
    /// A text of at most 500 bytes.
    Text(Txt),
}

/// A key: a table's number and the parts. Keys are ordered by table, then by their parts from the left; a
/// key whose parts are a prefix of another's comes before it.
#[derive(Debug, Drop, PartialEq, Eq, PartialOrd, Ord, Hash)]
pub struct Key {
    /// The table's place in the schema, from 0.
    pub table: u16,
    /// The parts, which tell the rows of a table apart.
    pub parts: Parts,
}

/// A list of keys.
pub type Keys = Items<Key>;

/// What a run writes: each key with its last row, or with its absence.
pub type Changes = Items<(Key, Option<Row>)>;

impl Kinded for Part {
    ghost kind_of = { part_kind };

    fn kind(&self) -> Kind {
        match self {
            Part::Int(_) => Kind::Int,
            Part::Text(_) => Kind::Text,
        }
    }
}

impl Duplicate for Part {
    fn duplicate(&self, alloc: Global) -> Result<Self, Memory> {
        match self {
            Part::Int(number) => Ok(Part::Int(*number)),
            Part::Text(text) => Ok(Part::Text(text.duplicate(alloc)?)),
        }
    }
}

impl Duplicate for Key {
    fn duplicate(&self, alloc: Global) -> Result<Self, Memory> {
        Ok(Key {
            table: self.table,
            parts: self.parts.duplicate(alloc)?,
        })
    }
}

/// A key equal to this one, or that there was no memory.
pub fn copy_key(alloc: Global, key: &Key) -> Result<Key, Memory>
    ensures { IfOk result (λ copy. copy ≡ key.now) }
{
    key.duplicate(alloc)
}

/// How the first key stands to the second. This is `cmp`; its clause says what the order is.
pub fn compare_keys(a: &Key, b: &Key) -> Ordering
    ensures { result ≡ key_cmp a.now b.now }
{
    a.cmp(b)
}

/// Whether the two keys are one.
pub fn same_key(a: &Key, b: &Key) -> bool
    ensures { result ≡ eq_by_cmp key_cmp a.now b.now }
{
    a.cmp(b).is_eq()
}

/// Whether the key stands among these.
pub fn contains_key(keys: &[Key], key: &Key) -> bool
    ensures { result ≡ list_any (eq_by_cmp key_cmp key.now) keys.now }
{
    keys.iter().any(|other| same_key(key, other))
}
