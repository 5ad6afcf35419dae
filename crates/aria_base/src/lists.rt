// The two kinds of list that every list type of the workspace is made of.
ghost use Rattle.std.specs.Prelude.{◌≡◌, ◌≤◌, List, length, IfOk};
ghost use Rattle.std.specs.Hash as fed;
ghost use Rattle.std.specs.Hash.{items_Alike};
ghost use Rattle.std.specs.Cmp.Lexicographic.{pointwise, slice_cmp, slice_partial_cmp, lists_equiv, lists_agrees, lists_total, lists_ties, lists_per, lists_po};

use crate::copies::Duplicate;
use crate::memory::Memory;
use std::alloc::Global;
use std::cmp::Ordering;
use std::hash::{Hash, Hasher};
use std::marker::Model;

/// A list of bytes.
pub type Bytes = Items<u8>;

/// A list of any length. A contract sees the list of its items.
#[derive(Debug, Drop)]
pub struct Items<T> {
    items: Vec<T>,
}

impl<T> Model for Items<T> {
    ghost Value = { List T };

    ghost view = { λ a. a.items.items };
}

impl<T> Items<T> {
    /// The list of these items.
    pub fn from_vec(items: Vec<T>) -> Self
        ensures { result ≡ items.items }
    {
        Items { items }
    }

    /// The items, in their order.
    pub fn as_slice(&self) -> &[T]
        ensures { result.now ≡ self.now }
    {
        self.items.as_slice()
    }

    /// The items by value.
    pub fn into_vec(self) -> Vec<T>
        ensures { result.items ≡ self }
    {
        self.items
    }
}

impl<T: Duplicate> Duplicate for Items<T> {
    fn duplicate(&self, alloc: Global) -> Result<Self, Memory> {
        Ok(Items {
            items: duplicate_all(alloc, &self.items)?,
        })
    }
}

impl<T: PartialEq> PartialEq for Items<T> {
    ghost eq = { pointwise T.eq };

    ghost laws = { lists_per T.laws };

    fn eq(&self, other: &Items<T>) -> bool {
        self.items == other.items
    }
}

impl<T: Eq> Eq for Items<T> {
    ghost laws = { lists_equiv T.Eq.laws };
}

impl<T: PartialOrd> PartialOrd for Items<T> {
    ghost partial_cmp = { slice_partial_cmp T.partial_cmp };

    ghost laws = { lists_po T.PartialOrd.laws };

    fn partial_cmp(&self, other: &Items<T>) -> Option<Ordering> {
        self.items.partial_cmp(&other.items)
    }
}

impl<T: Ord> Ord for Items<T> {
    ghost cmp = { slice_cmp T.cmp };

    ghost total = { lists_total T.total };

    ghost matches_partial_cmp = { lists_agrees T.matches_partial_cmp };

    ghost matches_eq = { lists_ties T.cmp T.matches_eq };

    fn cmp(&self, other: &Items<T>) -> Ordering {
        self.items.cmp(&other.items)
    }
}

impl<T: Hash> Hash for Items<T> {
    ghost hash_input = { fed.slice T.hash_input };

    ghost respects_eq = { (items_Alike (record { fed = T.respects_eq })).fed };

    fn hash<H: Hasher>(&self, state: &mut H) {
        self.items.as_slice().hash(state);
    }
}

/// A list of `LOW` to `HIGH` items. A contract sees the list of its items.
#[derive(Debug, Drop)]
pub struct Few<T, const LOW: usize, const HIGH: usize> {
    items: Vec<T>,
}

impl<T, const LOW: usize, const HIGH: usize> Model for Few<T, LOW, HIGH> {
    ghost Value = { List T };

    ghost view = { λ a. a.items.items };

    ghost invariant = { λ a. (LOW ≤ length a.items.items) × (length a.items.items ≤ HIGH) };
}

impl<T, const LOW: usize, const HIGH: usize> Few<T, LOW, HIGH> {
    /// The list of these items, of which there are `LOW` to `HIGH`.
    pub fn from_vec(items: Vec<T>) -> Self
        requires low { LOW ≤ length items.items }
        requires high { length items.items ≤ HIGH }
        ensures { result ≡ items.items }
    {
        Few { items }
    }

    /// The items, in their order.
    pub fn as_slice(&self) -> &[T]
        ensures list { result.now ≡ self.now }
        ensures low { LOW ≤ length self.now }
        ensures high { length self.now ≤ HIGH }
    {
        self.items.as_slice()
    }

    /// The items by value.
    pub fn into_vec(self) -> Vec<T>
        ensures list { result.items ≡ self }
        ensures low { LOW ≤ length self }
        ensures high { length self ≤ HIGH }
    {
        self.items
    }
}

impl<T: Duplicate, const LOW: usize, const HIGH: usize> Duplicate for Few<T, LOW, HIGH> {
    fn duplicate(&self, alloc: Global) -> Result<Self, Memory> {
        Ok(Few {
            items: duplicate_all(alloc, &self.items)?,
        })
    }
}

impl<T: PartialEq, const LOW: usize, const HIGH: usize> PartialEq for Few<T, LOW, HIGH> {
    ghost eq = { pointwise T.eq };

    ghost laws = { lists_per T.laws };

    fn eq(&self, other: &Few<T, LOW, HIGH>) -> bool {
        self.items == other.items
    }
}

impl<T: Eq, const LOW: usize, const HIGH: usize> Eq for Few<T, LOW, HIGH> {
    ghost laws = { lists_equiv T.Eq.laws };
}

impl<T: PartialOrd, const LOW: usize, const HIGH: usize> PartialOrd for Few<T, LOW, HIGH> {
    ghost partial_cmp = { slice_partial_cmp T.partial_cmp };

    ghost laws = { lists_po T.PartialOrd.laws };

    fn partial_cmp(&self, other: &Few<T, LOW, HIGH>) -> Option<Ordering> {
        self.items.partial_cmp(&other.items)
    }
}

impl<T: Ord, const LOW: usize, const HIGH: usize> Ord for Few<T, LOW, HIGH> {
    ghost cmp = { slice_cmp T.cmp };

    ghost total = { lists_total T.total };

    ghost matches_partial_cmp = { lists_agrees T.matches_partial_cmp };

    ghost matches_eq = { lists_ties T.cmp T.matches_eq };

    fn cmp(&self, other: &Few<T, LOW, HIGH>) -> Ordering {
        self.items.cmp(&other.items)
    }
}

impl<T: Hash, const LOW: usize, const HIGH: usize> Hash for Few<T, LOW, HIGH> {
    ghost hash_input = { fed.slice T.hash_input };

    ghost respects_eq = { (items_Alike (record { fed = T.respects_eq })).fed };

    fn hash<H: Hasher>(&self, state: &mut H) {
        self.items.as_slice().hash(state);
    }
}

/// Equal items, in their order.
pub(crate) fn duplicate_all<T: Duplicate>(alloc: Global, items: &[T]) -> Result<Vec<T>, Memory>
    ensures { IfOk result (λ copies. copies.items ≡ items.now) }
{
    let mut copies = Vec::with_capacity(alloc, items.len())?;
    for item in items {
        copies.push(item.duplicate(alloc)?)?;
    }
    Ok(copies)
}
