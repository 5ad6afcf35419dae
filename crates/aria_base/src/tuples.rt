// Tuples of whole numbers. They lie in the tuple itself, so that a list of tuples is one block.
ghost use Rattle.std.specs.Prelude.{◌≡◌, ◌≤◌, length};
ghost use Rattle.std.specs.Cmp.{partial_equiv_from_equiv};
ghost use Rattle.std.specs.Cmp.Lexicographic.{lists_per, lists_equiv};
ghost use Rattle.std.proofs.lemmas.Cmp.{int_eq_equiv};
ghost use Rattle.aria_base.specs.declared.limits.TheConstants.{SHORTEST_TUPLE, LONGEST_TUPLE};

use crate::copies::Duplicate;
use crate::limits::LONGEST_TUPLE;
use crate::lists::Items;
use crate::memory::Memory;
use std::alloc::Global;
use std::marker::Model;

/// One to five whole numbers of 64 bits with a sign. A contract sees the list of them.
#[derive(Debug, Drop)]
pub struct Tuple {
    count: usize,
    numbers: [i64; LONGEST_TUPLE],
}

impl Model for Tuple {
    ghost use Rattle.std.specs.Prelude.{◌≡◌, ◌≤◌, List, ℤ, length, take};
    ghost use Rattle.aria_base.specs.declared.limits.TheConstants.{SHORTEST_TUPLE, LONGEST_TUPLE};

    ghost Value = { List ℤ };

    ghost view = { λ a. take a.count a.numbers };

    ghost invariant = { λ a. (SHORTEST_TUPLE ≤ a.count) × (a.count ≤ LONGEST_TUPLE) × (length a.numbers ≡ LONGEST_TUPLE) };
}

impl Tuple {
    /// The list of these numbers, of which there are one to five.
    pub fn from_slice(list: &[i64]) -> Self
        requires low { SHORTEST_TUPLE ≤ length list.now }
        requires high { length list.now ≤ LONGEST_TUPLE }
        ensures { result ≡ list.now }
    {
        let count = list.len();
        let mut numbers = [0; LONGEST_TUPLE];
        numbers[..count].copy_from_slice(list);
        Tuple { count, numbers }
    }

    /// The numbers, in their order.
    pub fn as_slice(&self) -> &[i64]
        ensures list { result.now ≡ self.now }
        ensures low { SHORTEST_TUPLE ≤ length self.now }
        ensures high { length self.now ≤ LONGEST_TUPLE }
    {
        &self.numbers[..self.count]
    }
}

impl Duplicate for Tuple {
    fn duplicate(&self, _alloc: Global) -> Result<Self, Memory> {
        Ok(Tuple {
            count: self.count,
            numbers: self.numbers,
        })
    }
}

// Tuples are compared as lists of their numbers are.

impl PartialEq for Tuple {
    ghost eq = { ⟦<Items<i64> as PartialEq>⟧.eq };

    ghost laws = { lists_per (partial_equiv_from_equiv int_eq_equiv) };

    fn eq(&self, other: &Tuple) -> bool {
        self.as_slice() == other.as_slice()
    }
}

impl Eq for Tuple {
    ghost laws = { lists_equiv int_eq_equiv };
}
