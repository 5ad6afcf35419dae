// The parts of a key. One or two lie in the key itself, so that most keys are short, and a comparison of them follows
// no pointer but that of a text.
ghost use Rattle.std.specs.Prelude.{◌≡◌, ◌≤◌, ◌∷◌, [], length, IfOk};
ghost use Rattle.std.specs.Cmp.Lexicographic.{lists_equiv, lists_agrees, lists_total, lists_ties, lists_per, lists_po};
ghost use Rattle.std.specs.Hash.{items_Alike};
ghost use Rattle.aria_base.specs.contracts.keys.PartPartialEq.TheImpl.Laws as eq_laws;
ghost use Rattle.aria_base.specs.contracts.keys.PartEq.TheImpl.Laws as equiv_laws;
ghost use Rattle.aria_base.specs.contracts.keys.PartPartialOrd.TheImpl.Laws as partial_laws;
ghost use Rattle.aria_base.specs.contracts.keys.PartOrd.TheImpl.Laws as order_laws;
ghost use Rattle.aria_base.specs.contracts.keys.PartHash.TheImpl.Laws as hash_laws;
ghost use Rattle.aria_base.specs.declared.limits.TheConstants.{FEWEST_PARTS, MOST_PARTS};

use crate::copies::Duplicate;
use crate::keys::Part;
use crate::lists::{Items, duplicate_all};
use crate::memory::Memory;
use std::alloc::Global;
use std::cmp::Ordering;
use std::hash::{Hash, Hasher};
use std::marker::Model;

/// The parts of a key, from the left: one to five. A contract sees the list of them.
#[derive(Debug, Drop)]
pub struct Parts {
    held: Held,
}

/// The parts where they lie. With room for five in place a key had twice as many bytes, and runs took a tenth longer.
#[derive(Debug, Drop)]
enum Held {
    One([Part; 1]),
    Two([Part; 2]),
    More(Vec<Part>),
}

impl Model for Parts {
    ghost use Rattle.std.specs.Prelude.{List};
    ghost use Rattle.aria_base.specs.declared.keys.Part.{Part as Plain};
    ghost use Rattle.aria_base.specs.Held.{held_parts, IsHeld};

    ghost Value = { List Plain };

    ghost view = { λ a. held_parts a.held };

    ghost invariant = { λ a. IsHeld a.held };
}

impl Parts {
    /// The single part.
    pub fn one(a: Part) -> Parts
        ensures { result ≡ a ∷ [] }
    {
        Parts {
            held: Held::One([a]),
        }
    }

    /// The two parts.
    pub fn two(a: Part, b: Part) -> Parts
        ensures { result ≡ a ∷ b ∷ [] }
    {
        Parts {
            held: Held::Two([a, b]),
        }
    }

    /// The three parts. An error: there was no memory.
    pub fn three(alloc: Global, a: Part, b: Part, c: Part) -> Result<Parts, Memory>
        ensures { IfOk result (λ parts. parts ≡ a ∷ b ∷ c ∷ []) }
    {
        Ok(Parts::from_vec(vec![in alloc; a, b, c]?))
    }

    /// The four parts. An error: there was no memory.
    pub fn four(alloc: Global, a: Part, b: Part, c: Part, d: Part) -> Result<Parts, Memory>
        ensures { IfOk result (λ parts. parts ≡ a ∷ b ∷ c ∷ d ∷ []) }
    {
        Ok(Parts::from_vec(vec![in alloc; a, b, c, d]?))
    }

    /// The five parts. An error: there was no memory.
    pub fn five(alloc: Global, a: Part, b: Part, c: Part, d: Part, e: Part) -> Result<Parts, Memory>
        ensures { IfOk result (λ parts. parts ≡ a ∷ b ∷ c ∷ d ∷ e ∷ []) }
    {
        Ok(Parts::from_vec(vec![in alloc; a, b, c, d, e]?))
    }

    /// The list of these parts, of which there are one to five. No memory.
    pub fn from_vec(items: Vec<Part>) -> Self
        requires low { FEWEST_PARTS ≤ length items.items }
        requires high { length items.items ≤ MOST_PARTS }
        ensures { result ≡ items.items }
    {
        if items.len() > 2 {
            return Parts {
                held: Held::More(items),
            };
        }
        let mut rest = items.into_iter();
        let Some(a) = rest.next() else {
            unreachable!();
        };
        match rest.next() {
            Some(b) => Parts::two(a, b),
            None => Parts::one(a),
        }
    }

    /// Equal parts, of which there are one to five. An error: there was no memory.
    pub fn copy_of(alloc: Global, parts: &[Part]) -> Result<Parts, Memory>
        requires low { FEWEST_PARTS ≤ length parts.now }
        requires high { length parts.now ≤ MOST_PARTS }
        ensures { IfOk result (λ copy. copy ≡ parts.now) }
    {
        match parts {
            [a] => Ok(Parts::one(a.duplicate(alloc)?)),
            [a, b] => Ok(Parts::two(a.duplicate(alloc)?, b.duplicate(alloc)?)),
            more => Ok(Parts::from_vec(duplicate_all(alloc, more)?)),
        }
    }

    /// The parts, in their order.
    pub fn as_slice(&self) -> &[Part]
        ensures list { result.now ≡ self.now }
        ensures low { FEWEST_PARTS ≤ length self.now }
        ensures high { length self.now ≤ MOST_PARTS }
    {
        match &self.held {
            Held::One(parts) => parts.as_slice(),
            Held::Two(parts) => parts.as_slice(),
            Held::More(parts) => parts.as_slice(),
        }
    }
}

impl Duplicate for Parts {
    fn duplicate(&self, alloc: Global) -> Result<Self, Memory> {
        Parts::copy_of(alloc, self.as_slice())
    }
}

// Parts are compared and hashed as a list of them is.

impl PartialEq for Parts {
    ghost eq = { ⟦<Items<Part> as PartialEq>⟧.eq };

    ghost laws = { lists_per eq_laws.laws-law };

    fn eq(&self, other: &Parts) -> bool {
        self.as_slice() == other.as_slice()
    }
}

impl Eq for Parts {
    ghost laws = { lists_equiv equiv_laws.laws-law };
}

impl PartialOrd for Parts {
    ghost partial_cmp = { ⟦<Items<Part> as PartialOrd>⟧.partial_cmp };

    ghost laws = { lists_po partial_laws.laws-law };

    fn partial_cmp(&self, other: &Parts) -> Option<Ordering> {
        self.as_slice().partial_cmp(other.as_slice())
    }
}

impl Ord for Parts {
    ghost cmp = { ⟦<Items<Part> as Ord>⟧.cmp };

    ghost total = { lists_total order_laws.total-law };

    ghost matches_partial_cmp = { lists_agrees order_laws.matches_partial_cmp-law };

    ghost matches_eq = { lists_ties ⟦<Part as Ord>⟧.cmp order_laws.matches_eq-law };

    fn cmp(&self, other: &Parts) -> Ordering {
        self.as_slice().cmp(other.as_slice())
    }
}

impl Hash for Parts {
    ghost hash_input = { ⟦<Items<Part> as Hash>⟧.hash_input };

    ghost respects_eq = { (items_Alike (record { fed = hash_laws.respects_eq-law })).fed };

    fn hash<H: Hasher>(&self, state: &mut H) {
        self.as_slice().hash(state);
    }
}
