// The first parts of a key.
ghost use Rattle.std.specs.Prelude.{◌≡◌, ◌<◌, ◌∷◌, [], length};
ghost use Rattle.std.specs.Cmp.Lexicographic.{lists_equiv, lists_per};
ghost use Rattle.aria_base.specs.contracts.keys.PartPartialEq.TheImpl.Laws as eq_laws;
ghost use Rattle.aria_base.specs.contracts.keys.PartEq.TheImpl.Laws as equiv_laws;
ghost use Rattle.aria_base.specs.declared.limits.TheConstants.{MOST_PARTS};

use aria_base::{Duplicate, Items, Memory, Part};
use std::alloc::Global;
use std::marker::Model;

/// The first parts of a key, from the left: none to four, since a key may have one more. A contract sees the list of them.
#[derive(Debug, Drop)]
pub struct Front {
    held: Held,
}

/// The parts where they lie.
#[derive(Debug, Drop)]
enum Held {
    None,
    One([Part; 1]),
    Two([Part; 2]),
    Three([Part; 3]),
    Four([Part; 4]),
}

impl Model for Front {
    ghost use Rattle.std.specs.Prelude.{List};
    ghost use Rattle.aria_base.specs.declared.keys.Part.{Part as Plain};
    ghost use Rattle.range_rules.specs.Fronts.{held_parts, IsHeld};

    ghost Value = { List Plain };

    ghost view = { λ a. held_parts a.held };

    ghost invariant = { λ a. IsHeld a.held };
}

impl Front {
    /// No parts.
    pub fn none() -> Front
        ensures { result ≡ [] }
    {
        Front { held: Held::None }
    }

    /// The single part.
    pub fn one(a: Part) -> Front
        ensures { result ≡ a ∷ [] }
    {
        Front {
            held: Held::One([a]),
        }
    }

    /// The two parts.
    pub fn two(a: Part, b: Part) -> Front
        ensures { result ≡ a ∷ b ∷ [] }
    {
        Front {
            held: Held::Two([a, b]),
        }
    }

    /// The three parts.
    pub fn three(a: Part, b: Part, c: Part) -> Front
        ensures { result ≡ a ∷ b ∷ c ∷ [] }
    {
        Front {
            held: Held::Three([a, b, c]),
        }
    }

    /// The four parts.
    pub fn four(a: Part, b: Part, c: Part, d: Part) -> Front
        ensures { result ≡ a ∷ b ∷ c ∷ d ∷ [] }
    {
        Front {
            held: Held::Four([a, b, c, d]),
        }
    }

    /// The parts, in their order.
    pub fn as_slice(&self) -> &[Part]
        ensures list { result.now ≡ self.now }
        ensures few { length self.now < MOST_PARTS }
    {
        match &self.held {
            Held::None => &[],
            Held::One(parts) => parts.as_slice(),
            Held::Two(parts) => parts.as_slice(),
            Held::Three(parts) => parts.as_slice(),
            Held::Four(parts) => parts.as_slice(),
        }
    }
}

impl Duplicate for Front {
    fn duplicate(&self, alloc: Global) -> Result<Self, Memory> {
        match self.as_slice() {
            [] => Ok(Front::none()),
            [a] => Ok(Front::one(a.duplicate(alloc)?)),
            [a, b] => Ok(Front::two(a.duplicate(alloc)?, b.duplicate(alloc)?)),
            [a, b, c] => Ok(Front::three(
                a.duplicate(alloc)?,
                b.duplicate(alloc)?,
                c.duplicate(alloc)?,
            )),
            [a, b, c, d] => Ok(Front::four(
                a.duplicate(alloc)?,
                b.duplicate(alloc)?,
                c.duplicate(alloc)?,
                d.duplicate(alloc)?,
            )),
            _ => unreachable!(),
        }
    }
}

// They are compared as a list of them is.

impl PartialEq for Front {
    ghost eq = { ⟦<Items<Part> as PartialEq>⟧.eq };

    ghost laws = { lists_per eq_laws.laws-law };

    fn eq(&self, other: &Front) -> bool {
        self.as_slice() == other.as_slice()
    }
}

impl Eq for Front {
    ghost laws = { lists_equiv equiv_laws.laws-law };
}
