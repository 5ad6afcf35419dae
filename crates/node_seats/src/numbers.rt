// The numbers of the messages that a node keeps, for clauses alone.
ghost use Rattle.std.specs.Prelude.{◌≡◌, ◌++◌, ◌∷◌, []};
ghost use Rattle.node_seats.specs.Listed.{listed};

use std::snapshot::Snapshot;

/// The numbers of messages, in the order in which they were given. Code keeps a `Snapshot` of them, which has no bytes.
#[derive(Drop)]
pub enum Numbers {
    /// Nothing was given.
    None,
    /// One more, behind these.
    Behind(Snapshot<Numbers>, usize),
}

impl Numbers {
    /// Of a node that nothing was given to.
    pub fn none() -> Snapshot<Numbers>
        ensures { listed result.value ≡ [] }
    {
        Snapshot::of(&Numbers::None)
    }

    /// With this number behind the earlier ones.
    pub fn and(earlier: Snapshot<Numbers>, number: usize) -> Snapshot<Numbers>
        ensures { listed result.value ≡ listed earlier.value ++ number ∷ [] }
    {
        let more = Numbers::Behind(earlier, number);
        Snapshot::of(&more)
    }
}
