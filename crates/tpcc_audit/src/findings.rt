// What an audit finds.
ghost use Rattle.std.specs.Prelude.{◌≡◌};
ghost use Rattle.tpcc_audit.specs.Conditions.{either};

/// The finding of an audit. Amounts and numbers are whole numbers of 128 bits, so that no sum over rows
/// is too large for them.
#[derive(Clone, Copy, Debug, PartialEq, Eq)]
pub enum Audit {
    /// All conditions hold.
    Holds,
    /// The first one that does not.
    Fails {
        /// The number of the condition, from 1 to 4.
        condition: u8,
        /// The warehouse's number.
        w: i64,
        /// The district's number; 0 where the condition is one of a warehouse.
        d: i64,
        /// What the other rows come to.
        wanted: i128,
        /// What stands there.
        found: i128,
    },
}

impl Audit {
    /// This finding, or the next one where this one holds.
    pub(crate) fn or(self, next: Audit) -> Audit
        ensures { result ≡ either self next }
    {
        match self {
            Audit::Holds => next,
            Audit::Fails { .. } => self,
        }
    }
}
