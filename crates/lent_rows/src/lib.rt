//! A window on a database that lends its rows.
//!
//! A read through an `Access` hands out a row of its own, which costs a block and a copy of every column. A window
//! that also lends the row where it lies lets a run copy the columns that it asks for.
#![tactic(auto)]

ghost use Rattle.std.specs.Prelude.{◌≡◌, OnOk, OnErr, ℕ};
ghost use Rattle.std.specs.Option.{option_copied};
ghost use Rattle.std.specs.FinMap as fin;
ghost use Rattle.aria_base.specs.declared.keys.Key.{Key as Name};
ghost use Rattle.batch_rules.specs.Plays.{after_read};

use aria_base::{Key, Memory, Row};
use proc_lang::Access;

/// A window that lends its rows. A read is a look, and then a note that takes the key: where both are made it is
/// the read of [`Access`]. Both take the key's mark, a number that the window works out of the key alone, so that
/// it is worked out once.
pub trait Lends: Access {
    /// The mark of a key.
    ghost mark_of: { Name → ℕ };

    /// The mark of the key. No memory.
    fn mark(&self, key: &Key) -> u64
        ensures { result ≡ mark_of key.now };

    /// The map's row at the key. No memory.
    fn look(&self, mark: u64, key: &Key) -> Option<&Row>
        requires { mark ≡ mark_of key.now }
        ensures { option_copied result ≡ fin.get (Self.seen self.now).map key.now };

    /// Notes the key as read where it stands in neither list.
    fn note(&mut self, mark: u64, key: Key) -> Result<(), Memory>
        requires { mark ≡ mark_of key }
        ensures noted { OnOk result (Self.seen self.new ≡ after_read (Self.seen self.old) key) }
        ensures kept { OnErr result (Self.seen self.new ≡ Self.seen self.old) };
}
