// The window through which a run sees a database.
ghost use Rattle.std.specs.Prelude.{◌≡◌, IfOk, OnOk, OnErr};
ghost use Rattle.std.specs.FinMap as fin;
ghost use Rattle.aria_base.specs.Orders.{key_cmp, Cells};
ghost use Rattle.batch_rules.specs.Plays.{Seen, after_read, after_write};

use aria_base::{Key, Memory, Row};

/// A window on a database: a map from keys to rows, and a record of what a run did with it. The record is
/// two lists, each in the order in which its keys came up. In one are the keys that were read while the run
/// had not written there, in the other those that it wrote, each with what it was left with: a row, or none.
/// Where there was no memory, the window is as before.
pub trait Access {
    /// The map, and the two lists.
    ghost seen: { Self → Seen key_cmp Cells };

    /// The map's row at the key. The map stays; the key is noted as read where it stands in neither
    /// list.
    fn read(&mut self, key: &Key) -> Result<Option<Row>, Memory>
        ensures row { IfOk result (λ row. row ≡ fin.get (seen self.old).map key.now) }
        ensures read { OnOk result (seen self.new ≡ after_read (seen self.old) key.now) }
        ensures kept { OnErr result (seen self.new ≡ seen self.old) };

    /// Sets the map's row at the key, or removes it. The key is noted as written.
    fn write(&mut self, key: Key, row: Option<Row>) -> Result<(), Memory>
        ensures written { OnOk result (seen self.new ≡ after_write (seen self.old) key row) }
        ensures kept { OnErr result (seen self.new ≡ seen self.old) };
}
