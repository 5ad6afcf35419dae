// What a run leaves, put into the tables.
ghost use Rattle.std.specs.Prelude.{◌≡◌, None, OnOk};
ghost use Rattle.batch_rules.specs.Touches.{overwritten};
ghost use Rattle.batch_rules.specs.Trees.{set_at};

use aria_base::{Changes, Key, Memory, Row};
use tbl_rows::Tables;

/// Puts and deletes the rows of these changes, which move into the tables. The last one comes first: of a key
/// that stands twice the first row stays. Where there is no memory, a part of them may be made.
pub fn put_changes(tables: &mut Tables, changes: Changes) -> Result<(), Memory>
    ensures { OnOk result (tables.new ≡ overwritten tables.old changes) }
{
    let mut changes = changes.into_vec();
    while let Some((key, row)) = changes.pop() {
        put_change(tables, key, row)?;
    }
    Ok(())
}

/// Sets what stands at the key: this row, or none.
pub fn put_change(tables: &mut Tables, key: Key, row: Option<Row>) -> Result<(), Memory>
    ensures { OnOk result (tables.new ≡ set_at tables.old key row) }
{
    match row {
        Some(row) => tables.put(key, row)?,
        None => remove(tables, key),
    }
    Ok(())
}

/// Deletes the row at the key, if there is one.
fn remove(tables: &mut Tables, key: Key)
    ensures { tables.new ≡ set_at tables.old key None }
{
    tables.delete(&key);
}
