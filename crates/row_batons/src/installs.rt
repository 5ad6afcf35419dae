// The last rows of all slots put into the tables.
ghost use Rattle.std.specs.Prelude.{◌≡◌, ◌<◌, ◌++◌, ◌∷◌, [], length, OnOk};
ghost use Rattle.batch_rules.specs.Touches.{overwritten};
ghost use Rattle.row_batons.specs.Windows.{paired};

use aria_base::{Key, Memory, Row};
use tbl_rows::Tables;
use tbl_snapshot::put_change;

/// Puts the rows to their keys.
pub(crate) fn install(
    tables: &mut Tables,
    mut keys: Vec<Key>,
    mut rows: Vec<Option<Row>>,
) -> Result<(), Memory>
    requires { length rows.items ≡ length keys.items }
    ensures { OnOk result (tables.new ≡ overwritten tables.old (paired keys.items rows.items)) }
{
    while let Some(key) = keys.pop() {
        let row = last_of(&mut rows);
        put_change(tables, key, row)?;
    }
    Ok(())
}

/// Takes the last row off.
fn last_of(rows: &mut Vec<Option<Row>>) -> Option<Row>
    requires { 0 < length rows.old.items }
    ensures { rows.old.items ≡ rows.new.items ++ result ∷ [] }
{
    rows.pop().unwrap()
}
