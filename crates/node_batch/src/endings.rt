// The end of a batch at a node.
ghost use Rattle.std.specs.Prelude.{◌≡◌, ◌≤◌, ◌++◌, ◌∷◌, [], if◌then◌else◌, map, length, take, drop, IfOk, OnOk};
ghost use Rattle.batch_rules.specs.Trees.{set_at};
ghost use Rattle.batch_rules.specs.Touches.{overwritten};
ghost use Rattle.node_rules.specs.Worlds.{finishes_by};
ghost use Rattle.node_batch.specs.Endings.{all_installed, all_waiting};
ghost use Rattle.node_batch.specs.Letters.{sets_of};

use crate::letters::Part;
use aria_base::{Duplicate, Key, Memory, Request, Row};
use batch_rules::verdicts::Verdict;
use std::alloc::Global;
use tbl_rows::Tables;

/// Puts or deletes the rows of each part whose request finishes.
pub fn install_all(
    alloc: Global,
    rows: &mut Tables,
    parts: &[Part],
    fates: &[Option<Verdict>],
) -> Result<(), Memory>
    requires { length fates.now ≡ length parts.now }
    ensures { OnOk result (rows.new ≡ all_installed rows.old (map sets_of parts.now) fates.now) }
{
    for place in 0..parts.len() {
        install_one(alloc, rows, &parts[place], &fates[place])?;
    }
    Ok(())
}

/// Puts or deletes the rows of the part where its request finishes.
fn install_one(
    alloc: Global,
    rows: &mut Tables,
    part: &Part,
    fate: &Option<Verdict>,
) -> Result<(), Memory>
    ensures { OnOk result (rows.new ≡ (if finishes_by fate.now then overwritten rows.old part.now.rows else rows.old)) }
{
    if !finishes(fate) {
        return Ok(());
    }
    install(alloc, rows, part.rows.as_slice())?;
    Ok(())
}

/// Whether the verdict was told, and the request finishes.
fn finishes(fate: &Option<Verdict>) -> bool
    ensures { result ≡ finishes_by fate.now }
{
    match fate {
        Some(Verdict::Finish { raw: _ }) => true,
        Some(Verdict::Wait(_)) => false,
        None => false,
    }
}

/// Puts or deletes each of these rows. Of a key that stands twice the first one counts.
pub fn install(
    alloc: Global,
    rows: &mut Tables,
    writes: &[(Key, Option<Row>)],
) -> Result<(), Memory>
    ensures { OnOk result (rows.new ≡ overwritten rows.old writes.now) }
{
    let mut place = writes.len();
    'writes: while place > 0 {
        place -= 1;
        set_row(alloc, rows, &writes[place])?;
    }
    Ok(())
}

/// Puts a copy of the row at the key, or deletes what is there.
fn set_row(alloc: Global, rows: &mut Tables, write: &(Key, Option<Row>)) -> Result<(), Memory>
    ensures { OnOk result (rows.new ≡ set_at rows.old write.now.0 write.now.1) }
{
    match &write.1 {
        Some(row) => {
            rows.put(write.0.duplicate(alloc)?, row.duplicate(alloc)?)?;
            return Ok(());
        }
        None => {
            let _was = rows.delete(&write.0);
            return Ok(());
        }
    }
}

/// The requests that do not finish, in their order.
pub fn waiting_of(
    alloc: Global,
    list: &[Request],
    fates: &[Option<Verdict>],
) -> Result<Vec<Request>, Memory>
    requires { length fates.now ≡ length list.now }
    ensures { IfOk result (λ left. left.items ≡ all_waiting list.now fates.now) }
{
    let mut left = Vec::new(alloc);
    for place in 0..list.len() {
        push_waiting(alloc, &mut left, &list[place], &fates[place])?;
    }
    Ok(left)
}

/// Appends the request where it does not finish.
fn push_waiting(
    alloc: Global,
    left: &mut Vec<Request>,
    request: &Request,
    fate: &Option<Verdict>,
) -> Result<(), Memory>
    ensures { OnOk result (left.new.items ≡ left.old.items ++ all_waiting (request.now ∷ []) (fate.now ∷ [])) }
{
    if finishes(fate) {
        return Ok(());
    }
    left.push(request.duplicate(alloc)?)?;
    Ok(())
}
