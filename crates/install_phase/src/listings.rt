// The writes of all that finish, one after the other.
ghost use Rattle.std.specs.Prelude.{◌≡◌, ◌++◌, ◌∷◌, [], reverse, IfOk, OnOk, if◌then◌else◌};
ghost use Rattle.batch_rules.specs.Verdicts.{finishes};
ghost use Rattle.install_phase.specs.Dues.{shown};
ghost use Rattle.install_phase.specs.Installs.{written};
ghost use Rattle.install_phase.specs.Writes.{at_shards, is_one};

use crate::dues::{Due, Write};
use aria_base::{Changes, Memory};
use batch_rules::verdicts::Verdict;
use std::alloc::Global;
use tbl_rows::{SHARDS, Shard, shard_of};

/// The writes of all that finish to keys of these shards, in the order in which they are to be made: request after
/// request, and of each the last one first, since of a key that stands twice the first row stays.
pub(crate) fn dues_of<'a>(
    alloc: Global,
    shards: &[Shard],
    list: &'a [Changes],
    verdicts: &[Verdict],
) -> Result<Vec<Due<'a>>, Memory>
    ensures { IfOk result (λ dues. shown dues.items ≡ at_shards shards.now (written 1 list.now verdicts.now)) }
{
    let mut dues = Vec::with_capacity(alloc, room_for(shards, list))?;
    let mut rest = verdicts;
    for changes in list {
        let Some((verdict, later)) = rest.split_first() else {
            return Ok(dues);
        };
        rest = later;
        append_if(&mut dues, shards, changes.as_slice(), verdict)?;
    }
    Ok(dues)
}

/// For how many writes there is room at first: the shards' part of all, and a quarter more, since shards differ.
fn room_for(shards: &[Shard], list: &[Changes]) -> usize {
    let mut count: usize = 0;
    for changes in list {
        count = count.saturating_add(changes.as_slice().len());
    }
    let part = (count / usize::from(SHARDS)).saturating_mul(shards.len());
    part.saturating_add(part / 4)
}

/// Appends the writes of a request, where it finishes.
fn append_if<'a>(
    dues: &mut Vec<Due<'a>>,
    shards: &[Shard],
    changes: &'a [Write],
    verdict: &Verdict,
) -> Result<(), Memory>
    ensures { OnOk result (shown dues.new.items ≡ shown dues.old.items ++ at_shards shards.now (if finishes verdict.now then reverse changes.now else [])) }
{
    match verdict {
        Verdict::Finish { raw: _ } => append(dues, shards, changes),
        Verdict::Wait(_) => Ok(()),
    }
}

/// Appends the writes of a request, the last one first.
fn append<'a>(dues: &mut Vec<Due<'a>>, shards: &[Shard], changes: &'a [Write]) -> Result<(), Memory>
    ensures { OnOk result (shown dues.new.items ≡ shown dues.old.items ++ at_shards shards.now (reverse changes.now)) }
{
    let mut rest = changes;
    while let Some((write, before)) = rest.split_last() {
        rest = before;
        append_if_own(dues, shards, write)?;
    }
    Ok(())
}

/// Appends a write where it is to a key of the shards.
fn append_if_own<'a>(
    dues: &mut Vec<Due<'a>>,
    shards: &[Shard],
    write: &'a Write,
) -> Result<(), Memory>
    ensures { OnOk result (shown dues.new.items ≡ shown dues.old.items ++ at_shards shards.now (write.now ∷ [])) }
{
    let shard = shard_of(&write.0);
    if !is_one(shards, shard) {
        return Ok(());
    }
    dues.push(Due { shard, write })?;
    Ok(())
}

/// Whether one of the shards has this number.
fn is_one(shards: &[Shard], number: u8) -> bool
    ensures { result ≡ is_one shards.now number }
{
    for shard in shards {
        if shard.number() == number {
            return true;
        }
    }
    false
}
