// The writes to keys of some shards, made by one worker.
ghost use Rattle.std.specs.Prelude.{◌≡◌, ◌∷◌, [], map, IfOk, OnOk};
ghost use Rattle.batch_rules.specs.Trees.{set_at};
ghost use Rattle.tbl_rows.specs.Shards.{home};
ghost use Rattle.install_phase.specs.Dues.{shown};
ghost use Rattle.install_phase.specs.Writes.{finished};

use crate::dues::{Due, Write};
use crate::listings::dues_of;
use crate::shares::ShardWork;
use aria_base::{Changes, Duplicate, Memory, Pace, Place};
use batch_rules::verdicts::Verdict;
use std::alloc::Global;
use tbl_rows::Shard;

/// The writes of all that finish, which are to be made. They stay where they lie: a worker takes copies of those that it
/// makes. So nothing is dealt and handed out beforehand, and what a put leaves over is mostly the copy's own block,
/// which goes back to the thread that took it. Threads that drop blocks of others wait for their heaps.
#[derive(Drop)]
pub(crate) struct Making<'a, P> {
    pub(crate) alloc: Global,
    /// The writes of each request.
    pub(crate) list: &'a [Changes],
    /// The verdict on each request.
    pub(crate) verdicts: &'a [Verdict],
    pub(crate) pace: &'a P,
}

impl<'a, P: Pace> ShardWork for Making<'a, P> {
    ghost use Rattle.install_phase.specs.Installs.{written};
    ghost use Rattle.install_phase.specs.Writes.{finished};

    ghost after = { λ m. finished (written 1 m.list.now m.verdicts.now) };

    fn run(&self, shards: Vec<Shard>, who: u32) -> Result<Vec<Shard>, Memory> {
        let dues = dues_of(self.alloc, &shards, self.list, self.verdicts)?;
        make_all(self.alloc, shards, &dues, who, self.pace)
    }
}

/// The shards after those of the writes that are to their keys.
fn make_all<P: Pace>(
    alloc: Global,
    shards: Vec<Shard>,
    dues: &[Due],
    who: u32,
    pace: &P,
) -> Result<Vec<Shard>, Memory>
    ensures { IfOk result (λ made. made.items ≡ map (finished (shown dues.now)) shards.items) }
{
    let mut made = Vec::with_capacity(alloc, shards.len())?;
    for shard in shards {
        made.push(make_own(alloc, shard, dues, who, pace)?)?;
    }
    Ok(made)
}

/// The shard after those of the writes that are to its keys.
fn make_own<P: Pace>(
    alloc: Global,
    mut shard: Shard,
    dues: &[Due],
    who: u32,
    pace: &P,
) -> Result<Shard, Memory>
    ensures { IfOk result (λ after. after ≡ finished (shown dues.now) shard) }
{
    for due in dues {
        make_if_own(alloc, &mut shard, due, who, pace)?;
    }
    Ok(shard)
}

/// Makes the write where it is to a key of the shard.
fn make_if_own<P: Pace>(
    alloc: Global,
    shard: &mut Shard,
    due: &Due,
    who: u32,
    pace: &P,
) -> Result<(), Memory>
    ensures { OnOk result (shard.new ≡ finished (due.now.write.now ∷ []) shard.old) }
{
    if due.shard != shard.number() {
        return Ok(());
    }
    pace.at(who, Place::Install);
    make(alloc, shard, due.write)
}

/// Sets the row at a key of the shard, or removes it.
fn make(alloc: Global, shard: &mut Shard, write: &Write) -> Result<(), Memory>
    requires { home write.now.0 ≡ shard.old.number }
    ensures { OnOk result (shard.new ≡ record { number = shard.old.number; rows = set_at shard.old.rows write.now.0 write.now.1 }) }
{
    match &write.1 {
        Some(row) => {
            let _left = shard.put(write.0.duplicate(alloc)?, row.duplicate(alloc)?)?;
            Ok(())
        }
        None => {
            let _was = shard.delete(&write.0);
            Ok(())
        }
    }
}
