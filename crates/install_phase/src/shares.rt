// Shards that are shared out among workers.
ghost use Rattle.std.specs.Prelude.{◌≡◌, ◌≤◌, ◌<◌, ◌+◌, map, IfOk};
ghost use Rattle.std.specs.Thread.{IsSync};
ghost use Rattle.aria_base.specs.declared.limits.TheConstants.{MOST_WORKERS};
ghost use Rattle.tbl_rows.specs.Shards.{Piece};

use aria_base::Memory;
use std::thread::{Threads, join};
use tbl_rows::{SHARDS, Shard};

/// What is done to each shard.
pub(crate) trait ShardWork {
    /// What a shard is behind it.
    ghost after: { Self → Piece → Piece };

    /// Some shards behind it, which the worker `who` does.
    fn run(&self, shards: Vec<Shard>, who: u32) -> Result<Vec<Shard>, Memory>
        ensures { IfOk result (λ done. done.items ≡ map (after self.now) shards.items) };
}

/// All shards behind the work, in their order. Each of the workers gets some neighbours, and no more take part than
/// tables have shards. A worker whose thread cannot be started does its part on the thread that was to start it; for
/// one worker none is started.
pub(crate) fn share_out<T: ShardWork + Sync, R: Threads + Sync>(
    rt: &R,
    work: &T,
    shards: Vec<Shard>,
    workers: u32,
) -> Result<Vec<Shard>, Memory>
    requires { 1 ≤ workers }
    ensures { IfOk result (λ done. done.items ≡ map (T.after work.now) shards.items) }
{
    spread(rt, work, shards, 0, workers.min(u32::from(SHARDS)) - 1)
}

/// What this worker and `others` more do.
fn spread<T: ShardWork + Sync, R: Threads + Sync>(
    rt: &R,
    work: &T,
    mut shards: Vec<Shard>,
    who: u32,
    others: u32,
) -> Result<Vec<Shard>, Memory>
    requires { who + others < MOST_WORKERS }
    ensures { IfOk result (λ done. done.items ≡ map (T.after work.now) shards.items) }
{
    if others == 0 {
        return work.run(shards, who);
    }
    let fewer = others - 1;
    let next = who + 1;
    let share = shards.len() / (others as usize + 1);
    let part = shards.split_off(shards.len() - share)?;
    let (theirs, ours) = join(
        rt,
        move || -> Result<Vec<Shard>, Memory>
            ensures { IfOk result (λ done. done.items ≡ map (T.after work.entry.now) part.items) }
        { work.run(part, who) },
        move || -> Result<Vec<Shard>, Memory>
            requires { IsSync R.row × IsSync T.row × (next + fewer < MOST_WORKERS) }
            ensures { IfOk result (λ done. done.items ≡ map (T.after work.entry.now) shards.items) }
        { spread(rt, work, shards, next, fewer) },
    );
    let mut last = theirs?;
    let mut all = ours?;
    all.append(&mut last)?;
    Ok(all)
}
