// A batch of which nothing was given yet.
ghost use Rattle.std.specs.Prelude.{◌≡◌, [], None, map, replicate, IfOk};
ghost use Rattle.node_rules.specs.Dues.{no_sets};
ghost use Rattle.node_batch.specs.Holds.{no_hold};
ghost use Rattle.node_batch.specs.Letters.{sets_of};
ghost use Rattle.node_batch.specs.OwnRuns.{told_of};

use crate::holds::Hold;
use crate::letters::Part;
use crate::own_runs::OwnRun;
use aria_base::{Changes, Keys, Memory};
use batch_rules::verdicts::Verdict;
use std::alloc::Global;

/// For each of so many requests, that it was told nothing.
pub fn no_runs(alloc: Global, many: usize) -> Result<Vec<OwnRun>, Memory>
    ensures { IfOk result (λ runs. map told_of runs.items ≡ replicate many []) }
{
    let mut runs = Vec::with_capacity(alloc, many)?;
    for _ in 0..many {
        runs.push(OwnRun::new(alloc))?;
    }
    Ok(runs)
}

/// For each of so many requests, an empty part.
pub fn no_parts(alloc: Global, many: usize) -> Result<Vec<Part>, Memory>
    ensures { IfOk result (λ parts. map sets_of parts.items ≡ replicate many no_sets) }
{
    let mut parts = Vec::with_capacity(alloc, many)?;
    for _ in 0..many {
        parts.push(no_part(alloc))?;
    }
    Ok(parts)
}

/// A part without keys.
fn no_part(alloc: Global) -> Part
    ensures { sets_of result ≡ no_sets }
{
    Part {
        reads: Keys::from_vec(Vec::new(alloc)),
        rows: Changes::from_vec(Vec::new(alloc)),
    }
}

/// For each of so many requests, that no node told a holder.
pub fn no_holds(alloc: Global, many: usize) -> Result<Vec<Hold>, Memory>
    ensures { IfOk result (λ holds. holds.items ≡ replicate many no_hold) }
{
    let mut holds = Vec::with_capacity(alloc, many)?;
    for _ in 0..many {
        holds.push(Hold {
            waw: None,
            raw: None,
            war: None,
            heard: 0,
        })?;
    }
    Ok(holds)
}

/// For each of so many requests, no verdict.
pub fn no_fates(alloc: Global, many: usize) -> Result<Vec<Option<Verdict>>, Memory>
    ensures { IfOk result (λ fates. fates.items ≡ replicate many None) }
{
    let mut fates = Vec::with_capacity(alloc, many)?;
    for _ in 0..many {
        fates.push(None)?;
    }
    Ok(fates)
}
