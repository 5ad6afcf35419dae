// The numbers of a batch's keys and prefixes.
ghost use Rattle.std.specs.Prelude.{◌≤◌, length, IfOk};
ghost use Rattle.std.specs.FinMap as fin;
ghost use Rattle.aria_base.specs.Orders.{key_cmp};
ghost use Rattle.aria_base.specs.declared.limits.TheConstants.{MOST_REQUESTS, MOST_WORKERS};
ghost use Rattle.batch_rules.specs.Numberings.{IsOneToOneOn};
ghost use Rattle.dep_rules.specs.Decisions.{reads_of, writes_of};
ghost use Rattle.dep_rules.specs.Numberings.{IsNumbered};
ghost use Rattle.key_numbering.specs.Numbers.{number_in, numbers_of};
ghost use Rattle.key_numbering.specs.declared.kept.TheConstants.{MOST_TOUCHED};

use aria_base::Memory;
use dep_rules::{Numbered, Sets};
use key_numbering::{may_be_numbered, number};
use std::alloc::Global;
use std::thread::Threads;
use touch_numbers::number_by;

/// The sets by numbers in the place of keys, which are at most 2,560,000 different ones. By workers, where the sets name keys no more often;
/// else by one. An error: there was no memory.
pub(crate) fn number_all<T: Threads + Sync>(
    rt: &T,
    alloc: Global,
    sets: &[Sets],
    workers: u32,
) -> Result<Numbered, Memory>
    requires count { length sets.now ≤ MOST_REQUESTS }
    requires few { fin.len (numbers_of sets.now) ≤ MOST_TOUCHED }
    requires workers { (1 ≤ workers) × (workers ≤ MOST_WORKERS) }
    ensures lists { IfOk result (IsNumbered key_cmp reads_of writes_of (fin.keys (numbers_of sets.now)) (number_in (numbers_of sets.now)) sets.now) }
    ensures one_to_one { IfOk result (λ _. IsOneToOneOn key_cmp (fin.keys (numbers_of sets.now)) (number_in (numbers_of sets.now))) }
    ensures few { IfOk result (λ n. n.keys ≤ MOST_TOUCHED) }
{
    if may_be_numbered(sets) {
        return number_by(rt, alloc, sets, workers);
    }
    let numbered = number(alloc, sets)?;
    Ok(numbered)
}
