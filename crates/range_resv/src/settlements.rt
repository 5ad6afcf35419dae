// A batch from the end of its commit phase to its answer.
ghost use Rattle.std.specs.Prelude.{◌≡◌, ◌≤◌, ℕ, List, map, length, IfOk};
ghost use Rattle.aria_base.specs.Orders.{Cells, Database};
ghost use Rattle.aria_base.specs.declared.calls.Request.{Request};
ghost use Rattle.aria_base.specs.declared.keys.Key.{Key as Named};
ghost use Rattle.aria_base.specs.declared.limits.TheConstants.{MOST_REQUESTS};
ghost use Rattle.batch_core.specs.Steps.{number_in};
ghost use Rattle.reorder.specs.Orders.{placed_tids};
ghost use Rattle.range_resv.specs.Answers.{lines_in};
ghost use Rattle.range_resv.specs.Lists.{waiting_among};

use crate::answers::lines_of;
use crate::lists::{numbers_of, waiting_of};
use aria_base::{Items, Memory};
use batch_core::{Order, Replies, numbers_in};
use batch_rules::verdicts::Verdict;
use proc_lang::End;
use range_rules::NumberedWork;
use reorder::place;
use std::alloc::Global;

/// What a batch answers, and what it carries over.
#[derive(Drop)]
pub(crate) struct Settled {
    /// The works that wait for the next batch.
    pub carried: Vec<NumberedWork>,
    /// A line for each work of the list.
    pub lines: Replies,
    /// The works that finished, as they count as run.
    pub order: Order,
}

/// The answer of a batch by the ends of its works on the start, and by their verdicts.
pub(crate) fn settle(
    alloc: Global,
    list: Vec<NumberedWork>,
    ends: Vec<End>,
    verdicts: &[Verdict],
) -> Result<Settled, Memory>
    requires few { length verdicts.now ≤ MOST_REQUESTS }
    ensures lines { IfOk result (λ s. s.lines ≡ (let numbers = map (λ w. w.q) list.items in lines_in (number_in numbers) ends.items numbers verdicts.now)) }
    ensures order { IfOk result (λ s. s.order ≡ map (number_in (map (λ w. w.q) list.items)) (placed_tids verdicts.now)) }
    ensures carried { IfOk result (λ s. s.carried.items ≡ waiting_among list.items verdicts.now) }
{
    let numbers = numbers_of(alloc, &list)?;
    let lines = lines_of(alloc, &numbers, ends, verdicts)?;
    let tids = place(alloc, verdicts)?;
    let order = numbers_in(alloc, &numbers, &tids)?;
    let carried = waiting_of(alloc, list, verdicts)?;
    Ok(Settled {
        carried,
        lines: Items::from_vec(lines),
        order: Items::from_vec(order),
    })
}
