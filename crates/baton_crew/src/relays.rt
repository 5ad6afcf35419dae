// All items of a course, by several workers.
ghost use Rattle.std.specs.Prelude.{◌≡◌, ◌<◌, ◌≤◌, ◌+◌, ◌-◌, ◌/◌, ℕ, List, [], length, map, All, IfOk};
ghost use Rattle.aria_base.specs.Shares.{all_shares};
ghost use Rattle.aria_base.specs.declared.limits.TheConstants.{MOST_WORKERS};
ghost use Rattle.atomic_table.specs.Table.{Final, Seen, opening};
ghost use Rattle.work_crew.specs.Gathered.{AreGiven};
ghost use Rattle.baton_crew.specs.Courses.{IsCourse, AreRows};
ghost use Rattle.baton_crew.specs.Rule.{Kept, first_view};
ghost use Rattle.baton_crew.specs.Hands.{HasShares, HasEnded};

use crate::courses::Course;
use crate::crews::{Bench, spread};
use crate::items::{Hand, HandOf, labour, part, whole};
use crate::lists::Lists;
use crate::plans::{counts, queues};
use crate::rules::{Batons, View};
use crate::steps::{Board, Place};
use aria_base::{Memory, Pace};
use atomic_table::{Refused, Table};
use std::alloc::Global;
use std::thread::Threads;
use work_crew::in_order;

/// Where workers stand that run the items of a course.
#[derive(Drop)]
struct Stand<'a, W: Course, P> {
    alloc: Global,
    board: &'a Board<W>,
    work: &'a W,
    nexts: &'a Lists<u32>,
    pace: &'a P,
}

impl<'a, W: Course, P: Pace> Bench for Stand<'a, W, P>
where
    W::Row: Send,
    W::Output: Send,
{
    type Hand = HandOf<W>;

    ghost has = { λ s. HasShares W.plan W.gives s.board.now.key s.work.now s.board.now.table_id s.nexts.now };

    ghost ended = { λ s. HasEnded W.plan W.gives s.board.now.key s.work.now s.board.now.table_id s.nexts.now };

    fn labour(&self, hand: HandOf<W>, who: u32, alone: bool) -> Result<(HandOf<W>, bool), Memory> {
        let hand = labour(
            self.alloc, self.board, self.work, self.nexts, hand, who, alone, self.pace,
        )?;
        let ended = hand.ready.len() == 0;
        Ok((hand, ended))
    }

    fn part(&self, hand: HandOf<W>) -> Result<(HandOf<W>, HandOf<W>), Memory> {
        part(self.alloc, self.board, self.work, hand)
    }

    fn whole(&self, hand: HandOf<W>, other: HandOf<W>) -> Result<HandOf<W>, Memory> {
        whole(self.board, self.work, hand, other)
    }
}

/// Runs all items of a course, each once, on the rows that stand in its slots: the rows that they leave, and what
/// each item came to, in their order. It is as if the items ran one after the other.
///
/// There are 1 to 64 workers. An item runs as soon as all that come before it in the queues of its slots have
/// passed these on; no worker waits. The pace is told `Rerun` before each run. An error: there was no memory, and
/// the rows are gone.
pub fn relay<W: Course + Sync, P: Pace + Sync, R: Threads + Sync>(
    rt: &R,
    alloc: Global,
    work: &W,
    rows: Vec<W::Row>,
    workers: u32,
    pace: &P,
) -> Result<(Vec<W::Row>, Vec<W::Output>), Memory>
where
    W::Row: Send,
    W::Output: Send,
    requires course { IsCourse (W.plan work.now) }
    requires rows { AreRows (W.plan work.now) 0 rows.items }
    requires workers { (1 ≤ workers) × (workers ≤ MOST_WORKERS) }
    ensures rows { IfOk result (λ r. AreRows (W.plan work.now) (W.plan work.now).items r.0.items) }
    ensures given { IfOk result (λ r. AreGiven (W.gives work.now) (W.plan work.now).items r.1.items) }
{
    let (nexts, firsts) = queues(alloc, work)?;
    let (words, ready) = counts(alloc, work, &firsts)?;
    let (table, seat) = set_up(alloc, work, &words, rows)?;
    let hand = Hand {
        seat,
        ready,
        done: Vec::new(alloc),
    };
    let stand = Stand {
        alloc,
        board: &table.shared,
        work,
        nexts: &nexts,
        pace,
    };
    let Hand {
        seat,
        ready: _,
        done,
    } = spread(rt, &stand, hand, 0, workers)?;
    let rows = taken_down(alloc, table, seat, work.slots())?;
    let outputs = in_order(alloc, work.items(), done)?;
    Ok((rows, outputs))
}

/// The slots and counts as workers share them.
type Whole<W> = Table<<W as Course>::Row, View<W>, W, Batons<W>, Global>;

/// The board of a course, and its first seat.
fn set_up<W: Course>(
    alloc: Global,
    work: &W,
    words: &[u64],
    rows: Vec<W::Row>,
) -> Result<(Whole<W>, Place<W>), Memory>
    requires { Kept (W.plan work.now) (opening words.now rows.items (first_view (W.plan work.now) work.now)) }
    ensures counts { IfOk result (λ t. (t.0.shared.table_id.words ≡ length words.now) × (t.0.shared.table_id.slots ≡ length rows.items)) }
    ensures key { IfOk result (λ t. t.0.shared.key ≡ work.now) }
    ensures seat { IfOk result (λ t. (t.1.table_id ≡ t.0.shared.table_id) × (t.1.me ≡ (first_view (W.plan work.now) work.now, []))) }
{
    match Table::new(alloc, words, rows, work) {
        Ok(made) => Ok(made),
        Err(Refused { slots: _ }) => Err(Memory),
    }
}

/// The rows that stand in the slots at the end.
fn taken_down<W: Course>(
    alloc: Global,
    table: Whole<W>,
    seat: Place<W>,
    slots: usize,
) -> Result<Vec<W::Row>, Memory>
    requires own { seat.table_id ≡ table.shared.table_id }
    requires slots { table.shared.table_id.slots ≡ slots }
    ensures { IfOk result (λ rows. (length rows.items ≡ slots) × ((words : List ℕ) × Final (Seen (Kept (W.plan table.shared.key)) seat.id seat.me.0) words rows.items)) }
{
    let mut rows = Vec::with_capacity(alloc, slots)?;
    let mut closed = table.close_with(seat);
    for slot in 0..slots {
        rows.push(closed.take(slot)).unwrap();
    }
    closed.free();
    Ok(rows)
}
