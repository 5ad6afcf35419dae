// What a worker does with its hand.
ghost use Rattle.std.specs.Prelude.{◌≡◌, ◌<◌, ◌≤◌, ◌++◌, ◌+◌, ◌-◌, ◌/◌, [], ◌∷◌, length, map, IfOk, OnOk, IsTrue};
ghost use Rattle.baton_crew.specs.Plans.{AreNexts};
ghost use Rattle.baton_crew.specs.Seats.{IsBoard};
ghost use Rattle.baton_crew.specs.Hands.{IsHand, IsApart, IsStand, IsHandAt};

use crate::courses::Course;
use crate::hands::{hand_on, lift};
use crate::lists::Lists;
use crate::rules::View;
use crate::steps::{Board, split, take, unite};
use aria_base::{Memory, Pace, Place as Step};
use atomic_table::Seat;
use std::alloc::Global;
use work_crew::Done;

/// From so many ready items on a worker shares them with another one. Two is the least that can be shared. More
/// would save the start of a thread where runs are short, and leave workers idle where they are long.
const LEAST_TO_SHARE: usize = 2;

/// A worker's seat, the items that are its to run, and what the items came to that it has run.
#[derive(Drop)]
pub(crate) struct Hand<S, O, W> {
    pub(crate) seat: Seat<S, View<W>>,
    pub(crate) ready: Vec<u32>,
    pub(crate) done: Vec<Done<O>>,
}

/// The hand of a worker on this course.
pub(crate) type HandOf<W> = Hand<<W as Course>::Row, <W as Course>::Output, W>;

/// Runs the item, which was the last one that is ready.
fn run_item<W: Course>(
    alloc: Global,
    board: &Board<W>,
    work: &W,
    nexts: &Lists<u32>,
    hand: &mut HandOf<W>,
    item: u32,
) -> Result<(), Memory>
    requires board { IsBoard (W.plan board.now.key) board.now.table_id.words board.now.table_id.slots }
    requires work { board.now.key ≡ work.now }
    requires nexts { AreNexts (W.plan work.now) 0 nexts.now }
    requires own { hand.old.seat.table_id ≡ board.now.table_id }
    requires hand { IsHand (W.plan work.now) (W.gives work.now) work.now hand.old.seat.me (hand.old.ready.items ++ item ∷ []) hand.old.done.items }
    requires apart { IsApart (W.plan work.now) hand.old.seat.me.0.taken }
    ensures own { OnOk result (hand.new.seat.table_id ≡ board.now.table_id) }
    ensures hand { OnOk result (IsHand (W.plan work.now) (W.gives work.now) work.now hand.new.seat.me hand.new.ready.items hand.new.done.items) }
    ensures apart { OnOk result (IsApart (W.plan work.now) hand.new.seat.me.0.taken) }
    ensures share { OnOk result (hand.new.seat.me.0.share ≡ hand.old.seat.me.0.share) }
    ensures one { OnOk result (length hand.new.done.items ≡ length hand.old.done.items + 1) }
{
    let touched = work.touches(item);
    take(board, &mut hand.seat, item);
    let mut rows = lift(alloc, board, work, &mut hand.seat, touched)?;
    let output = work.run(item, &mut rows)?;
    let next = nexts.list((work.items() - 1 - item) as usize);
    hand_on(
        board,
        work,
        &mut hand.seat,
        &mut hand.ready,
        touched,
        next,
        rows,
    )?;
    hand.done.push(Done {
        place: item,
        output,
    })?;
    Ok(())
}

/// Runs items until nothing is ready, or, unless the worker is alone, until there is something to share.
pub(crate) fn labour<W: Course, P: Pace>(
    alloc: Global,
    board: &Board<W>,
    work: &W,
    nexts: &Lists<u32>,
    hand: HandOf<W>,
    who: u32,
    alone: bool,
    pace: &P,
) -> Result<HandOf<W>, Memory>
    requires stand { IsStand W.plan board.now.key work.now board.now.table_id nexts.now }
    requires hand { IsHandAt W.plan W.gives work.now board.now.table_id hand }
    requires apart { IsApart (W.plan work.now) hand.seat.me.0.taken }
    ensures hand { IfOk result (IsHandAt W.plan W.gives work.now board.now.table_id) }
    ensures apart { IfOk result (λ h. IsApart (W.plan work.now) h.seat.me.0.taken) }
    ensures share { IfOk result (λ h. h.seat.me.0.share ≡ hand.seat.me.0.share) }
    ensures nothing { IsTrue alone → IfOk result (λ h. h.ready.items ≡ []) }
{
    let mut hand = hand;
    while alone || hand.ready.len() < LEAST_TO_SHARE {
        let Some(item) = hand.ready.pop() else {
            break;
        };
        pace.at(who, Step::Rerun);
        run_item(alloc, board, work, nexts, &mut hand, item)?;
    }
    Ok(hand)
}

/// The hand without half of what is ready, and another one that has that.
pub(crate) fn part<W: Course>(
    alloc: Global,
    board: &Board<W>,
    work: &W,
    hand: HandOf<W>,
) -> Result<(HandOf<W>, HandOf<W>), Memory>
    requires board { IsBoard (W.plan board.now.key) board.now.table_id.words board.now.table_id.slots }
    requires hand { IsHandAt W.plan W.gives work.now board.now.table_id hand }
    requires share { 2 ≤ hand.seat.me.0.share }
    ensures hand { IfOk result (λ r. IsHandAt W.plan W.gives work.now board.now.table_id r.0) }
    ensures taken { IfOk result (λ r. (r.0.seat.me.0.taken ≡ hand.seat.me.0.taken) × (r.1.seat.me.0.taken ≡ [])) }
    ensures other { IfOk result (λ r. IsHandAt W.plan W.gives work.now board.now.table_id r.1) }
    ensures shares { IfOk result (λ r. (r.0.seat.me.0.share ≡ hand.seat.me.0.share - hand.seat.me.0.share / 2) × (r.1.seat.me.0.share ≡ hand.seat.me.0.share / 2)) }
{
    let _ = work;
    let mut hand = hand;
    let half = hand.ready.len() / 2;
    let ready = hand.ready.split_off(half)?;
    let seat = split(board, &mut hand.seat);
    let other = Hand {
        seat,
        ready,
        done: Vec::new(alloc),
    };
    Ok((hand, other))
}

/// The hand with all that the other one has done.
pub(crate) fn whole<W: Course>(
    board: &Board<W>,
    work: &W,
    hand: HandOf<W>,
    other: HandOf<W>,
) -> Result<HandOf<W>, Memory>
    requires board { IsBoard (W.plan board.now.key) board.now.table_id.words board.now.table_id.slots }
    requires hand { IsHandAt W.plan W.gives work.now board.now.table_id hand × (hand.ready.items ≡ []) }
    requires other { IsHandAt W.plan W.gives work.now board.now.table_id other × (other.ready.items ≡ []) }
    ensures hand { IfOk result (IsHandAt W.plan W.gives work.now board.now.table_id) }
    ensures share { IfOk result (λ h. h.seat.me.0.share ≡ hand.seat.me.0.share + other.seat.me.0.share) }
    ensures nothing { IfOk result (λ h. h.ready.items ≡ []) }
{
    let _ = work;
    let mut hand = hand;
    let Hand {
        seat,
        ready: _,
        mut done,
    } = other;
    unite(board, &mut hand.seat, seat);
    hand.done.append(&mut done)?;
    Ok(hand)
}
