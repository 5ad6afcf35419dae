// Workers that draw the places of a work.
ghost use Rattle.std.specs.Prelude.{◌≡◌, ◌≤◌, ◌<◌, ◌+◌, [], IfOk};
ghost use Rattle.std.specs.Thread.{IsSync};
ghost use Rattle.aria_base.specs.Shares.{all_shares};
ghost use Rattle.aria_base.specs.declared.limits.TheConstants.{MOST_WORKERS};
ghost use Rattle.work_crew.specs.Hands.{HasDoneAll, IsPart};

use crate::works::Work;
use aria_base::{Memory, Pace, Place};
use std::alloc::Global;
use std::thread::{Threads, join};
use work_claim::{ClaimSeat, Claims};

/// The first hand after the work, with all that the workers made: each place was run once. There are 1 to 64
/// workers. The pace is told of each draw, and by the work of what a run does. No more threads are started
/// than there are places, and none for one worker. A worker whose thread cannot be started does its part on
/// the thread that was to start it. An error: there was no memory.
pub fn carry_out<W: Work + Sync, P: Pace + Sync, R: Threads + Sync>(
    rt: &R,
    alloc: Global,
    work: &W,
    hand: W::Hand,
    workers: u32,
    pace: &P,
) -> Result<W::Hand, Memory>
    requires workers { (1 ≤ workers) × (workers ≤ MOST_WORKERS) }
    requires fresh { W.did work.now hand all_shares [] }
    ensures { IfOk result (HasDoneAll (W.did work.now) (W.count work.now)) }
{
    let places = work.len();
    let (claims, seat) = Claims::make(alloc, places)?;
    let others = workers.min(places.max(1)) - 1;
    let (seat, hand) = spread(rt, &claims, seat, work, hand, 0, others, pace)?;
    let _draws = claims.close(seat);
    Ok(hand)
}

/// What this worker and `others` more do, until all is drawn.
fn spread<W: Work + Sync, P: Pace + Sync, R: Threads + Sync>(
    rt: &R,
    claims: &Claims,
    mut seat: ClaimSeat,
    work: &W,
    mut hand: W::Hand,
    who: u32,
    others: u32,
    pace: &P,
) -> Result<(ClaimSeat, W::Hand), Memory>
    requires own { seat.table ≡ claims.now.table }
    requires bound { claims.now.bound ≡ W.count work.now }
    requires fresh { (seat.drawn ≡ []) × W.did work.now hand seat.share [] }
    requires share { others < seat.share }
    requires count { who + others < MOST_WORKERS }
    ensures { IfOk result (λ r. IsPart (W.count work.now) (W.did work.now) seat r.0 r.1) }
{
    if others == 0 {
        return labour(claims, seat, work, hand, who, pace);
    }
    let fewer = others - 1;
    let next = who + 1;
    let other_seat = claims.split(&mut seat)?;
    let other_hand = work.split(&mut hand)?;
    let (theirs, ours) = join(
        rt,
        move || -> Result<(ClaimSeat, W::Hand), Memory>
            requires { (other_seat.table ≡ claims.now.table) × (claims.now.bound ≡ W.count work.now) × (other_seat.drawn ≡ []) × W.did work.now other_hand other_seat.share [] }
            ensures { IfOk result (λ r. IsPart (W.count work.entry.now) (W.did work.entry.now) other_seat r.0 r.1) }
        { labour(claims, other_seat, work, other_hand, who, pace) },
        move || -> Result<(ClaimSeat, W::Hand), Memory>
            requires { IsSync R.row × IsSync P.row × IsSync W.row × (seat.table ≡ claims.now.table) × (claims.now.bound ≡ W.count work.now) × (seat.drawn ≡ []) × W.did work.now hand seat.share [] × (fewer < seat.share) × (next + fewer < MOST_WORKERS) }
            ensures { IfOk result (λ r. IsPart (W.count work.entry.now) (W.did work.entry.now) seat r.0 r.1) }
        { spread(rt, claims, seat, work, hand, next, fewer, pace) },
    );
    let (other_seat, other_hand) = theirs?;
    let (mut seat, mut hand) = ours?;
    claims.join(&mut seat, other_seat);
    work.join(&mut hand, other_hand)?;
    Ok((seat, hand))
}

/// What one worker does, until all is drawn.
fn labour<W: Work, P: Pace>(
    claims: &Claims,
    mut seat: ClaimSeat,
    work: &W,
    mut hand: W::Hand,
    who: u32,
    pace: &P,
) -> Result<(ClaimSeat, W::Hand), Memory>
    requires own { seat.table ≡ claims.now.table }
    requires bound { claims.now.bound ≡ W.count work.now }
    requires fresh { (seat.drawn ≡ []) × W.did work.now hand seat.share [] }
    ensures { IfOk result (λ r. IsPart (W.count work.now) (W.did work.now) seat r.0 r.1) }
{
    // No place below this one comes any more.
    let mut least = 0_u64;
    loop {
        pace.at(who, Place::Draw);
        let Some(place) = claims.draw(&mut seat) else {
            break;
        };
        least = u64::from(place) + 1;
        work.run(&mut hand, place, who)?;
    }
    Ok((seat, hand))
}
