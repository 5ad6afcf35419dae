// Draws by one thread and by several: each number is drawn once.
ghost use Rattle.std.specs.Prelude.{◌≡◌, ◌<◌, All, IfOk};
ghost use Rattle.std.specs.Thread.{IsSync};

use crate::checks::{are_in_turn, holds};
use aria_base::Memory;
use std::alloc::Global;
use std::test::Fail;
use std::thread::{Threads, join};
use work_claim::{ClaimSeat, Claims};

const COUNT: u32 = 10_000;

// Draws until the numbers run out.
fn draw_all(
    claims: &Claims,
    mut seat: ClaimSeat,
    alloc: Global,
) -> Result<(ClaimSeat, Vec<u32>), Memory>
    requires own { seat.table ≡ claims.now.table }
    requires below { All (λ x. x < claims.now.bound) seat.drawn }
    ensures { IfOk result (λ r. (r.0.table ≡ seat.table) × (r.0.share ≡ seat.share)) }
{
    let mut numbers = Vec::new(alloc);
    for _ in 0..=COUNT {
        let Some(number) = claims.draw(&mut seat) else {
            break;
        };
        numbers.push(number)?;
    }
    Ok((seat, numbers))
}

// Draws by so many threads and this one.
fn draw_by<R: Threads + Sync>(
    rt: &R,
    claims: &Claims,
    mut seat: ClaimSeat,
    others: u32,
    alloc: Global,
) -> Result<(ClaimSeat, Vec<u32>), Memory>
    requires own { seat.table ≡ claims.now.table }
    requires below { All (λ x. x < claims.now.bound) seat.drawn }
    requires share { others < seat.share }
    ensures { IfOk result (λ r. (r.0.table ≡ seat.table) × (r.0.share ≡ seat.share)) }
{
    if others == 0 {
        return draw_all(claims, seat, alloc);
    }
    let fewer = others - 1;
    let other = claims.split(&mut seat)?;
    let (theirs, ours) = join(
        rt,
        move || draw_all(claims, other, alloc),
        move || -> Result<(ClaimSeat, Vec<u32>), Memory>
            requires { IsSync R.row × (seat.table ≡ claims.now.table) × All (λ x. x < claims.now.bound) seat.drawn × (fewer < seat.share) }
            ensures { IfOk result (λ r. (r.0.table ≡ seat.table) × (r.0.share ≡ seat.share)) }
        { draw_by(rt, claims, seat, fewer, alloc) },
    );
    let (other, drawn) = theirs?;
    let (mut seat, mut numbers) = ours?;
    claims.join(&mut seat, other);
    numbers.extend_from_slice(&drawn)?;
    Ok((seat, numbers))
}

#[test]
fn four_threads_draw_each_number_once(rt: HostRuntime) -> Result<(), Fail> {
    let (claims, seat) = Claims::make(rt.alloc(), COUNT)?;
    let (seat, mut numbers) = draw_by(&rt, &claims, seat, 3, rt.alloc())?;
    numbers.sort_unstable();
    let each_once = are_in_turn(&numbers, COUNT as usize);
    holds(&rt, "each number is drawn once", 4, each_once);
    // Each thread was once answered None.
    holds(&rt, "the draws", 4, claims.close(seat) == 10_004);
    Ok(())
}

#[test]
fn of_no_numbers_none_is_drawn(rt: HostRuntime) -> Result<(), Fail> {
    let (claims, mut seat) = Claims::make(rt.alloc(), 0)?;
    holds(&rt, "nothing is drawn", 0, claims.draw(&mut seat).is_none());
    holds(&rt, "the draws", 0, claims.close(seat) == 1);
    Ok(())
}

/// Whether this number was drawn.
fn is_number(drawn: Option<u32>, wanted: u32) -> bool {
    match drawn {
        Some(number) => number == wanted,
        None => false,
    }
}

#[test]
fn a_seat_draws_upwards_beside_another(rt: HostRuntime) -> Result<(), Fail> {
    let (claims, mut first) = Claims::make(rt.alloc(), u32::MAX)?;
    let mut second = claims.split(&mut first)?;
    let one = claims.draw(&mut first);
    let two = claims.draw(&mut second);
    claims.join(&mut first, second);
    let draws = claims.close(first);
    holds(&rt, "the first draws", 0, is_number(one, 0));
    holds(&rt, "the second draws", 1, is_number(two, 1));
    holds(&rt, "the draws", 2, draws == 2);
    Ok(())
}
