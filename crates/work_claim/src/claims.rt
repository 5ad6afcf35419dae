// Numbers that any number of threads draw, each number once.
ghost use Rattle.std.specs.Prelude.{◌≡◌, ℕ, ◌+◌, ◌-◌, ◌<◌, ◌≤◌, [], ◌++◌, All, IfOk, IfSome, IfNone, OnOk, OnErr};
ghost use Rattle.aria_base.specs.Shares.{all_shares};
ghost use Rattle.work_claim.specs.Seats.{Drew, IsEachOnce};

use crate::rules::{DrawnOnce, Draws, OneShare, Together, View};
use aria_base::Memory;
use atomic_table::{Seat, Table};
use std::alloc::Global;
use std::marker::Model;

// Seats are split and joined on word 0. The other is the next number.
const NEXT: usize = 1;

/// Numbers to draw, through a `&` by any number of threads at once, each with a seat of its own.
#[derive(Drop)]
pub struct Claims {
    table: Table<(), View, u32, DrawnOnce, Global>,
    bound: u32,
}

impl Model for Claims {
    ghost use Rattle.work_claim.specs.Seats.{Offer};

    ghost Value = { Offer };

    ghost use Rattle.work_claim.specs.Seats.{IsLaid};

    ghost view = { λ c. record { table = c.table.shared.table_id; bound = c.bound } };

    ghost invariant = { λ c. IsLaid c.table.shared.table_id.words c.table.shared.table_id.slots c.table.shared.key c.bound };
}

/// The right to draw, with no bytes. It may go to another thread.
#[derive(Drop)]
pub struct ClaimSeat {
    seat: Seat<(), View>,
}

impl Model for ClaimSeat {
    ghost use Rattle.work_claim.specs.Seats.{Drawer};

    ghost Value = { Drawer };

    ghost use Rattle.work_claim.specs.Seats.{IsSeated};

    ghost view = { λ s. record { table = s.seat.table_id; share = s.seat.me.0.share; drawn = s.seat.me.0.drawn } };

    ghost invariant = { λ s. IsSeated s.seat.me };
}

impl Claims {
    /// The numbers from 0 to `n` - 1, none of them drawn.
    pub fn make(alloc: Global, n: u32) -> Result<(Claims, ClaimSeat), Memory>
        ensures claims { IfOk result (λ made. made.0 ≡ record { table = made.0.table; bound = n }) }
        ensures seat { IfOk result (λ made. made.1 ≡ record { table = made.0.table; share = all_shares; drawn = [] }) }
    {
        let (table, seat) = Table::of_words(alloc, &[0, 0], &n)?;
        Ok((Claims { table, bound: n }, ClaimSeat { seat }))
    }

    /// Draws the next number. None where it is not below the bound: then all are drawn.
    pub fn draw(&self, seat: &mut ClaimSeat) -> Option<u32>
        requires own { seat.old.table ≡ self.now.table }

        // Neither a draw of this seat nor one of a seat joined to it has answered None.
        requires below { All (λ x. x < self.now.bound) seat.old.drawn }
        ensures some { IfSome result (λ x. (x < self.now.bound) × Drew seat.old x seat.new) }
        ensures none { IfNone result ((x : ℕ) × (self.now.bound ≤ x) × Drew seat.old x seat.new) }
    {
        let next = self
            .table
            .shared
            .fetch_add::<Draws>(&mut seat.seat, NEXT, 1);
        if next < u64::from(self.bound) {
            Some(next as u32)
        } else {
            None
        }
    }

    /// A second seat, for another thread. It has drawn nothing.
    pub fn split(&self, seat: &mut ClaimSeat) -> Result<ClaimSeat, Memory>
        requires own { seat.old.table ≡ self.now.table }
        requires below { All (λ x. x < self.now.bound) seat.old.drawn }
        requires share { 2 ≤ seat.old.share }
        ensures parent { OnOk result (seat.new ≡ record seat.old { share = seat.old.share - 1 }) }
        ensures child { IfOk result (λ other. other ≡ record { table = seat.old.table; share = 1; drawn = [] }) }
        ensures err { OnErr result (seat.new ≡ seat.old) }
    {
        let other = self.table.shared.split_seat::<OneShare>(&mut seat.seat);
        Ok(ClaimSeat { seat: other })
    }

    /// Gives the other's numbers and shares to the seat.
    pub fn join(&self, seat: &mut ClaimSeat, other: ClaimSeat)
        requires own { seat.old.table ≡ self.now.table }
        requires other { other.table ≡ self.now.table }
        ensures { seat.new ≡ record { table = seat.old.table; share = seat.old.share + other.share; drawn = seat.old.drawn ++ other.drawn } }
    {
        self.table
            .shared
            .join_seat::<Together>(&mut seat.seat, other.seat);
    }

    /// How many draws there were, once all other seats were joined to this one. Their numbers are
    /// those from 0 on, each once.
    pub fn close(self, seat: ClaimSeat) -> u64
        requires own { seat.table ≡ self.table }
        requires whole { seat.share ≡ all_shares }
        ensures { IsEachOnce seat.drawn result }
    {
        let Claims { table, .. } = self;
        let closed = table.close_with(seat.seat);
        let draws = closed.word(NEXT);
        closed.free();
        draws
    }
}
