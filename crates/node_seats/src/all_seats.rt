// All nodes: as they begin, and their lists with a new batch.
ghost use Rattle.std.specs.Prelude.{◌≡◌, ◌<◌, length, map, slice_get, Some, ℕ, IfOk, OnOk};
ghost use Rattle.std.specs.FinMap as fin;
ghost use Rattle.std.specs.Map.Iter.{deref_pair};
ghost use Rattle.aria_base.specs.Orders.{Database};
ghost use Rattle.node_seats.specs.Seats.{AreFirst, IsFirstSeat, IsLengthened};
ghost use Rattle.node_seats.specs.declared.seats.Seat.{Seat as Place};

use crate::rows_at::put_each;
use crate::seats::Seat;
use aria_base::{Key, Memory, Request, Row};
use node_batch::Site;
use std::alloc::Global;
use tbl_rows::Tables;

/// The nodes with the rows of their keys.
pub fn first_seats(alloc: Global, rows: &Tables, nodes: u32) -> Result<Vec<Seat>, Memory>
    requires { 0 < nodes }
    ensures { IfOk result (λ seats. AreFirst nodes rows.now nodes seats.items) }
{
    // Listing sorts all rows, so it is done once for all nodes.
    let listed = rows.rows()?;
    let mut seats = Vec::with_capacity(alloc, nodes as usize)?;
    for node in 0..nodes {
        seats.push(first_seat(alloc, &listed, nodes, node)?)?;
    }
    Ok(seats)
}

/// The node with those of a database's rows whose keys are at it.
fn first_seat(alloc: Global, listed: &[(&Key, &Row)], nodes: u32, node: u32) -> Result<Seat, Memory>
    requires { 0 < nodes }
    ensures { IfOk result (λ seat. (rows : Database) → map deref_pair listed.now ≡ fin.entries rows → IsFirstSeat nodes rows node seat) }
{
    let mut own = Tables::new(alloc)?;
    put_each(alloc, &mut own, listed, nodes, node)?;
    let site = Site {
        batch: 1,
        node,
        nodes,
    };
    Ok(Seat::begin(alloc, site, own))
}

/// Lengthens the lists of the nodes that completed so many batches.
pub fn lengthen_all(
    alloc: Global,
    seats: &mut Vec<Seat>,
    done: usize,
    new: &[Request],
) -> Result<(), Memory>
    ensures many { OnOk result (length seats.new.items ≡ length seats.old.items) }
    ensures each { OnOk result ((n : ℕ) (s t : Place) → slice_get seats.old.items n ≡ Some s → slice_get seats.new.items n ≡ Some t
        → IsLengthened done new.now s t) }
{
    for place in 0..seats.len() {
        let seat = &mut seats[place];
        seat.lengthen(alloc, done, new)?;
    }
    Ok(())
}
