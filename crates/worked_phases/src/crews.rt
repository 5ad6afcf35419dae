// What no clause shows: that a work is done, and that out of memory is told. `meetings` has two workers at work at
// once, and counts the steps that they tell of.
ghost use Rattle.std.specs.Prelude.{◌≡◌, ◌/◌, ◌<◌, ◌≤◌};

use crate::checks::{are_in_turn, holds};
use aria_base::{Free, Memory, Place};
use std::alloc::Global;
use std::test::Fail;
use work_crew::{Task, Work, carry_out, gather};

/// At each place half of its number.
#[derive(Drop)]
struct Halves {
    count: u32,
}

impl Task for Halves {
    type Output = u32;

    ghost count = { λ halves. halves.count };

    ghost gives = { λ _ place output. output ≡ place / 2 };

    fn len(&self) -> u32 {
        self.count
    }

    fn step(&self) -> Place {
        Place::Execute
    }

    fn run(&self, place: u32) -> Result<u32, Memory> {
        Ok(place / 2)
    }
}

/// A task whose last place finds no memory.
#[derive(Drop)]
struct Starved {
    count: u32,
}

impl Task for Starved {
    type Output = u32;

    ghost count = { λ starved. starved.count };

    ghost gives = { λ _ place output. output ≡ place };

    fn len(&self) -> u32 {
        self.count
    }

    fn step(&self) -> Place {
        Place::Rerun
    }

    fn run(&self, place: u32) -> Result<u32, Memory> {
        if place == self.count - 1 {
            return Err(Memory);
        }
        Ok(place)
    }
}

/// The work whose hands list their places.
#[derive(Drop)]
struct Lists {
    alloc: Global,
    count: u32,
}

impl Work for Lists {
    type Hand = Vec<u32>;

    ghost count = { λ lists. lists.count };

    ghost did = { λ _ hand _ places. hand.items ≡ places };

    fn len(&self) -> u32 {
        self.count
    }

    fn run(&self, hand: &mut Vec<u32>, place: u32, _who: u32) -> Result<(), Memory> {
        hand.push(place)?;
        Ok(())
    }

    fn split(&self, _hand: &mut Vec<u32>) -> Result<Vec<u32>, Memory> {
        Ok(Vec::new(self.alloc))
    }

    fn join(&self, hand: &mut Vec<u32>, mut other: Vec<u32>) -> Result<(), Memory> {
        hand.append(&mut other)?;
        Ok(())
    }
}

/// Whether these are half of 0, 1, 2 and so on, and so many.
fn are_halves(halves: &[u32], count: usize) -> bool {
    halves.len() == count
        && halves
            .iter()
            .enumerate()
            .all(|(place, half)| place / 2 == *half as usize)
}

#[test]
fn outputs_come_to_their_places(rt: HostRuntime) -> Result<(), Fail> {
    for count in [0, 3, 1_000_u32] {
        for workers in [1, 2, 7, 64_u32] {
            let halves = gather(&rt, rt.alloc(), &Halves { count }, workers, &Free)?;
            let right = are_halves(&halves, count as usize);
            holds(&rt, "the halves", workers, right);
        }
    }
    Ok(())
}

#[test]
fn want_of_memory_at_one_place_is_told(rt: HostRuntime) {
    for workers in [1, 4_u32] {
        let found = gather(&rt, rt.alloc(), &Starved { count: 9 }, workers, &Free);
        holds(&rt, "want of memory", workers, found.is_err());
    }
}

#[test]
fn hands_run_each_place_once(rt: HostRuntime) -> Result<(), Fail> {
    let alloc = rt.alloc();
    let lists = Lists { alloc, count: 500 };
    let mut places = carry_out(&rt, alloc, &lists, Vec::new(alloc), 4, &Free)?;
    places.sort_unstable();
    holds(&rt, "each place once", 4, are_in_turn(&places, 500));
    Ok(())
}
