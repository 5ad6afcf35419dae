// What places come to, each for itself.
ghost use Rattle.std.specs.Prelude.{◌≡◌, ◌≤◌, ◌<◌, ℕ, IfOk};
ghost use Rattle.aria_base.specs.declared.limits.TheConstants.{MOST_WORKERS};
ghost use Rattle.work_crew.specs.Gathered.{AreGiven, IsGathered};

use crate::crews::carry_out;
use crate::outputs::{Done, in_order};
use crate::works::Work;
use aria_base::{Memory, Pace, Place};
use std::alloc::Global;
use std::thread::Threads;

/// What each place of a list comes to.
pub trait Task {
    type Output: Drop + Send;

    /// How many places there are.
    ghost count: { Self → ℕ };

    /// This is what the place comes to.
    ghost gives: { Self → ℕ → Self.Output → Type 0 };

    /// How many places there are.
    fn len(&self) -> u32
        ensures { result ≡ count self.now };

    /// The kind of step that a run is, of which the pace is told before each.
    fn step(&self) -> Place;

    /// What the place comes to.
    fn run(&self, place: u32) -> Result<Self::Output, Memory>
        requires { place < count self.now }
        ensures { IfOk result (λ output. gives self.now place output) };
}

// The work in which each hand keeps the outputs of its places.
#[derive(Drop)]
struct Gathering<'a, T, P> {
    alloc: Global,
    task: &'a T,
    pace: &'a P,
}

impl<'a, T: Task, P: Pace> Work for Gathering<'a, T, P> {
    type Hand = Vec<Done<T::Output>>;

    ghost count = { λ g. T.count g.task.now };

    ghost did = { λ g hand _ places. IsGathered (T.gives g.task.now) hand.items places };

    fn len(&self) -> u32 {
        self.task.len()
    }

    fn run(&self, hand: &mut Vec<Done<T::Output>>, place: u32, who: u32) -> Result<(), Memory> {
        self.pace.at(who, self.task.step());
        let output = self.task.run(place)?;
        hand.push(Done { place, output })?;
        Ok(())
    }

    fn split(&self, _hand: &mut Vec<Done<T::Output>>) -> Result<Vec<Done<T::Output>>, Memory> {
        Ok(Vec::new(self.alloc))
    }

    fn join(
        &self,
        hand: &mut Vec<Done<T::Output>>,
        mut other: Vec<Done<T::Output>>,
    ) -> Result<(), Memory> {
        hand.append(&mut other)?;
        Ok(())
    }
}

/// What all places come to, in their order. The workers, from 1 to 64, draw the places as [`carry_out`]
/// says, and the pace is told of each run as the step that the task names. An error: there was no memory.
pub fn gather<T: Task + Sync, P: Pace + Sync, R: Threads + Sync>(
    rt: &R,
    alloc: Global,
    task: &T,
    workers: u32,
    pace: &P,
) -> Result<Vec<T::Output>, Memory>
    requires workers { (1 ≤ workers) × (workers ≤ MOST_WORKERS) }
    ensures { IfOk result (λ outputs. AreGiven (T.gives task.now) (T.count task.now) outputs.items) }
{
    let gathering = Gathering { alloc, task, pace };
    let done = carry_out(rt, alloc, &gathering, Vec::new(alloc), workers, pace)?;
    in_order(alloc, task.len(), done)
}
