// Two workers who meet.
use aria_base::{Pace, Place};
use std::sync::atomic::{AtomicU64, Ordering};
use std::thread::yield_now;

/// How often a worker looks at most whether the other one is there.
const TURNS: u64 = 100_000_000;

/// Holds each of two workers back before its first step of one kind until the other one has come to
/// its own.
#[derive(Drop)]
pub struct Gate {
    place: Place,
    first: AtomicU64,
    second: AtomicU64,
    missed: AtomicU64,
    steps: AtomicU64,
}

impl Gate {
    /// It stands before the steps of this kind. Worker 0 is the first, each other one the second.
    pub fn before(place: Place) -> Gate {
        Gate {
            place,
            first: AtomicU64::new(0),
            second: AtomicU64::new(0),
            missed: AtomicU64::new(0),
            steps: AtomicU64::new(0),
        }
    }

    /// Whether a worker waited in vain, so that one did all of these steps alone.
    pub fn was_missed(&self) -> bool {
        self.missed.load(Ordering::SeqCst) != 0
    }

    /// How many steps of this kind there were.
    pub fn steps(&self) -> u64 {
        self.steps.load(Ordering::SeqCst)
    }

    /// Comes to the gate, and waits there for the other worker.
    fn meet(&self, mine: &AtomicU64, other: &AtomicU64) {
        mine.store(1, Ordering::SeqCst);
        for _ in 0..TURNS {
            if other.load(Ordering::SeqCst) == 1 {
                return;
            }
            yield_now();
        }
        self.missed.store(1, Ordering::SeqCst);
    }
}

impl Pace for Gate {
    fn at(&self, who: u32, place: Place) {
        if place != self.place {
            return;
        }
        self.steps.fetch_add(1, Ordering::SeqCst);
        if who == 0 {
            self.meet(&self.first, &self.second);
        } else {
            self.meet(&self.second, &self.first);
        }
    }
}
