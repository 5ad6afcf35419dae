// Steps that are counted.
use aria_base::{Pace, Place};
use std::sync::atomic::{AtomicU64, Ordering};

/// Counts the steps of each kind.
#[derive(Drop)]
pub struct Steps {
    executes: AtomicU64,
    marks: AtomicU64,
    draws: AtomicU64,
    installs: AtomicU64,
    reruns: AtomicU64,
}

impl Steps {
    /// No steps so far.
    pub fn new() -> Steps {
        Steps {
            executes: AtomicU64::new(0),
            marks: AtomicU64::new(0),
            draws: AtomicU64::new(0),
            installs: AtomicU64::new(0),
            reruns: AtomicU64::new(0),
        }
    }

    /// How many steps of this kind there were.
    pub fn told(&self, place: Place) -> u64 {
        self.counter(place).load(Ordering::SeqCst)
    }

    fn counter(&self, place: Place) -> &AtomicU64 {
        match place {
            Place::Execute => &self.executes,
            Place::Mark => &self.marks,
            Place::Draw => &self.draws,
            Place::Install => &self.installs,
            Place::Rerun => &self.reruns,
        }
    }
}

impl Pace for Steps {
    fn at(&self, _who: u32, place: Place) {
        self.counter(place).fetch_add(1, Ordering::SeqCst);
    }
}
