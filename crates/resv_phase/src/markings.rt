// The work in which each hand is a seat, and its marks are those of the requests at its places.
ghost use Rattle.std.specs.Prelude.{◌≡◌, ◌≤◌, length};
ghost use Rattle.aria_base.specs.declared.limits.TheConstants.{MOST_REQUESTS};
ghost use Rattle.resv_phase.specs.Marked.{HasMarked};

use crate::marks::mark_all;
use aria_base::{Memory, Pace};
use dep_rules::Numbered;
use resv_words::{WordSeat, Words};
use work_crew::Work;

/// The requests of a batch, and the words that are marked for them.
#[derive(Drop)]
pub(crate) struct Marking<'a, P> {
    pub(crate) numbered: &'a Numbered,
    pub(crate) words: &'a Words,
    pub(crate) pace: &'a P,
    ghost same_keys: { numbered.now.keys ≡ words.now.keys },
    ghost few: { length numbered.now.reads ≤ MOST_REQUESTS },
}

impl<'a, P: Pace> Work for Marking<'a, P> {
    type Hand = WordSeat;

    ghost count = { λ m. length m.numbered.now.reads };

    ghost did = { λ m. HasMarked m.numbered.now m.words.now.table };

    fn len(&self) -> u32 {
        self.numbered.len()
    }

    fn run(&self, seat: &mut WordSeat, place: u32, who: u32) -> Result<(), Memory> {
        mark_all(self.words, seat, self.numbered, place + 1, who, self.pace);
        Ok(())
    }

    fn split(&self, seat: &mut WordSeat) -> Result<WordSeat, Memory> {
        self.words.split(seat)
    }

    fn join(&self, seat: &mut WordSeat, other: WordSeat) -> Result<(), Memory> {
        self.words.join(seat, other);
        Ok(())
    }
}
