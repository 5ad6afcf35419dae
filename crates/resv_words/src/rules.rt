// The rule that the table of words keeps, and what its four kinds of step tell.
use aria_base::Mark;
use atomic_table::{Join, Play, Split, TableRule};
use std::collections::LinkedList;
use std::snapshot::Snapshot;

/// What the words were made over. The old numbers are for clauses alone.
#[derive(Drop)]
pub struct Origin {
    pub old: Snapshot<Vec<u64>>,
    pub tag: u64,
}

/// A seat's share of the right to close, and the marks made through it. No value of it is made.
pub struct View {
    pub share: u64,
    pub marks: LinkedList<Mark>,
}

/// Where all marks are made, a word has come down to the least number that was put on it, or kept its start
/// value if that is less.
pub struct LeastNumbers;

impl TableRule<(), View, Origin> for LeastNumbers {
    ghost use Rattle.resv_words.specs.Rule.{Kept, first_view};

    ghost holds = { λ origin. Kept origin.old.value.items origin.tag };

    ghost first = { λ _. first_view };
}

/// A step on the word of a key's writers: the seat has made a mark more, of one that writes.
pub struct MarksWrite;

impl Play<(), View> for MarksWrite {
    ghost use Rattle.std.specs.Prelude.{true};
    ghost use Rattle.resv_words.specs.Rule.{marked};

    ghost then = { marked true };
}

/// A step on the word of a key's readers: the seat has made a mark more, of one that reads.
pub struct MarksRead;

impl Play<(), View> for MarksRead {
    ghost use Rattle.std.specs.Prelude.{false};
    ghost use Rattle.resv_words.specs.Rule.{marked};

    ghost then = { marked false };
}

/// A new seat has one share, and begins with the marks of the seat that it comes from.
pub struct OneShare;

impl Split<View> for OneShare {
    ghost use Rattle.resv_words.specs.Rule.{one_less, one};

    ghost left = { one_less };

    ghost right = { one };
}

/// Of two seats one gets the shares and the marks of both, and the other has none left.
pub struct Together;

impl Join<View> for Together {
    ghost use Rattle.resv_words.specs.Rule.{sum_of, spent_view};

    ghost both = { sum_of };

    ghost spent = { spent_view };
}
