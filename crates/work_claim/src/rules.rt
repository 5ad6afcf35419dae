// The rule that the table of the claim word keeps, and what its three kinds of step tell.
use atomic_table::{Join, Play, Split, TableRule};
use std::collections::LinkedList;

/// A seat's share of the right to close, and the numbers drawn by it. No value of it is made.
pub struct View {
    pub share: u64,
    pub drawn: LinkedList<u64>,
}

/// The numbers below the word have one seat each that drew them; the rest are nobody's. The key is the bound
/// below which draws answer a number.
pub struct DrawnOnce;

impl TableRule<(), View, u32> for DrawnOnce {
    ghost use Rattle.work_claim.specs.Rule.{Kept, first_view};

    ghost holds = { Kept };

    ghost first = { λ _. first_view };
}

/// A step on the claim word: the seat has drawn its number, and the next one stands there.
pub struct Draws;

impl Play<(), View> for Draws {
    ghost use Rattle.work_claim.specs.Rule.{drew};

    ghost then = { drew };
}

/// A new seat has one share, and has drawn nothing.
pub struct OneShare;

impl Split<View> for OneShare {
    ghost use Rattle.work_claim.specs.Rule.{one_less, one};

    ghost left = { one_less };

    ghost right = { λ _. one };
}

/// Of two seats one gets the shares and the numbers of both, and the other has none left.
pub struct Together;

impl Join<View> for Together {
    ghost use Rattle.work_claim.specs.Rule.{sum_of, spent_view};

    ghost both = { sum_of };

    ghost spent = { spent_view };
}
