// Parts of a routine.
use aria_base::{Key, Row};
use range_rules::{Action, Seen};

/// What a part of a routine comes to: it asks for something, or goes on by these answers with this number.
#[derive(Drop)]
pub(crate) enum Turn<'a> {
    Asks(Action),
    Goes(&'a [Seen], i64),
}

/// The same of a part that finds the lines of an order.
#[derive(Drop)]
pub(crate) enum Lines<'a> {
    Asks(Action),
    Goes(&'a [Seen], &'a [(Key, Row)]),
}
