// Tables that are taken, or are not.
use crate::mixes::Mix;

/// What becomes of tables that are to be taken.
#[derive(Drop)]
pub enum Taken {
    /// They are sound.
    Ready(Mix),
    /// They are not, and this fails first.
    Fails {
        /// The number of the condition: 1 to 4 are those of the audit, and 5 is that no line belongs to an order that its
        /// district has still to number.
        condition: u8,
        /// The warehouse's number.
        w: i64,
        /// The district's number; 0 where the condition is one of a warehouse.
        d: i64,
    },
}
