//! The numbers of the keys that the requests of a batch touch.
//!
//! Words, marks and decisions go by numbers in the place of keys, so that a key is compared and hashed
//! once where its number is found. [`number`] numbers the keys of one batch; [`Kept`] keeps the numbers
//! from one batch to the next, and its workers look the kept keys up at once.
//!
//! ```text
//! Sets of all requests ──workers──> lists of numbers ───────────────> Numbered
//!                           │                                            ^
//!                         Kept      keys that are not kept, one by one   │
//!                           └───────────────────────────────────────────-┘
//! ```
//!
//! Keys stand in a hash table whose hash is no secret. Where somebody chose keys to crowd a part of the
//! table, the further ones go to an ordered map: a look-up takes time that is bounded in the table and
//! logarithmic in the map.
#![tactic(auto)]

mod hashed;
mod kept;
mod lookups;
mod numbering;
mod ordered;
mod places;

pub use kept::{Kept, MOST_KEPT, MOST_TOUCHED};
pub use numbering::{may_be_numbered, number, number_ordered};
