//! Requests that wait are run again, wave after wave.
//!
//! A request that runs again may touch no more than the keys that it declared, those of its first run.
//! Two of them conflict where one declares to write a key that the other declares. The wave of a
//! request is one more than the greatest wave of the earlier ones that it conflicts with. So the
//! requests of a wave do not meet: they run on one snapshot, by several workers, and then their rows
//! are installed. What comes of it is what one request after the other would give, in the order of the
//! list.
//!
//! ```text
//! waiting --waves--> 1 1 2 1 3 ..     a table of the last waves of each key
//!                        |
//!         wave 1 --> run_wave --> settle --> wave 2 --> ..
//!                       |            |
//!              workers, one snapshot |
//!                            rows into the tables, ends to their places
//! ```
//!
//! The name is that of other designs, in which such requests lock their keys in the order of the list.
//! Here no lock is taken: the waves say all that the locks would.
//!
//! Whoever has numbers of the declared keys calls [`waves_numbered`] and [`rerun_numbered`], which find the
//! waves by them; [`waves`] and [`rerun`] find them by the keys. A single worker wants no waves:
//! [`rerun_alone`] runs one request on the rows that those before it left.
#![tactic(auto)]

mod alone;
mod dones;
mod groups;
mod lasts;
mod levels;
mod reruns;
mod rounds;
mod settlements;
mod tables;

pub use alone::rerun_alone;
pub use levels::{waves, waves_numbered};
pub use reruns::{rerun, rerun_numbered};
