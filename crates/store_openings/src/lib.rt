//! Opening a store: the database that its four files hold, with its batches run.
//!
//! [`open`] reads what a store holds, runs the batches behind its checkpoint on all replicas, each by its
//! own settings, and gives the database with its store, ready for the next batch. A batch that has no
//! room beside what waits is damage, which only running finds. What stands in a store that takes no
//! batches as it is, one of format 1 or with a log that is too long, is written as a new checkpoint at once.
//!
//! ```text
//! disk ──> Store::attach (aria_store) ──> checkpoint ──> begin ──┐
//!                                  └────> batches ───> rerun ────┴─> Live (serving) ──> renew_where_stale
//! ```
//!
//! `engines` says how the database is run, `steps` runs one batch, `damages` finds the offset of a record.
//! In `specs/`: `Openings` says what four files are opened as, and `Runs` what the steps come to.
#![tactic(auto)]

mod damages;
mod engines;
mod openings;
mod refusals;
mod steps;

pub use damages::damage_at;
pub use engines::{RunSettings, begin, log_of};
pub use openings::open;
pub use refusals::{NotOpened, not_attached};
pub use steps::{is_crowded, settings_with, with_settings, with_settings_of};
