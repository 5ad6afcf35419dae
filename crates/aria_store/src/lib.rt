//! A database that outlives the program: a checkpoint, and the log of the batches since.
//!
//! [`Store::create`] writes the first checkpoint, [`Store::append`] adds a batch to the log,
//! [`Store::rotate`] writes the next checkpoint with an empty log, and [`Store::attach`] reads what the
//! files hold. `specs/Reopens` says what four files read as: no store, damage with its file and offset,
//! or a checkpoint and the batches behind it. A stop at any moment of `append` leaves the batches from
//! before, with the new one or without; of `rotate`, the checkpoint from before with its batches or the
//! new one.
//!
//! ```text
//!     stores        the calls
//!     creations     whether a store may be written over
//!     attachments   the checkpoint of a slot, and the batches behind it
//!     laws          what four files read as, after any list of calls
//! ```
#![tactic(auto)]

mod attachments;
mod creations;
pub mod laws;
mod stores;

pub use image_text::Logged;
pub use slot_images::Image;
pub use store_files::StoreRefused;
pub use stores::{Found, Store};
