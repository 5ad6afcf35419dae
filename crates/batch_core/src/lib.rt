//! Batches one after the other: what each is handed, what it answers by request numbers, and the state that it leaves.
//!
//! A step runs the waiting requests and the new calls as one list, answers a line for each of them with a serial order, and carries
//! over what waits. The contracts of `laws` say what holds of every run of steps: each answer's order, run one request after the
//! other, gives the printed ends and the next state's rows, and each batch finishes the first request of its list.
//!
//! ```text
//!     Steps       states, lists of batches, answers, and runs
//!     Carriers    the same by whatever carries requests with their outcomes
//!     Serial      what an answer's order promises
//!     Progress    how far each batch gets with what waits
//!     Consistency which rows a batch leaves
//!     Codes       a state as a value of a model
//! ```
//!
//! The definitions stand in specs/, and the code is the types of `answers`, the list of a batch in `lists`, and causes by request
//! numbers in `causes`.
#![tactic(auto)]

pub mod answers;
mod causes;
pub mod laws;
mod lists;

pub use answers::{Answer, Line, Order, Replies, Reply, Wait};
pub use causes::{number_in, numbers_in, wait_in};
pub use lists::number_calls;
