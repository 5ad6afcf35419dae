//! What a batch of requests is, and the laws that it keeps, for any keys, rows, requests and ends.
//!
//! A request is a tree of accesses, and everything else is a function of trees and of one database: read and write sets, who depends
//! on whom, what each request comes to, the printed order and the database that the batch leaves. The contracts of `laws` say what
//! follows: above all, that running the requests of the printed order one after the other gives what the batch gave.
//!
//! A batch is read off one list, its requests with their verdicts, and that list may hold whatever carries a request and what its run
//! came to: so code with outcomes in its hands and the definition of a batch of requests speak of the same order and the same rows.
//!
//! ```text
//!     Trees       a request: ends, or reads and goes on, or writes and goes on
//!     Touches     what a run reads and leaves, and its first access outside declared keys
//!     Plays       the run step by step, as an interpreter makes it
//!     Verdicts    who depends on whom, and who waits for whom
//!     Numberings  numbers in the place of keys
//!     Batches     the judged list of a batch, what is installed, ordered, carried, and its answer
//!     Waves       the late fold by waves of requests that do not conflict
//!     Serials     one request after the other
//!     Laws        what is proved of them
//! ```
//!
//! The definitions stand in specs/, and there is no code but the three types of `verdicts`.
#![tactic(auto)]

pub mod laws;
pub mod verdicts;
