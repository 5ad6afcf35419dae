//! The printed lines of the database: what a batch answers, how the state is listed, and how input is
//! refused. Each call gives exactly the bytes that the definitions of `specs/` say, every line with its line
//! feed, or says that there was no memory.
//!
//! ```text
//! batch 1               the batch with this number
//! 1 ok 10               request 1 ended well and gave 10
//! 2 wait raw 1          request 2 waits, since it reads what request 1 writes
//! order 1               the order in which the ended requests count as run
//! end 1
//! state 1               the rows after one batch
//! row acct 1 = 10       a table, the parts of a key, `=`, the columns
//! end state
//! refused 9 gap 3 2     line 9 ends batch 3, where the next one is batch 2
//! ```
//!
//! A row, a key and a value are printed as `script_text` writes them into scripts. A call `append_..`
//! appends to a buffer of the caller's, and a call `print_..` to one of its own.
#![tactic(auto)]

mod answers;
mod notices;
mod refusals;
mod states;

pub use answers::{append_answer, append_end, print_answer};
pub use notices::{
    NotDone, append_at, append_counted, append_damaged, append_kept, kept_line, ready_line,
    refused_line,
};
pub use refusals::{append_refusal, print_refusal};
pub use states::{append_rows, append_state, print_state};
