//! The words that all crates of the database share: texts, values, keys, rows, requests and
//! schemas, the streams that bytes come from and go to, the pace of workers, draws, and limits.
//!
//! A contract sees each of these types as the plain value that it stands for, a list within its
//! bounds, so that equality, order and copies are those of plain values. Whatever comes from outside
//! is counted: a stream fails only where its count of faults rose, and `Memory` alone says that an
//! allocation was refused.
//!
//! ```text
//! calls (Call, Request)   schemas (Schema, fits)      memory_streams    standard_streams
//!    |   \___ tuples (Tuple)  |                        (MemSource ..)    (FileSource ..)
//!    |        keys (Key, Part, Changes)                      \           /
//!    |          |           |                             streams (Source, Sink)
//!    |        values        parts (Parts)
//!    |       (Value, Row)     |                          paces (Pace, Free)   marks (Mark)
//!    |          |             |
//!    +------- texts (Txt) ----+                          draws (Draws)   limits
//!               |
//!             lists (Items, Few) --- copies (Duplicate) --- memory (Memory)
//! ```
//!
//! In `specs/`: `Texts` says what a text may hold, `Refusals` why bytes are none, `Held` what the parts
//! of a key are, `Kinds` and `Schemas` what fits a table, `Orders` how keys are ordered and what a
//! database is, with `Codes` for it as a ghost value, `Streams` and `Faults` what sources and sinks
//! promise, `MemoryStreams` what those in memory answer, `Draws` which words workloads are drawn from,
//! `Reserved` what the reservation words of a batch are, and `Shares` who may close a shared table.
#![tactic(auto)]

mod calls;
mod copies;
mod draws;
mod keys;
mod limits;
mod lists;
mod marks;
mod memory;
mod memory_streams;
mod paces;
mod parts;
mod schemas;
mod standard_streams;
mod streams;
mod texts;
mod tuples;
mod values;

pub use calls::{Arg, Args, Call, Request, Tuples, copy_call};
pub use copies::Duplicate;
pub use draws::Draws;
pub use keys::{Changes, Key, Keys, Part, compare_keys, contains_key, copy_key, same_key};
pub use limits::{
    FEWEST_PARTS, GREATEST_NUMBER, LONGEST_LINE, LONGEST_TEXT, LONGEST_TUPLE, LONGEST_WORD,
    MOST_ARGS, MOST_COLUMNS, MOST_PARTS, MOST_PERCENT, MOST_REPLICAS, MOST_REQUESTS, MOST_WORKERS,
    SHORTEST_TUPLE, TAG_SPAN, TAGS,
};
pub use lists::{Bytes, Few, Items};
pub use marks::Mark;
pub use memory::Memory;
pub use memory_streams::{MemSink, MemSource};
pub use paces::{Free, Pace, Place};
pub use parts::Parts;
pub use schemas::{Schema, Table};
pub use standard_streams::{FileSink, FileSource};
pub use streams::{Failed, Sink, Source};
pub use texts::{Txt, TxtRefused, is_word};
pub use tuples::Tuple;
pub use values::{Kind, Kinded, Kinds, Row, Value, copy_row};
