// The limits of values, rows, keys, calls, batches and lines. The language's own stand with the language.

/// The most bytes of a text.
pub const LONGEST_TEXT: usize = 500;

/// The most bytes of a word, as the name of a table or a procedure is.
pub const LONGEST_WORD: usize = 16;

/// The fewest parts of a key.
pub const FEWEST_PARTS: usize = 1;

/// The most parts of a key.
pub const MOST_PARTS: usize = 5;

/// The most columns of a row.
pub const MOST_COLUMNS: usize = 16;

/// The most arguments of a call.
pub const MOST_ARGS: usize = 16;

/// The fewest numbers of a tuple.
pub const SHORTEST_TUPLE: usize = 1;

/// The most numbers of a tuple.
pub const LONGEST_TUPLE: usize = 5;

/// The greatest number of a batch and of a request; the first is 1.
pub const GREATEST_NUMBER: u64 = 1 << 62;

/// The most requests of a batch's list, those carried over included. A request's TID is its place in
/// that list, from 1, so that this is the greatest TID as well.
pub const MOST_REQUESTS: usize = 10_000;

/// The most workers that run the phases of a batch; the fewest are 1.
pub const MOST_WORKERS: u32 = 64;

/// The most replicas that run the same batches; the fewest are 1.
pub const MOST_REPLICAS: u32 = 8;

/// The greatest fallback: of how many requests of a hundred at least have to wait for them to be run again
/// at the batch's end. The least is 0, and 101 means never.
pub const MOST_PERCENT: u32 = 101;

/// The most bytes of a line of a script, without its line feed, and of the line of a call in a log.
pub const LONGEST_LINE: usize = 4_096;

/// How many numbers of a reservation word one tag has, more than there are TIDs: the number of a TID
/// under a tag is `tag * TAG_SPAN + tid`.
pub const TAG_SPAN: u64 = 1 << 14;

/// How many tags there are: the numbers below this one. So the number of a TID under a tag is below
/// 2^63, and the greatest number of a word stands for no request.
pub const TAGS: u64 = 1 << 49;
