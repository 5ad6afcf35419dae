// The limits of a log and of its records.
use aria_base::{LONGEST_LINE, MOST_REQUESTS};

/// The most bytes of a log that takes one batch more: behind a longer one a checkpoint is laid.
pub const MOST_LOG: u64 = 1 << 28;

/// The most bytes of a log to which a record can be added: those of a log that takes one batch more, and
/// 2^26, which are more than a record has.
pub const MOST_BEFORE: u64 = MOST_LOG + (1 << 26);

/// The most bytes of a record's payload: those of as many calls as a batch has at most, each a line as long
/// as one may be with its line feed, and two bytes of settings.
pub const MOST_PAYLOAD: usize = MOST_REQUESTS * (LONGEST_LINE + 1) + 2;
