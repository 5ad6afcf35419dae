// How a test compares.
use std::process::Abort;

/// Asserts that these bytes were found in this case. An assertion in place costs its function several seconds of
/// proof, and a call of this one next to none.
pub fn same(rt: &impl Abort, case: &str, found: &[u8], wanted: &str) {
    assert_eq!(rt; found, wanted.as_bytes(), "at {case}");
}
