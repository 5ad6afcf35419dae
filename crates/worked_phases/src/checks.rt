// How a test asserts.
use std::process::Abort;

/// Asserts that this holds of so many workers, or at this place. An assertion in place costs its function several
/// seconds of proof, and a call of this one next to none.
pub fn holds(rt: &impl Abort, what: &str, at: u32, found: bool) {
    assert!(rt; found, "{what} at {at}");
}

/// Whether the numbers are 0, 1, 2 and so on, and so many.
pub fn are_in_turn(numbers: &[u32], count: usize) -> bool {
    numbers.len() == count
        && numbers
            .iter()
            .enumerate()
            .all(|(place, &number)| place == number as usize)
}
