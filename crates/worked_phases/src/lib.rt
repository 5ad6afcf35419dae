//! Worked examples of a batch's phases on several workers, which the gate runs. There is no code here,
//! only tests.
//!
//! `accounts` makes what the phases work on: accounts as keys, sets, rows and writes, and calls of the
//! catalogue `bank`. `by_hand` has verdicts and orders worked out by hand: the tests of `dep_rules` and
//! of `reorder`. `decisions` numbers, marks and decides made-up batches, and has both forms of a
//! decision side by side. `executions` runs a batch by several workers. `meetings` holds two workers
//! back until both are at work, in each phase that has steps to tell of, and counts these steps.
//! `kept_numbers` has the numbers of one caller alone, those that are kept from batch to batch, and keys that crowd
//! the table of these. `keeping` keeps more keys than a batch may find.
//!
//! What several workers do at once, by crates: `work_claim` in `claims`, `work_crew` in `crews`, `resv_words` in `words`,
//! `resv_phase` in `reservations`, `touch_numbers` in `numbers` and `install_phase` in `installs`. `checks` asserts.
#![tactic(auto)]

#[cfg(test)]
mod accounts;
#[cfg(test)]
mod by_hand;
#[cfg(test)]
mod checks;
#[cfg(test)]
mod claims;
#[cfg(test)]
mod crews;
#[cfg(test)]
mod decisions;
#[cfg(test)]
mod executions;
#[cfg(test)]
mod installs;
#[cfg(test)]
mod keeping;
#[cfg(test)]
mod kept_numbers;
#[cfg(test)]
mod meetings;
#[cfg(test)]
mod numbers;
#[cfg(test)]
mod reservations;
#[cfg(test)]
mod words;
