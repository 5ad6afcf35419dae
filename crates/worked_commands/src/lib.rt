//! Worked runs of the commands through the top call, which the gate runs. There is no code here, only tests of
//! what no file can say: sources, sinks and disks that fail at a call, workers that meet, steps that are counted.
//! What a command line reads, prints and leaves is shown by the cases of `worked_cases`.
//!
//! `scripts` has faults of the commands without a store, `heads` those of `init` and heads that are refused before
//! any call on the disk, and `replays` those of `replay`. `generated` has stretches of a workload, and sinks that
//! fail under `gen`. `reported` checks reports on batches that no script has. `paces` has workers that meet and
//! steps that are counted, and `summaries` order entry in contention, of which some lines alone are known.
//!
//! Of `run` on a store `faults` has a source, a sink and a disk that fail at each of their calls in turn, `stops` every
//! image of a stop that memory tells, and `formats` those of a store of format 1. `cuts` has a head and a script that
//! end at each of their bytes, and `timely` a source that looks at the sink whenever more of it is asked for. `stores`
//! makes the store of these.
//!
//! `drift` has drawn scripts beside the rules in their plainest form: `courses` draws one and runs its batches by
//! `test_banks`, `prints` writes what that gives, and `drift` asserts that `once` prints it, and that `init` and two
//! runs over the store print it too.
//!
//! ```text
//! Draws ──> script ──> aria ──────────────────────────────> output ─┐
//!     │                                                             ├─ the same bytes
//!     └───> calls ───> run_plainly ──> answers, rows ──> lines ─────┘
//! ```
//!
//! `outcomes` runs the top call over memory, and asserts. No helper answers with an error: what finds no memory ends
//! the test. A way out at each step would cost each function that calls it.
#![tactic(auto)]

#[cfg(test)]
mod courses;
#[cfg(test)]
mod cuts;
#[cfg(test)]
mod drift;
#[cfg(test)]
mod faults;
#[cfg(test)]
mod formats;
#[cfg(test)]
mod generated;
#[cfg(test)]
mod heads;
#[cfg(test)]
mod outcomes;
#[cfg(test)]
mod paces;
#[cfg(test)]
mod prints;
#[cfg(test)]
mod replays;
#[cfg(test)]
mod reported;
#[cfg(test)]
mod scripts;
#[cfg(test)]
mod stops;
#[cfg(test)]
mod stores;
#[cfg(test)]
mod summaries;
#[cfg(test)]
mod timely;
