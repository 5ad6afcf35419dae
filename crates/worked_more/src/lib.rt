//! Worked runs of the routines of order entry, which the gate runs: each on tables of a few rows, with what it gives
//! and the rows that it leaves; what is sound; the draws of two batches; and batches of all five, by one and four workers.
#![tactic(auto)]

#[cfg(test)]
mod batches;
#[cfg(test)]
mod databases;
#[cfg(test)]
mod deliveries;
#[cfg(test)]
mod findings;
#[cfg(test)]
mod levels;
#[cfg(test)]
mod mixes;
#[cfg(test)]
mod runs;
#[cfg(test)]
mod statuses;
#[cfg(test)]
mod steps;
