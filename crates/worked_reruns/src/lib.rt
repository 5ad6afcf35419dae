//! Worked examples of waiting requests that are run again, which the gate runs. There is no code here,
//! only tests.
//!
//! Examples that were worked out by hand, run by several numbers of workers in waves and by rows that are handed on:
//! `makings` makes the catalogue, the rows and the requests of an example, `words` puts into words what they come to,
//! and `examples` holds them. `gates` shows that the requests of a wave run at once, and what a long list comes to.
//!
//! Handed rows beside one after the other: `banks` makes accounts and requests that wait, and runs these in the
//! plainest way. `drawn` holds what the workers do against that, on drawn requests. `meetings` shows that workers run
//! at once, and `crowds` what becomes of a long list on one account.
#![tactic(auto)]

#[cfg(test)]
mod banks;
#[cfg(test)]
mod crowds;
#[cfg(test)]
mod drawn;
#[cfg(test)]
mod examples;
#[cfg(test)]
mod gates;
#[cfg(test)]
mod makings;
#[cfg(test)]
mod meetings;
#[cfg(test)]
mod words;
