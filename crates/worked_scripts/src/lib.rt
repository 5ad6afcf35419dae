//! Worked scripts and catalogues, which the gate runs, and the smallest command that reads a script.
//!
//! [`Echo`] prints in one word what each line of a script asks for. Scripts and lines that a command line can
//! show are cases of `worked_cases`. `scripts` has some that begin behind batches, which no command line can bring
//! about, `bounds` one at its limit of bytes, and `faults` sources and sinks that fail at each call in turn. `forms`
//! has lines that say a catalogue or a piece of one, and `cuttings` feeds texts in pieces of many sizes. `answers`
//! and `refusals` have what is printed with all its bytes, worked out by hand. Of catalogues as JSON text `readers` has
//! some that are read or refused, `writers` those that are written, and `builtins` those that every database has.
//!
//! ```text
//! catalog bank          nothing
//! row acct 1 = 10       put
//! tx add 1 5            call
//! end 1                 run
//! end 3                 refused 5 gap 3 1
//! ```
#![tactic(auto)]

mod echoes;

pub use echoes::Echo;

#[cfg(test)]
mod answers;
#[cfg(test)]
mod bounds;
#[cfg(test)]
mod builtins;
#[cfg(test)]
mod catalogs;
#[cfg(test)]
mod checks;
#[cfg(test)]
mod cuttings;
#[cfg(test)]
mod faults;
#[cfg(test)]
mod forms;
#[cfg(test)]
mod outcomes;
#[cfg(test)]
mod readers;
#[cfg(test)]
mod refusals;
#[cfg(test)]
mod scripts;
#[cfg(test)]
mod writers;
