//! Laws of a script that is run over a store, stopped anywhere, and run again. They speak of what is printed and
//! of states alone, and rest on what `run_commands` says that a stop leaves.
#![tactic(auto)]

mod laws;

pub use laws::every_stop_resumes;
