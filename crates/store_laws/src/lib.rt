//! Laws that tie a store's life to one run in memory: what `init` made of a head, a script that `run` runs
//! over it, and both as one text of `once`. They speak of what is printed, of states and of files, and rest
//! on the definitions of these commands.
#![tactic(auto)]

mod laws;

pub use laws::{
    files_are_one_run, left_runs_on, replay_answers, replay_prints_run, run_is_replayed,
    run_is_right, run_would_print, script_is_one_run, stop_is_replayed, stopped_runs_are_one_run,
};
