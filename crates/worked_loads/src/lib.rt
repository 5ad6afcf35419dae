//! Worked examples of command lines, of workloads and of audits, which the gate runs. There is no code here, only
//! tests: those of `command_words` in `lines`, of `load_gen` in `requests`, of `tpcc_load` in `orders` and of
//! `tpcc_audit` in `audits`. A crate with tests is proved twice.
#![tactic(auto)]

#[cfg(test)]
mod audits;
#[cfg(test)]
mod lines;
#[cfg(test)]
mod orders;
#[cfg(test)]
mod requests;
