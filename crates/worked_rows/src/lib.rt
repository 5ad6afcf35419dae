//! Worked examples of values and of rows, which the gate runs. There is no code here, only tests: those of
//! `aria_base` in `values`, of `tbl_rows` in `rows` and of `tbl_snapshot` in `snapshots`. A crate with tests is
//! proved twice.
#![tactic(auto)]

#[cfg(test)]
mod rows;
#[cfg(test)]
mod snapshots;
#[cfg(test)]
mod values;
