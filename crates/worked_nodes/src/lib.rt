//! Worked examples of partitioned nodes, which the gate runs. There is no code here, only tests.
//!
//! `nets` makes nodes of accounts, and delivers messages in drawn orders. `drawn` runs drawn batches on one to eight nodes beside the
//! rules in their plainest form (`test_banks`). `examples` has batches that were worked out by hand, and what may happen to messages.
#![tactic(auto)]

#[cfg(test)]
mod drawn;
#[cfg(test)]
mod examples;
#[cfg(test)]
mod nets;
