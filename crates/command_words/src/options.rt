// The options of all commands: their values, and the one that counts where the arguments give none.
use crate::settings::{Listing, Load};
use aria_base::{MOST_PERCENT, MOST_REPLICAS, MOST_REQUESTS, MOST_WORKERS};
use batch_rules::verdicts::Rule;

/// An option whose value is a number from `low` to `high`, and `usual` where it is not given.
#[derive(Clone, Copy, Debug)]
pub(crate) struct Number<'a> {
    pub name: &'a str,
    pub low: u32,
    pub high: u32,
    pub usual: u32,
}

/// An option whose value is one of two words, each with what it stands for; the first where it is not given.
#[derive(Clone, Copy, Debug)]
pub(crate) struct Choice<'a, T> {
    pub name: &'a str,
    pub usual: (&'a str, T),
    pub other: (&'a str, T),
}

macro_rules! number {
    ($name:literal, $low:literal, $high:expr, $usual:expr) => {
        Number {
            name: $name,
            low: $low,
            high: $high,
            usual: $usual,
        }
    };
}

pub(crate) const WORKERS: Number<'static> = number!("workers", 1, MOST_WORKERS, 1);

pub(crate) const REPLICAS: Number<'static> = number!("replicas", 1, MOST_REPLICAS, 1);

pub(crate) const FALLBACK: Number<'static> = number!("fallback", 0, MOST_PERCENT, MOST_PERCENT);

pub(crate) const CHECKPOINT: Number<'static> = number!("checkpoint", 0, 1_000_000, 0);

pub(crate) const NODES: Number<'static> = number!("nodes", 1, 8, 2);

pub(crate) const NUMBER: Number<'static> = number!("number", 0, 9_999_999, 1);

pub(crate) const BATCHES: Number<'static> = number!("batches", 1, 1000, 10);

pub(crate) const SIZE: Number<'static> = number!("size", 1, MOST_REQUESTS as u32, 100);

pub(crate) const KEYS: Number<'static> = number!("keys", 100, 1_000_000, 1000);

pub(crate) const OPS: Number<'static> = number!("ops", 1, 16, 10);

pub(crate) const READS: Number<'static> = number!("reads", 0, 100, 50);

pub(crate) const UPDATES: Number<'static> = number!("updates", 0, 100, 0);

pub(crate) const HOT: Number<'static> = number!("hot", 0, 100, 0);

pub(crate) const WAREHOUSES: Number<'static> = number!("warehouses", 1, 4, 1);

pub(crate) const CUSTOMERS: Number<'static> = number!("customers", 30, 3000, 30);

pub(crate) const ITEMS: Number<'static> = number!("items", 100, 100_000, 100);

pub(crate) const RULE: Choice<'static, Rule> = Choice {
    name: "rule",
    usual: ("reorder", Rule::Reorder),
    other: ("plain", Rule::Plain),
};

pub(crate) const LISTING: Choice<'static, Listing> = Choice {
    name: "state",
    usual: ("last", Listing::Last),
    other: ("each", Listing::Each),
};

pub(crate) const KIND: Choice<'static, Load> = Choice {
    name: "kind",
    usual: ("ycsb", Load::Ycsb),
    other: ("tpcc", Load::Tpcc),
};

pub(crate) const DRAIN: &str = "drain";

pub(crate) const OVER: &str = "over";

pub(crate) const BATONS: &str = "batons";
