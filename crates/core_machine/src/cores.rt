// What the machine keeps.
ghost use Rattle.std.specs.Prelude.{◌≡◌, ◌≤◌, length};
ghost use Rattle.aria_base.specs.declared.limits.TheConstants.{MOST_REQUESTS};

use crate::events::Event;
use crate::phases::Phase;
use crate::words::Words;
use aria_base::Request;
use dep_rules::{Rule, Verdict};
use proc_exec::Outcome;
use proc_lang::Catalog;
use std::collections::BTreeSet;
use tbl_rows::Tables;

/// The commit phase of one batch, as far as it has come: which events were taken, and what they made of
/// outcomes, reservation words, verdicts and rows. Outcomes and verdicts stand in the order of the list.
#[derive(Drop)]
pub struct Core {
    pub(crate) catalog: Catalog,
    pub(crate) rule: Rule,
    pub(crate) list: Vec<Request>,
    pub(crate) phase: Phase,
    pub(crate) came: BTreeSet<Event>,
    pub(crate) outcomes: Vec<Option<Outcome>>,
    pub(crate) writers: Words,
    pub(crate) readers: Words,
    pub(crate) verdicts: Vec<Verdict>,
    pub(crate) tables: Tables,
    ghost few: { length list.items ≤ MOST_REQUESTS },
    ghost ran: { length outcomes.items ≡ length list.items },
    ghost told: { length verdicts.items ≡ length list.items },
}
