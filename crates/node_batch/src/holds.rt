// The least holders that nodes told of one request.
ghost use Rattle.std.specs.Prelude.{◌≡◌, ◌<◌, ◌+◌, ◌-◌, ◌^◌, ◌++◌, map, OnOk};
ghost use Rattle.batch_rules.specs.Verdicts.{verdict_by};
ghost use Rattle.node_rules.specs.Dues.{lesser};
ghost use Rattle.node_batch.specs.Holds.{fates_mails};
ghost use Rattle.node_batch.specs.Letters.{message_of};

use crate::firsts::lesser_of;
use crate::letters::{Least, Letter, Said};
use crate::mails::Site;
use aria_base::Memory;
use batch_rules::verdicts::{Cause, Rule, Verdict};

/// The least of what was told, and by how many nodes.
#[derive(Clone, Copy, Debug)]
pub struct Hold {
    pub waw: Option<u32>,
    pub raw: Option<u32>,
    pub war: Option<u32>,
    pub heard: u32,
}

/// With what one node more tells.
pub fn heard_also(hold: Hold, least: Least) -> Hold
    requires { hold.heard < 2 ^ 32 - 1 }
    ensures { result ≡ record { waw = lesser least.waw hold.waw; raw = lesser least.raw hold.raw; war = lesser least.war hold.war; heard = hold.heard + 1 } }
{
    Hold {
        waw: lesser_of(least.waw, hold.waw),
        raw: lesser_of(least.raw, hold.raw),
        war: lesser_of(least.war, hold.war),
        heard: hold.heard + 1,
    }
}

/// The verdict by the least holders.
pub fn verdict_of(rule: Rule, hold: Hold) -> Verdict
    ensures { result ≡ verdict_by rule hold.waw hold.raw hold.war }
{
    match (hold.waw, rule, hold.raw, hold.war) {
        (Some(waw), _, _, _) => Verdict::Wait(Cause::Waw(waw)),
        (None, Rule::Plain, Some(raw), _) => Verdict::Wait(Cause::Raw(raw)),
        (None, Rule::Reorder, Some(raw), Some(war)) => Verdict::Wait(Cause::Both(raw, war)),
        (None, Rule::Reorder, Some(_), None) => Verdict::Finish { raw: true },
        (None, _, None, _) => Verdict::Finish { raw: false },
    }
}

/// Appends the verdict to all nodes.
pub fn push_fates(
    site: Site,
    tid: u32,
    verdict: Verdict,
    out: &mut Vec<Letter>,
) -> Result<(), Memory>
    ensures { OnOk result (map message_of out.new.items ≡ map message_of out.old.items ++ fates_mails site tid verdict) }
{
    for node in 0..site.nodes {
        out.push(Letter {
            batch: site.batch,
            tid,
            sender: site.node,
            addressee: node,
            said: Said::Fate(verdict),
        })?;
    }
    Ok(())
}
