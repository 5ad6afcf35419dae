// The prefixes that a run scanned.
ghost use Rattle.std.specs.Prelude.{◌≡◌, ◌<◌, [], length, IfOk, OnOk};
ghost use Rattle.aria_base.specs.declared.limits.TheConstants.{MOST_PARTS};
ghost use Rattle.range_rules.specs.Scans.{with_scan};

use crate::indexes::Index;
use crate::marks::mark_of;
use aria_base::Memory;
use range_rules::Prefix;
use std::alloc::Global;
use std::marker::Model;
use std::mem;

/// Prefixes, each once, in the order of their first scans. A contract sees the list of them. Whether a prefix is
/// one of them is found by its mark, which costs a logarithm.
#[derive(Drop)]
pub(crate) struct Scans {
    list: Vec<Prefix>,
    marks: Index,
}

impl Model for Scans {
    ghost use Rattle.std.specs.Prelude.{List};
    ghost use Rattle.range_rules.specs.declared.routines.Prefix.{Prefix as Plain};
    ghost use Rattle.range_runs.specs.Marks.{HasMarks};

    ghost Value = { List Plain };

    ghost view = { λ a. a.list.items };

    ghost invariant = { λ a. HasMarks a.list.items a.marks };
}

impl Scans {
    /// No prefixes. No memory.
    pub(crate) fn new(alloc: Global) -> Scans
        ensures { result ≡ [] }
    {
        let list = Vec::new(alloc);
        let marks = Index::new(alloc);
        Scans { list, marks }
    }

    /// Notes a prefix, unless it was noted before. An error: there was no memory, and nothing is noted any more.
    pub(crate) fn note(&mut self, alloc: Global, prefix: Prefix) -> Result<(), Memory>
        ensures { OnOk result (self.new ≡ with_scan self.old prefix) }
    {
        let scans = mem::replace(self, Scans::new(alloc));
        let noted = scans.with_prefix(alloc, prefix)?;
        *self = noted;
        Ok(())
    }

    /// The prefixes, with this one behind them where it is new.
    fn with_prefix(self, alloc: Global, prefix: Prefix) -> Result<Scans, Memory>
        ensures { IfOk result (λ scans. scans ≡ with_scan self prefix) }
    {
        let Scans {
            mut list,
            mut marks,
        } = self;
        see_prefix(&prefix);
        let mark = mark_of(alloc, &prefix)?;
        if marks.contains(&mark) {
            let same = Scans { list, marks };
            return Ok(same);
        }
        marks.add(mark)?;
        list.push(prefix)?;
        let more = Scans { list, marks };
        Ok(more)
    }

    /// The prefixes by value. No memory.
    pub(crate) fn into_list(self) -> Vec<Prefix>
        ensures { result.items ≡ self }
    {
        self.list
    }
}

/// Does nothing: a caller knows behind it what is true of every prefix.
fn see_prefix(prefix: &Prefix)
    ensures { length prefix.now.parts < MOST_PARTS }
{
    let _parts = prefix.parts.as_slice();
}
