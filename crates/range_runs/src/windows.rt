// The window of a routine's run on a snapshot.
ghost use Rattle.std.specs.Prelude.{◌≡◌, ◌++◌, List, [], ◌∷◌, None, IfOk, OnOk};
ghost use Rattle.std.specs.FinMap as fin;
ghost use Rattle.range_rules.specs.Courses.{after_action, stop_of};
ghost use Rattle.range_rules.specs.Scans.{is_under, scan};
ghost use Rattle.range_rules.specs.declared.routines.Seen.{Seen as Answer};
ghost use Rattle.range_runs.specs.Indexes.{IsIndexOf};
ghost use Rattle.range_runs.specs.Windows.{opened, map_of, with_scanned, course_of};

use crate::found::Found;
use crate::indexes::Index;
use crate::overlays::RangeOverlay;
use crate::scans::Scans;
use aria_base::{Changes, Keys, Memory};
use range_rules::{Action, Pairs, Prefix, Prefixes, Seen};
use std::alloc::Global;
use std::marker::Model;
use tbl_snapshot::Snapshot;

/// The rows of the snapshot under a prefix.
fn rows_under(
    alloc: Global,
    snapshot: &Snapshot,
    index: &Index,
    prefix: &Prefix,
) -> Result<Found, Memory>
    requires { IsIndexOf index.now snapshot.now }
    ensures { IfOk result (λ found. found ≡ fin.retain_keys snapshot.now (is_under prefix.now)) }
{
    let keys = index.under(alloc, prefix)?;
    let mut found = Found::new(alloc);
    for key in &keys {
        found.set(key, snapshot.get(key))?;
    }
    Ok(found)
}

/// A window on a snapshot that keeps what is written through it to itself, and notes what is touched. A
/// contract sees the database below, the keys read, the writes, and the prefixes scanned.
#[derive(Drop)]
pub(crate) struct Window<'a> {
    alloc: Global,
    snapshot: Snapshot<'a>,
    index: &'a Index,
    overlay: RangeOverlay<'a>,
    scans: Scans,
}

impl<'a> Model for Window<'a> {
    ghost use Rattle.std.specs.Prelude.{◌≡◌};
    ghost use Rattle.range_runs.specs.Indexes.{IsIndexOf};
    ghost use Rattle.range_runs.specs.Windows.{Glass, glass_code};

    ghost Value = { Glass };

    ghost coded = { glass_code };

    ghost view = { λ a. record { layer = a.overlay; scans = a.scans } };

    ghost invariant = { λ a. (a.snapshot ≡ a.overlay.base) × IsIndexOf a.index.now a.snapshot };
}

impl<'a> Window<'a> {
    /// A window on a snapshot, through which nothing was touched. No memory.
    pub(crate) fn over(alloc: Global, snapshot: Snapshot<'a>, index: &'a Index) -> Window<'a>
        requires { IsIndexOf index.now snapshot }
        ensures { result ≡ opened snapshot.entry }
    {
        Window {
            alloc,
            snapshot: snapshot.copy(),
            index,
            overlay: RangeOverlay::over(alloc, snapshot),
            scans: Scans::new(alloc),
        }
    }

    /// The rows under a prefix, which is noted.
    fn scan(&mut self, prefix: Prefix) -> Result<Pairs, Memory>
        ensures rows { IfOk result (λ rows. rows ≡ scan (map_of self.old) prefix) }
        ensures noted { OnOk result (self.new ≡ with_scanned self.old prefix) }
    {
        let mut found = rows_under(self.alloc, &self.snapshot, self.index, &prefix)?;
        self.overlay.make_writes(&mut found, &prefix)?;
        self.scans.note(self.alloc, prefix)?;
        let rows = found.into_pairs()?;
        Ok(rows)
    }

    /// Does what the routine asks for, and answers it.
    pub(crate) fn perform(&mut self, action: Action) -> Result<Seen, Memory>
        requires { stop_of action ≡ None }
        ensures base { OnOk result (self.new.layer.base ≡ self.old.layer.base) }
        ensures course { IfOk result (λ answer. (before : List Answer)
            → course_of self.new (before ++ answer ∷ []) ≡ after_action (course_of self.old before) action) }
    {
        match action {
            Action::Read(key) => Ok(Seen::One(self.overlay.fetch(&key)?)),
            Action::Write(key, row) => {
                self.overlay.set(key, row)?;
                Ok(Seen::Wrote)
            }
            Action::Scan(prefix) => Ok(Seen::Many(self.scan(prefix)?)),
            Action::Stop(_) => unreachable!(),
        }
    }

    /// What was read, written and scanned. No memory.
    pub(crate) fn parts(self) -> (Keys, Changes, Prefixes)
        ensures reads { result.0 ≡ self.entry.layer.noted.reads }
        ensures writes { result.1 ≡ self.entry.layer.noted.writes }
        ensures scans { result.2 ≡ self.entry.scans }
    {
        let (reads, writes) = self.overlay.parts();
        (reads, writes, Prefixes::from_vec(self.scans.into_list()))
    }
}
