// One waiting request on handed rows.
ghost use Rattle.std.specs.Prelude.{◌≡◌, ◌<◌, ◌≤◌, ℕ, [], length, map, set, take, All, IfOk, OnOk};
ghost use Rattle.batch_rules.specs.Batches.{late_fate, late_map};
ghost use Rattle.proc_exec.specs.Lates.{fate_of};
ghost use Rattle.proc_exec.specs.Limits.{touchable};
ghost use Rattle.proc_lang.specs.Catalogs.{run_of};
ghost use Rattle.proc_lang.specs.Meaning.{is_done as is_done_end};
ghost use Rattle.tbl_snapshot.specs.Layers.{seen_of};
ghost use Rattle.work_claim.specs.Rule.{times};
ghost use Rattle.row_batons.specs.Windows.{laid, rows_of, AreAt, AreApart};

use aria_base::{Duplicate, Key, Memory, Row};
use proc_exec::{Late, Ran, Waiting, interpret_lent_within};
use proc_lang::{Access, Catalog, End};
use std::alloc::Global;
use tbl_snapshot::{Overlay, Snapshot};

/// Puts copies of the rows at the keys of these slots. They are the first writes of the window.
fn fill<A: Access>(
    alloc: Global,
    window: &mut A,
    keys: &[Key],
    touched: &[usize],
    rows: &[Option<Row>],
) -> Result<(), Memory>
    requires slots { All (λ k. k < length keys.now) touched.now }
    requires rows { length rows.now ≡ length touched.now }
    requires once { (k : ℕ) → times k touched.now ≤ 1 }
    requires apart { AreApart keys.now }
    requires empty { (A.seen window.old).noted.writes ≡ [] }
    ensures map { OnOk result ((A.seen window.new).map ≡ laid (A.seen window.old).map keys.now touched.now rows.now) }
    ensures front { OnOk result (AreAt keys.now touched.now (A.seen window.new).noted.writes) }
{
    let mut index = 0;
    for slot in touched {
        let key = keys[*slot].duplicate(alloc)?;
        window.write(key, rows[index].duplicate(alloc)?)?;
        index += 1;
    }
    Ok(())
}

/// The rows that the window has at the keys of these slots come into the places of these ones. They are those of its
/// first writes.
fn rows_back(window: Overlay, keys: &[Key], touched: &[usize], rows: &mut Vec<Option<Row>>)
    requires once { (k : ℕ) → times k touched.now ≤ 1 }
    requires apart { AreApart keys.now }
    requires rows { length rows.old.items ≡ length touched.now }
    requires front { AreAt keys.now touched.now (take (length touched.now) (seen_of window).noted.writes) }
    ensures { rows.new.items ≡ rows_of (seen_of window.entry).map keys.now touched.now }
{
    let _ = keys;
    let _ = touched;
    take_back(window, rows);
}

/// The rows of the first writes of the window come into the places of these ones.
fn take_back(window: Overlay, rows: &mut Vec<Option<Row>>)
    requires { length rows.old.items ≤ length (seen_of window).noted.writes }
    ensures { rows.new.items ≡ map (λ w. w.1) (take (length rows.old.items) (seen_of window.entry).noted.writes) }
{
    let (_reads, writes) = window.parts();
    let mut writes = writes.into_vec();
    writes.truncate(rows.len());
    put_back(writes, rows);
}

/// The rows of the writes come into the places of these ones, of which there are as many.
fn put_back(mut writes: Vec<(Key, Option<Row>)>, rows: &mut Vec<Option<Row>>)
    requires { length writes.items ≡ length rows.old.items }
    ensures { rows.new.items ≡ map (λ w. w.1) writes.items }
{
    while let Some(write) = writes.pop() {
        let (_key, row) = write;
        set_row(rows, writes.len(), row);
    }
}

fn set_row(rows: &mut Vec<Option<Row>>, place: usize, row: Option<Row>)
    requires { place < length rows.old.items }
    ensures { rows.new.items ≡ set rows.old.items place row }
{
    rows[place] = row;
}

/// Whether the run is done, so that its writes count.
fn is_done(end: &End) -> bool
    ensures { result ≡ is_done_end end.now }
{
    match end {
        End::Done(_) => true,
        End::Back(_) | End::Trap(_) => false,
    }
}

/// Runs the request within its declared keys on the rows that were handed to it, over the first ones of all others.
/// The rows that it leaves come into their places; a run that leaves none needs the rows as they were, so they are
/// copied once.
pub(crate) fn run_on(
    alloc: Global,
    catalog: &Catalog,
    snapshot: Snapshot,
    one: &Waiting,
    keys: &[Key],
    touched: &[usize],
    rows: &mut Vec<Option<Row>>,
) -> Result<Late, Memory>
    requires slots { All (λ k. k < length keys.now) touched.now }
    requires once { (k : ℕ) → times k touched.now ≤ 1 }
    requires apart { AreApart keys.now }
    requires rows { length rows.old.items ≡ length touched.now }
    requires handed { rows.old.items ≡ rows_of (laid snapshot keys.now touched.now rows.old.items) keys.now touched.now }
    ensures late { IfOk result (λ late. fate_of late ≡ late_fate (touchable one.now.declared) (run_of catalog.now one.now.request) (laid snapshot.entry keys.now touched.now rows.old.items)) }
    ensures rows { OnOk result (rows.new.items ≡ rows_of (late_map is_done_end (touchable one.now.declared) (run_of catalog.now one.now.request) (laid snapshot.entry keys.now touched.now rows.old.items)) keys.now touched.now) }
{
    let mut window = Overlay::over(alloc, snapshot);
    fill(alloc, &mut window, keys, touched, rows.as_slice())?;
    match interpret_lent_within(alloc, catalog, &one.request, &one.declared, &mut window)? {
        Ran::Ended(end) => {
            if is_done(&end) {
                rows_back(window, keys, touched, rows);
            }
            Ok(Late::Finished(end))
        }
        Ran::Moved(key) => Ok(Late::Moved(key)),
    }
}
