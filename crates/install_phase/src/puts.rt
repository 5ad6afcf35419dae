// Writes that one worker makes, without dealing them.
ghost use Rattle.std.specs.Prelude.{◌≡◌, IfOk, OnOk, if◌then◌else◌};
ghost use Rattle.batch_rules.specs.Verdicts.{finishes};
ghost use Rattle.batch_rules.specs.Touches.{overwritten};
ghost use Rattle.install_phase.specs.Installs.{after_changes};

use aria_base::{Changes, Memory, Pace, Place};
use batch_rules::verdicts::Verdict;
use tbl_rows::Tables;
use tbl_snapshot::put_change;

/// The tables with the writes of all that finish, one request after the other. The caller makes them.
pub(crate) fn put_finishing<P: Pace>(
    mut tables: Tables,
    list: Vec<Changes>,
    verdicts: &[Verdict],
    pace: &P,
) -> Result<Tables, Memory>
    ensures { IfOk result (λ after. after ≡ after_changes 1 tables list.items verdicts.now) }
{
    let mut rest = verdicts;
    for changes in list {
        let Some((verdict, later)) = rest.split_first() else {
            return Ok(tables);
        };
        rest = later;
        put_if(&mut tables, changes, verdict, pace)?;
    }
    Ok(tables)
}

/// Makes the writes of a request, where it finishes.
fn put_if<P: Pace>(
    tables: &mut Tables,
    changes: Changes,
    verdict: &Verdict,
    pace: &P,
) -> Result<(), Memory>
    ensures { OnOk result (tables.new ≡ (if finishes verdict.now then overwritten tables.old changes else tables.old)) }
{
    match verdict {
        Verdict::Finish { raw: _ } => put_all(tables, changes, pace),
        Verdict::Wait(_) => Ok(()),
    }
}

/// Puts and deletes the rows of these changes, which move into the tables. The last one comes first: of a key
/// that stands twice the first row stays.
fn put_all<P: Pace>(tables: &mut Tables, changes: Changes, pace: &P) -> Result<(), Memory>
    ensures { OnOk result (tables.new ≡ overwritten tables.old changes) }
{
    let mut changes = changes.into_vec();
    while let Some((key, row)) = changes.pop() {
        pace.at(0, Place::Install);
        put_change(tables, key, row)?;
    }
    Ok(())
}
