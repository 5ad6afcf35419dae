// The text of a summary.
ghost use Rattle.std.specs.Prelude.{◌≡◌, ◌++◌, IfOk, OnOk};
ghost use Rattle.serving.specs.Lives.{state_of};
ghost use Rattle.bench_command.specs.Summaries.{counts_of, counts_text, name_text, numbers_text, rest_text, rows_text, summary_text, tally_text, totals_text};

use crate::sums::sum_rows;
use crate::tallies::Tally;
use crate::turns::Turn;
use answer_text::append_counted;
use aria_base::Memory;
use serving::Live;
use std::alloc::Global;
use tbl_rows::Tables;

/// How many batches were run, how many requests were numbered, and how many of these wait.
#[derive(Clone, Copy, Debug, PartialEq, Eq)]
pub struct Counts {
    pub batches: u64,
    pub requests: u64,
    pub left: u64,
}

/// What is printed of a workload of this name behind its last batch.
pub(crate) fn print_summary(alloc: Global, name: &[u8], turn: &Turn) -> Result<Vec<u8>, Memory>
    ensures { IfOk result (λ text. text.items ≡ summary_text name.now (state_of turn.now.live) turn.now.tally) }
{
    let mut out = Vec::new(alloc);
    append_name(&mut out, name)?;
    let tables = turn.live.replicas.first().tables();
    append_counts(&mut out, counts_of(&turn.live), turn.tally, tables)?;
    Ok(out)
}

/// Appends the line of the name.
fn append_name(out: &mut Vec<u8>, name: &[u8]) -> Result<(), Memory>
    ensures { OnOk result (out.new.items ≡ out.old.items ++ name_text name.now) }
{
    out.extend_from_slice(b"bench ")?;
    out.extend_from_slice(name)?;
    out.push(b'\n')?;
    Ok(())
}

/// The numbers of a database.
fn counts_of(live: &Live) -> Counts
    ensures { result ≡ counts_of (state_of live.now) }
{
    Counts {
        batches: live.batches(),
        requests: live.requests(),
        left: live.waiting() as u64,
    }
}

/// Appends the lines of a summary that follow its name: the numbers of batches and requests, the lines of each kind,
/// how many requests wait, how many rows there are, and the sum of their numbers. Where there was no memory, part of
/// them may stand there.
pub fn append_counts(
    out: &mut Vec<u8>,
    counts: Counts,
    tally: Tally,
    tables: &Tables,
) -> Result<(), Memory>
    ensures { OnOk result (out.new.items ≡ out.old.items ++ counts_text counts tally tables.now) }
{
    append_numbers(out, counts)?;
    append_tally(out, tally)?;
    append_rest(out, counts, tables)
}

/// Appends how many batches were run and how many requests numbered.
fn append_numbers(out: &mut Vec<u8>, counts: Counts) -> Result<(), Memory>
    ensures { OnOk result (out.new.items ≡ out.old.items ++ numbers_text counts) }
{
    append_counted(out, b"batches ", counts.batches)?;
    append_counted(out, b"requests ", counts.requests)
}

/// Appends how many reply lines there were of each kind.
fn append_tally(out: &mut Vec<u8>, tally: Tally) -> Result<(), Memory>
    ensures { OnOk result (out.new.items ≡ out.old.items ++ tally_text tally) }
{
    append_counted(out, b"ok ", tally.ok)?;
    append_counted(out, b"back ", tally.back)?;
    append_counted(out, b"trap ", tally.trap)?;
    append_counted(out, b"waits ", tally.waits)
}

/// Appends how many requests wait and what the rows come to.
fn append_rest(out: &mut Vec<u8>, counts: Counts, tables: &Tables) -> Result<(), Memory>
    ensures { OnOk result (out.new.items ≡ out.old.items ++ rest_text counts tables.now) }
{
    append_counted(out, b"left ", counts.left)?;
    append_rows(out, tables)
}

/// Appends how many rows there are, and the sum of their numbers.
fn append_rows(out: &mut Vec<u8>, tables: &Tables) -> Result<(), Memory>
    ensures { OnOk result (out.new.items ≡ out.old.items ++ rows_text tables.now) }
{
    let rows = tables.rows()?;
    append_totals(out, rows.len() as u64, sum_rows(&rows))
}

/// Appends these two numbers.
fn append_totals(out: &mut Vec<u8>, rows: u64, sum: u64) -> Result<(), Memory>
    ensures { OnOk result (out.new.items ≡ out.old.items ++ totals_text rows sum) }
{
    append_counted(out, b"rows ", rows)?;
    append_counted(out, b"sum ", sum)
}
