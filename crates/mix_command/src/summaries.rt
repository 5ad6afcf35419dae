// The text of a summary.
ghost use Rattle.std.specs.Prelude.{◌≡◌, IfOk};
ghost use Rattle.mix_command.specs.Summaries.{counts_of, stage_text};
ghost use Rattle.mix_command.specs.Turns.{stage_of};

use crate::turns::Turn;
use aria_base::Memory;
use audit_command::print_finding;
use bench_command::{Counts, append_counts};
use std::alloc::Global;
use tpcc_audit::Audit;
use tpcc_more::Mix;

/// What is printed of the mix behind its last batch.
pub(crate) fn print_summary(alloc: Global, turn: &Turn) -> Result<Vec<u8>, Memory>
    ensures { IfOk result (λ text. text.items ≡ stage_text (stage_of turn.now)) }
{
    let mut out = Vec::new(alloc);
    out.extend_from_slice(b"mix tpcc\n")?;
    append_counts(
        &mut out,
        counts_of(&turn.mix),
        turn.tally,
        turn.mix.tables(),
    )?;
    let finding = print_finding(alloc, &Audit::Holds)?;
    out.extend_from_slice(&finding)?;
    Ok(out)
}

/// The numbers of a database.
fn counts_of(mix: &Mix) -> Counts
    ensures { result ≡ counts_of mix.now }
{
    Counts {
        batches: mix.batches(),
        requests: mix.requests(),
        left: u64::from(mix.left()),
    }
}
