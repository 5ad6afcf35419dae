// A text of whole lines, taken line by line.
ghost use Rattle.std.specs.Prelude.{◌≡◌, ℕ, List, Option, IfOk};
ghost use Rattle.proc_lang.specs.Catalogs.{Plan};
ghost use Rattle.image_text.specs.Lines.{lines_taken};

use aria_base::Memory;
use proc_lang::Catalog;
use script_text::cut_at;

/// What is known of a text whose lines are taken one by one.
pub trait LineTaker: Drop {
    /// What is known with one more line, where it can be taken.
    ghost taken: { Plan → Self → List ℕ → Option Self };

    /// Takes a line. `again` is room to write it again.
    fn take(
        self,
        catalog: &Catalog,
        line: &[u8],
        again: &mut Vec<u8>,
    ) -> Result<Option<Self>, Memory>
        ensures { IfOk result (λ found. found ≡ taken catalog.now self line.now) };
}

/// Takes all lines of a text, where each can be taken and the last one ends.
#[tactic(auto, using(crate::proofs::LinesTaken::line_taken, crate::proofs::LinesTaken::unended, crate::proofs::LinesTaken::none_left))]
pub fn take_lines<T: LineTaker>(
    taker: T,
    catalog: &Catalog,
    bytes: &[u8],
    again: &mut Vec<u8>,
) -> Result<Option<T>, Memory>
    ensures { IfOk result (λ found. found ≡ lines_taken (T.taken catalog.now) taker bytes.now) }
{
    let mut known = taker;
    let mut rest = bytes;
    while let Some((line, behind)) = cut_at(rest, b'\n') {
        let Some(next) = known.take(catalog, line, again)? else {
            return Ok(None);
        };
        known = next;
        rest = behind;
    }
    if !rest.is_empty() {
        return Ok(None);
    }
    Ok(Some(known))
}
