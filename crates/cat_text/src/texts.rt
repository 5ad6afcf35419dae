// The catalogue of a text.
ghost use Rattle.std.specs.Prelude.{◌≡◌};
ghost use Rattle.script_text.specs.Answers.{Answers};
ghost use Rattle.cat_text.specs.Texts.{catalog_of, refusal_of, refused_at};

use cat_read::{CatRefused, read_catalog};
use proc_lang::Catalog;
use script_text::{CatFault, LinesRefused, Refusal, RefusalKind};
use std::alloc::Global;

/// The catalogue that the text says. The refusal has this line number and the kind `Catalog`: `NotJson`
/// exactly where the text is no JSON, else `Shape` with the first place that does not have the form of a
/// catalogue, else `Wrong` with the first procedure that is not well typed.
#[tactic(auto, using(crate::proofs::Said::tells, crate::proofs::Said::refuses))]
pub fn catalog_of(alloc: Global, text: &[u8], line: u64) -> Result<Catalog, LinesRefused>
    ensures { Answers (catalog_of text.now) line result }
{
    match read_catalog(alloc, text) {
        Ok(catalog) => Ok(catalog),
        Err(refused) => Err(refusal_of(refused, line)),
    }
}

/// The refusal of a script that tells as much.
fn refusal_of(refused: CatRefused, line: u64) -> LinesRefused
    ensures { result ≡ refusal_of line refused }
{
    match refused {
        CatRefused::Memory => LinesRefused::Memory,
        CatRefused::NotJson => refused_at(line, CatFault::NotJson),
        CatRefused::Shape(path) => refused_at(line, CatFault::Shape(path)),
        CatRefused::Wrong(wrong) => refused_at(line, CatFault::Wrong(wrong)),
    }
}

/// The refusal of this line for its catalogue.
fn refused_at(line: u64, fault: CatFault) -> LinesRefused
    ensures { result ≡ refused_at line fault }
{
    let kind = RefusalKind::Catalog(fault);
    LinesRefused::Line(Refusal { line, kind })
}
