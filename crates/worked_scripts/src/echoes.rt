// A command that prints what each line asks for.
ghost use Rattle.std.specs.Prelude.{◌≡◌};
ghost use Rattle.worked_scripts.specs.Echoes.{echo_line, word_of};

use aria_base::Sink;
use script_course::{Reads, Stop, give};
use script_places::{Counts, Deed, ScriptPlace};
use script_rows::refuse_line;
use std::alloc::Global;

/// A script of which each line is answered by a word; the counts are the same at each.
#[derive(Drop)]
pub struct Echo {
    pub place: ScriptPlace,
    pub counts: Counts,
}

impl Reads for Echo {
    ghost on_line = { echo_line };

    ghost held = { λ _. Unit {0} };

    fn line<K: Sink>(self, alloc: Global, line: &[u8], out: &mut K) -> Result<Self, Stop> {
        let Echo { place, counts } = self;
        match place.ask(alloc, counts, line) {
            Ok((place, deed)) => give(Echo { place, counts }, word_of(&deed), out),
            Err(refused) => refuse_line(alloc, refused, out),
        }
    }
}

/// The word of a deed, and a space.
fn word_of(deed: &Deed) -> &'static [u8]
    ensures { result.now ≡ word_of deed.now }
{
    match deed {
        Deed::Nothing => b"nothing ",
        Deed::Put(_, _) => b"put ",
        Deed::Call(_) => b"call ",
        Deed::Set { .. } => b"set ",
        Deed::Keep(_) => b"keep ",
        Deed::Run => b"run ",
        Deed::Tell => b"tell ",
    }
}
