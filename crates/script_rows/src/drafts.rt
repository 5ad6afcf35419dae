// A database between two lines of a script of rows.
ghost use Rattle.std.specs.Prelude.{◌≡◌, IfOk};
ghost use Rattle.script_rows.specs.Drafts as drafts;
ghost use Rattle.script_rows.specs.Drafts.{IsFitting};
ghost use Rattle.script_rows.specs.Moves.{Moves};

use crate::refusals::refuse_line;
use aria_base::{Memory, Sink};
use script_course::{Reads, Stop};
use script_places::{Counts, Deed, Mode, ScriptPlace, follows};
use script_text::LinesRefused;
use std::alloc::Global;
use tbl_rows::Tables;

/// A database between two lines of a script of rows.
#[derive(Drop)]
pub struct Draft {
    /// Where the reading stands.
    pub place: ScriptPlace,
    /// The rows so far.
    pub tables: Tables,
}

/// No batch was run.
const NO_COUNTS: Counts = Counts {
    batches: 0,
    requests: 0,
    waiting: 0,
};

impl Draft {
    /// Before the first line.
    pub(crate) fn start(alloc: Global, mode: Mode) -> Result<Draft, Memory>
        ensures { IfOk result (λ draft. draft ≡ drafts.start mode) }
    {
        let tables = Tables::new(alloc)?;
        let place = ScriptPlace::start(mode);
        Ok(Draft { place, tables })
    }

    /// With what a line asks for: a row is put, and all else is nothing, or the catalogue's.
    fn with(self, deed: Deed) -> Result<Draft, Memory>
        ensures { IfOk result (λ next. next ≡ drafts.done self deed) }
    {
        let Draft { place, mut tables } = self;
        match deed {
            Deed::Put(key, row) => {
                tables.put(key, row)?;
                Ok(Draft { place, tables })
            }
            Deed::Nothing
            | Deed::Call(_)
            | Deed::Set { .. }
            | Deed::Keep(_)
            | Deed::Run
            | Deed::Tell => Ok(Draft { place, tables }),
        }
    }

    /// Behind the next line, which prints nothing; or the refusal of the line.
    fn next(self, alloc: Global, line: &[u8]) -> Result<Draft, LinesRefused>
        requires { IsFitting self }
        ensures moves { Moves (drafts.on_line self line.now) result }
        ensures fitting { IfOk result IsFitting }
    {
        let Draft { place, tables } = self;
        let (place, deed) = place.ask(alloc, NO_COUNTS, line)?;
        follows();
        let behind = Draft { place, tables };
        let next = behind.with(deed)?;
        Ok(next)
    }
}

impl Reads for Draft {
    ghost on_line = { drafts.on_line };

    // Its rows fit its catalogue.
    ghost held = { IsFitting };

    fn line<K: Sink>(self, alloc: Global, line: &[u8], out: &mut K) -> Result<Self, Stop> {
        match self.next(alloc, line) {
            Ok(next) => Ok(next),
            Err(refused) => refuse_line(alloc, refused, out),
        }
    }
}
