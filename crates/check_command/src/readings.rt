// A script and its report between two lines, and the next line.
ghost use Rattle.std.specs.Prelude.{◌≡◌, [], IfOk};
ghost use Rattle.script_course.specs.Courses.{Goes};
ghost use Rattle.check_command.specs.Checks.{done, on_line, start, with_call, with_row, with_kept, with_run, with_told};
ghost use Rattle.check_command.specs.Standing.{MayCall, MayDo, MayKeep, MayRun, Stands, doing_of};
ghost use Rattle.script_rows.specs.Moves.{Moves};

use crate::works::Work;
use aria_base::{Bytes, Call, Key, Memory, Row, Sink};
use script_course::{Reads, Stop};
use script_places::{Counts, Deed, Mode, ScriptPlace, follows};
use script_rows::refuse_line;
use script_text::LinesRefused;
use std::alloc::Global;
use std::marker::Model;
use tbl_rows::Tables;

/// A script and its report between two lines.
#[derive(Drop)]
pub(crate) struct Reading {
    pub place: ScriptPlace,
    pub work: Work,
}

impl Model for Reading {
    ghost use Rattle.check_command.specs.Codes.{doing_code};
    ghost use Rattle.check_command.specs.Checks.{Doing};
    ghost use Rattle.check_command.specs.Standing.{Stands, doing_of};

    ghost Value = { Doing };

    ghost coded = { doing_code };

    ghost view = { λ r. doing_of r.place r.work };

    ghost invariant = { λ r. Stands (doing_of r.place r.work) };
}

impl Reading {
    /// Before the first line.
    pub fn start(alloc: Global) -> Result<Reading, Memory>
        ensures { IfOk result (λ reading. reading ≡ start) }
    {
        let work = Work {
            tables: Tables::new(alloc)?,
            calls: Vec::new(alloc),
            script: Vec::new(alloc),
            ends: Vec::new(alloc),
            requests: 0,
            report: Vec::new(alloc),
        };
        let place = ScriptPlace::start(Mode::Check);
        Ok(Reading { place, work })
    }

    /// Behind the next line, or the refusal of the line.
    fn next(self, alloc: Global, line: &[u8]) -> Result<Reading, LinesRefused>
        ensures { Moves (on_line self line.now) result }
    {
        let Reading { place, work } = self;
        let counts = Counts {
            batches: work.ends.len() as u64,
            requests: work.requests,
            waiting: 0,
        };
        let (after, deed) = place.ask(alloc, counts, line)?;
        follows();
        Ok(work.with(alloc, after, deed, line)?)
    }
}

impl Reads for Reading {
    ghost on_line = { on_line };

    ghost held = { λ _. Unit {0} };

    fn line<K: Sink>(self, alloc: Global, line: &[u8], out: &mut K) -> Result<Self, Stop> {
        match self.next(alloc, line) {
            Ok(next) => return Ok(next),
            Err(refused) => return refuse_line(alloc, refused, out),
        }
    }
}

impl Work {
    /// What a line asks for, at the place behind it.
    fn with(
        self,
        alloc: Global,
        place: ScriptPlace,
        deed: Deed,
        line: &[u8],
    ) -> Result<Reading, Memory>
        requires { MayDo (doing_of place self) deed }
        ensures { IfOk result (λ reading. done (doing_of place self) line.now deed ≡ Goes [] reading) }
    {
        match deed {
            Deed::Nothing | Deed::Set { .. } => Ok(Reading { place, work: self }),
            Deed::Put(key, row) => self.put(place, key, row),
            Deed::Call(call) => self.call(place, call),
            Deed::Keep(number) => self.keep(alloc, place, number),
            Deed::Run => self.run(alloc, place),
            Deed::Tell => self.tell(alloc, place, line),
        }
    }

    /// The row stands at the key.
    fn put(self, place: ScriptPlace, key: Key, row: Row) -> Result<Reading, Memory>
        requires { Stands (doing_of place self) }
        ensures { IfOk result (λ reading. reading ≡ with_row (doing_of place self) key row) }
    {
        let mut work = self;
        work.tables.put(key, row)?;
        Ok(Reading { place, work })
    }

    /// One call more.
    fn call(self, place: ScriptPlace, call: Call) -> Result<Reading, Memory>
        requires { MayCall (doing_of place self) }
        ensures { IfOk result (λ reading. reading ≡ with_call (doing_of place self) call) }
    {
        let mut work = self;
        work.calls.push(call)?;
        Ok(Reading { place, work })
    }

    /// A batch that was run before; its calls are dropped.
    fn keep(self, alloc: Global, place: ScriptPlace, number: u64) -> Result<Reading, Memory>
        requires { MayKeep (doing_of place self) number }
        ensures { IfOk result (λ reading. reading ≡ with_kept (doing_of place self) number) }
    {
        let mut work = self;
        work.script.push((number, Vec::new(alloc)))?;
        work.calls = Vec::new(alloc);
        Ok(Reading { place, work })
    }

    /// The batch of the open calls, which is to be run.
    fn run(self, alloc: Global, place: ScriptPlace) -> Result<Reading, Memory>
        requires { MayRun (doing_of place self) }
        ensures { IfOk result (λ reading. reading ≡ with_run (doing_of place self)) }
    {
        let Work {
            tables,
            calls,
            mut script,
            mut ends,
            requests,
            report,
        } = self;
        let requests = requests + calls.len() as u64;
        ends.push(place.lines)?;
        script.push((ends.len() as u64, calls))?;
        let work = Work {
            tables,
            calls: Vec::new(alloc),
            script,
            ends,
            requests,
            report,
        };
        Ok(Reading { place, work })
    }

    /// One line of the report more.
    fn tell(self, alloc: Global, place: ScriptPlace, line: &[u8]) -> Result<Reading, Memory>
        requires { Stands (doing_of place self) }
        ensures { IfOk result (λ reading. reading ≡ with_told (doing_of place self) line.now) }
    {
        let mut work = self;
        work.report
            .push(Bytes::from_vec(Vec::from_slice(alloc, line)?))?;
        Ok(Reading { place, work })
    }
}
