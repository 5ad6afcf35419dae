// A script on nodes between two of its lines, and the next line.
ghost use Rattle.std.specs.Prelude.{◌≡◌, ◌≤◌, ◌+◌, IfOk, IfErr};
ghost use Rattle.aria_base.specs.Faults.{Rose};
ghost use Rattle.answer_text.specs.Notices.{kept_text};
ghost use Rattle.node_world.specs.declared.worlds.TheConstants.{MOST_NODES};
ghost use Rattle.run_commands.specs.Onces as onces;
ghost use Rattle.script_course.specs.Causes.{IsCause};
ghost use Rattle.script_course.specs.Courses.{Goes};
ghost use Rattle.script_course.specs.Served.{Serves};
ghost use Rattle.nodes_command.specs.Outs.{start_with};
ghost use Rattle.nodes_command.specs.Scripts.{done, on_line};
ghost use Rattle.nodes_command.specs.Standing.{MayCall, MayClose, MayDo, MayPut, MayRun, among_of, doing_of};

use crate::asks::ask_among;
use crate::bases::Base;
use crate::batches::run_batch;
use crate::works::Work;
use answer_text::kept_line;
use aria_base::{Call, Key, Memory, Row, Sink};
use batch_rules::verdicts::Rule;
use script_course::{Reads, Stop, give};
use script_places::{Deed, Mode, ScriptCatalog, ScriptPlace, follows};
use script_rows::refuse_line;
use std::alloc::Global;
use std::marker::Model;
use tbl_rows::Tables;

/// A script on nodes between two of its lines.
#[derive(Drop)]
pub(crate) struct NodesScript {
    pub place: ScriptPlace,
    pub work: Work,
}

impl Model for NodesScript {
    ghost use Rattle.nodes_command.specs.Codes.{among_code};
    ghost use Rattle.nodes_command.specs.Scripts.{Among};
    ghost use Rattle.nodes_command.specs.Standing.{Stands, among_of};

    ghost Value = { Among };

    ghost coded = { among_code };

    ghost view = { λ s. among_of s.place s.work };

    ghost invariant = { λ s. Stands s.place s.work };
}

impl NodesScript {
    /// Before the first line.
    pub fn start(alloc: Global, rule: Rule, nodes: u32, each: bool) -> Result<NodesScript, Memory>
        requires { (1 ≤ nodes) × (nodes ≤ MOST_NODES) }
        ensures { IfOk result (λ script. script ≡ start_with rule each) }
    {
        let tables = Tables::new(alloc)?;
        let work = Work {
            calls: Vec::new(alloc),
            base: Base::Rows(tables, rule),
            nodes,
            each,
            called: 0,
        };
        let place = ScriptPlace::start(Mode::Once);
        Ok(NodesScript { place, work })
    }

    /// Takes the next line, and gives what it prints. The answer is the script behind it.
    fn serve<K: Sink>(self, alloc: Global, line: &[u8], out: &mut K) -> Result<NodesScript, Stop>
        ensures serves { Serves (on_line self line.now) (K.given out.old) (K.given out.new) result }
        ensures sink { K.faults out.old ≤ K.faults out.new }
        ensures cause { IfErr result (λ stop. IsCause stop (Rose (K.faults out.old) (K.faults out.new)) ⊥) }
    {
        let NodesScript { place, work } = self;
        let counts = work.base.counts();
        match ask_among(alloc, place, counts, work.called, line) {
            Ok((after, deed)) => {
                follows();
                return work.with(alloc, after, deed, out);
            }
            Err(refused) => return refuse_line(alloc, refused, out),
        }
    }
}

impl Reads for NodesScript {
    ghost on_line = { on_line };

    ghost held = { λ _. Unit {0} };

    fn line<K: Sink>(self, alloc: Global, line: &[u8], out: &mut K) -> Result<Self, Stop> {
        self.serve(alloc, line, out)
    }
}

impl Work {
    /// Does what a line asks for, at the place behind it, and gives what that prints.
    fn with<K: Sink>(
        self,
        alloc: Global,
        place: ScriptPlace,
        deed: Deed,
        out: &mut K,
    ) -> Result<NodesScript, Stop>
        requires { MayDo place self deed }
        ensures serves { Serves (done (among_of place self) deed) (K.given out.old) (K.given out.new) result }
        ensures sink { K.faults out.old ≤ K.faults out.new }
        ensures cause { IfErr result (λ stop. IsCause stop (Rose (K.faults out.old) (K.faults out.new)) ⊥) }
    {
        match deed {
            Deed::Nothing | Deed::Tell => Ok(NodesScript { place, work: self }),
            Deed::Put(key, row) => match self.put(place, key, row) {
                Ok(script) => Ok(script),
                Err(Memory) => Err(Stop::NoMemory),
            },
            Deed::Call(call) => match self.call(place, call) {
                Ok(script) => Ok(script),
                Err(Memory) => Err(Stop::NoMemory),
            },
            Deed::Set { .. } => unreachable!(),
            Deed::Keep(number) => self.keep(alloc, place, number, out),
            Deed::Run => self.run(alloc, place, out),
        }
    }

    /// The row stands at the key.
    fn put(self, place: ScriptPlace, key: Key, row: Row) -> Result<NodesScript, Memory>
        requires { MayPut place self }
        ensures { IfOk result (λ script. script
            ≡ record { doing = onces.with_row (doing_of place self) key row; called = self.called }) }
    {
        let Work {
            calls,
            base,
            nodes,
            each,
            called,
        } = self;
        let work = Work {
            calls,
            base: base.put(key, row)?,
            nodes,
            each,
            called,
        };
        Ok(NodesScript { place, work })
    }

    /// One call more.
    fn call(self, place: ScriptPlace, call: Call) -> Result<NodesScript, Memory>
        requires { MayCall place self }
        ensures { IfOk result (λ script. script
            ≡ record { doing = onces.with_call (doing_of place self) call; called = self.called + 1 }) }
    {
        let mut work = self;
        work.calls.push(call)?;
        work.called += 1;
        Ok(NodesScript { place, work })
    }

    /// Tells of a batch that was run before, and goes on without the open calls.
    fn keep<K: Sink>(
        self,
        alloc: Global,
        place: ScriptPlace,
        number: u64,
        out: &mut K,
    ) -> Result<NodesScript, Stop>
        requires { MayClose place self }
        ensures serves { Serves (Goes (kept_text number) (record { doing = onces.without_calls (doing_of place self); called = self.called }))
            (K.given out.old) (K.given out.new) result }
        ensures sink { K.faults out.old ≤ K.faults out.new }
        ensures cause { IfErr result (λ stop. IsCause stop (Rose (K.faults out.old) (K.faults out.new)) ⊥) }
    {
        match kept_line(alloc, number) {
            Ok(text) => give(self.without_calls(alloc, place), &text, out),
            Err(Memory) => Err(Stop::NoMemory),
        }
    }

    /// Without the open calls.
    fn without_calls(self, alloc: Global, place: ScriptPlace) -> NodesScript
        requires { MayClose place self }
        ensures { result ≡ record { doing = onces.without_calls (doing_of place self); called = self.called } }
    {
        let work = Work {
            calls: Vec::new(alloc),
            ..self
        };
        NodesScript { place, work }
    }

    /// Runs the batch of the open calls, and gives its text.
    fn run<K: Sink>(
        self,
        alloc: Global,
        place: ScriptPlace,
        out: &mut K,
    ) -> Result<NodesScript, Stop>
        requires { MayRun place self }
        ensures serves { Serves (Goes (onces.text_of (doing_of place self)) (record {
          doing = onces.behind_batch (doing_of place self);
          called = self.called;
        }))
            (K.given out.old) (K.given out.new) result }
        ensures sink { K.faults out.old ≤ K.faults out.new }
        ensures cause { IfErr result (λ stop. IsCause stop (Rose (K.faults out.old) (K.faults out.new)) ⊥) }
    {
        match self.ran(alloc, place) {
            Ok((script, text)) => give(script, &text, out),
            Err(Memory) => Err(Stop::NoMemory),
        }
    }

    /// Behind the batch of the open calls, with its text.
    fn ran(self, alloc: Global, place: ScriptPlace) -> Result<(NodesScript, Vec<u8>), Memory>
        requires { MayRun place self }
        ensures script { IfOk result (λ ran. ran.0 ≡ record { doing = onces.behind_batch (doing_of place self); called = self.called }) }
        ensures text { IfOk result (λ ran. ran.1.items ≡ onces.text_of (doing_of place self)) }
    {
        let Work {
            calls,
            base,
            nodes,
            each,
            called,
        } = self;
        let ScriptCatalog::Ready(catalog) = &place.head else {
            unreachable!()
        };
        let begun = base.begun(alloc, catalog, nodes)?;
        let (next, text) = run_batch(alloc, catalog, begun, calls, each)?;
        let work = Work {
            calls: Vec::new(alloc),
            base: Base::Runs(next),
            nodes,
            each,
            called,
        };
        Ok((NodesScript { place, work }, text))
    }
}
