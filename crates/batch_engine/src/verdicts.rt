// What the commit phase decides of each request of a batch, by the words of its keys.
ghost use Rattle.std.specs.Prelude.{◌≡◌, ◌≤◌, ◌<◌, IfOk, length};
ghost use Rattle.aria_base.specs.declared.limits.TheConstants.{MOST_REQUESTS, MOST_WORKERS, TAGS};
ghost use Rattle.dep_rules.specs.Words.{Tell};
ghost use Rattle.batch_engine.specs.Answers.{verdicts_on};

use aria_base::{Free, Memory, Place};
use batch_rules::verdicts::{Rule, Verdict};
use dep_rules::{Numbered, decide};
use std::alloc::Global;
use std::thread::Threads;
use work_crew::{Task, gather, workers_for};

/// To start a thread takes 19 to 50 microseconds, and to decide so many requests of ten keys each 80 to 350.
const LEAST_A_WORKER: usize = 2_048;

/// The requests of a batch, whose keys are numbered and marked.
#[derive(Drop)]
struct Decisions<'a> {
    numbered: &'a Numbered,
    words: &'a [u64],
    tag: u64,
    rule: Rule,
    count: u32,
    ghost counted: { (count ≡ length numbered.now.reads) × (count ≤ MOST_REQUESTS) },
    ghost tag_fits: { tag < TAGS },
    ghost told: { Tell numbered.now tag words.now },
}

impl<'a> Task for Decisions<'a> {
    ghost use Rattle.std.specs.Prelude.{◌+◌, length};
    ghost use Rattle.batch_engine.specs.Answers.{verdict_of};

    type Output = Verdict;

    ghost count = { λ d. length d.numbered.now.reads };

    ghost gives = { λ d place verdict. verdict ≡ verdict_of d.rule d.numbered.now (place + 1) };

    fn len(&self) -> u32 {
        self.count
    }

    fn step(&self) -> Place {
        Place::Mark
    }

    fn run(&self, place: u32) -> Result<Verdict, Memory> {
        Ok(decide(self.numbered, self.words, self.tag, place + 1, self.rule))
    }
}

/// The verdicts, in the order of the list, by workers. A small batch is decided by fewer of them.
pub(crate) fn decide_all<R: Threads + Sync>(
    rt: &R,
    alloc: Global,
    numbered: &Numbered,
    words: &[u64],
    tag: u64,
    rule: Rule,
    workers: u32,
) -> Result<Vec<Verdict>, Memory>
    requires tag { tag < TAGS }
    requires words { Tell numbered.now tag words.now }
    requires workers { (1 ≤ workers) × (workers ≤ MOST_WORKERS) }
    ensures { IfOk result (λ verdicts. verdicts.items ≡ verdicts_on rule numbered.now) }
{
    let count = numbered.len();
    let decisions = Decisions {
        numbered,
        words,
        tag,
        rule,
        count,
    };
    let workers = workers_for(count as usize, LEAST_A_WORKER, workers);
    gather(rt, alloc, &decisions, workers, &Free)
}
