// Where the reading of a script stands.
ghost use Rattle.std.specs.Prelude.{◌≡◌};
ghost use Rattle.script_places.specs.Places.{start, start_with, next_line, without_head, has_batches, has_catalog};

use crate::heads::ScriptCatalog;
use proc_lang::Catalog;
use std::mem;

/// The commands that read a script.
#[derive(Clone, Copy, Debug, PartialEq, Eq)]
pub enum Mode {
    /// Batches, run in memory.
    Once,
    /// The head of a new store.
    Init,
    /// Batches, run over a store.
    Run,
    /// A script, and behind it a report of `once` on it.
    Check,
    /// Rows of order entry.
    Audit,
}

/// Where the reading of a script stands.
#[derive(Drop)]
pub struct ScriptPlace {
    /// The command.
    pub mode: Mode,
    /// How many lines were read.
    pub lines: u64,
    /// The catalogue, as far as it is known.
    pub head: ScriptCatalog,
    /// Whether a line came behind which no row may stand.
    pub rows_ended: bool,
    /// How many calls came behind the last end.
    pub open_calls: usize,
    /// Whether the report has begun.
    pub reports: bool,
}

/// What decides about the end of a batch, beside the place.
#[derive(Clone, Copy, Debug, PartialEq, Eq)]
pub struct Counts {
    /// How many batches were run.
    pub batches: u64,
    /// How many requests have a number.
    pub requests: u64,
    /// How many requests are carried over.
    pub waiting: usize,
}

impl Mode {
    /// Whether the script may name a catalogue; that of `run` is the store's.
    pub(crate) fn has_catalog(self) -> bool
        ensures { result ≡ has_catalog self }
    {
        match self {
            Mode::Once | Mode::Init | Mode::Check | Mode::Audit => true,
            Mode::Run => false,
        }
    }

    /// Whether the script may have batches.
    pub(crate) fn has_batches(self) -> bool
        ensures { result ≡ has_batches self }
    {
        match self {
            Mode::Once | Mode::Run | Mode::Check => true,
            Mode::Init | Mode::Audit => false,
        }
    }
}

impl ScriptPlace {
    /// Before the first line, without a catalogue.
    pub fn start(mode: Mode) -> ScriptPlace
        ensures { result ≡ start mode }
    {
        ScriptPlace {
            mode,
            lines: 0,
            head: ScriptCatalog::Unnamed,
            rows_ended: false,
            open_calls: 0,
            reports: false,
        }
    }

    /// Before the first line of a script of batches alone, which is read with this catalogue.
    pub fn start_with(mode: Mode, catalog: Catalog) -> ScriptPlace
        ensures { result ≡ start_with mode catalog }
    {
        ScriptPlace {
            mode,
            lines: 0,
            head: ScriptCatalog::Ready(catalog),
            rows_ended: true,
            open_calls: 0,
            reports: false,
        }
    }

    /// The catalogue taken out of the place.
    pub(crate) fn without_head(self) -> (ScriptPlace, ScriptCatalog)
        ensures { result ≡ (without_head self, self.head) }
    {
        let mut place = self;
        let head = mem::replace(&mut place.head, ScriptCatalog::Unnamed);
        (place, head)
    }

    /// One line more. The number of a line stands still at its greatest value.
    pub(crate) fn next_line(self) -> ScriptPlace
        ensures { result ≡ next_line self }
    {
        ScriptPlace {
            lines: self.lines.saturating_add(1),
            ..self
        }
    }
}
