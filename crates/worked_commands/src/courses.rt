// Drawn scripts, each with what it has to print.
ghost use Rattle.std.specs.Prelude.{◌≤◌};

use crate::outcomes::MEMORY;
use crate::prints::{append_answer, append_ask, append_state};
use aria_base::Draws;
use batch_rules::verdicts::Rule;
use dep_rules::Config;
use proc_lang::Catalog;
use std::alloc::Global;
use std::process::Abort;
use tbl_rows::Tables;
use test_banks::{
    Account, Ask, Plain, SET, calls, drawn, drawn_ask, drawn_rule, row_of, run_plainly,
};

/// Accounts that hold their own numbers, and one to which nothing can be added.
const ACCOUNTS: [Account; 6] = [(1, 1), (2, 2), (3, 3), (4, 4), (5, 5), (6, i64::MAX)];

/// More requests wait at most before no new ones come.
const CROWD: usize = 24;

/// How a script is read and written: the settings of its next batch, whether rows are listed behind each
/// answer, and what ends a line.
#[derive(Clone, Copy)]
pub struct Style {
    pub config: Config,
    pub each: bool,
    pub line_end: &'static str,
}

/// Some lines of a script, what they print where their batches are run, and what they print over a store
/// that has these batches.
#[derive(Drop)]
pub struct Stretch {
    pub lines: String,
    pub answers: String,
    pub kept: String,
}

/// A script, and what it has to print.
#[derive(Drop)]
pub struct Course {
    /// How it begins.
    pub style: Style,
    pub drain: bool,
    pub head: String,
    pub front: Stretch,
    /// How many batches the first part has, and the rows behind them.
    pub batches: u64,
    pub cut: String,
    pub back: Stretch,
    /// What comes behind its last line: answers to what still waits, and rows.
    pub end: String,
}

pub fn rule_word(rule: Rule) -> &'static str {
    match rule {
        Rule::Plain => "plain",
        Rule::Reorder => "reorder",
    }
}

/// Any settings; workers, replicas and batons are no matter of a script.
fn drawn_config(draws: &mut Draws) -> Config {
    Config {
        rule: drawn_rule(draws),
        fallback: drawn(draws, 102) - 1,
        workers: 1,
        batons: false,
    }
}

fn drawn_style(draws: &mut Draws) -> Style {
    Style {
        config: drawn_config(draws),
        each: drawn(draws, 2) == 1,
        line_end: if drawn(draws, 2) == 1 { "\n" } else { "\r\n" },
    }
}

/// The catalogue and the rows.
fn head_of(rt: &impl Abort, alloc: Global, style: &Style) -> String {
    let line_end = style.line_end;
    let mut head = String::new(alloc);
    write!(head, "catalog bank{line_end}").expect(rt, MEMORY);
    for (account, amount) in ACCOUNTS {
        write!(head, "row acct {account} = {amount}{line_end}").expect(rt, MEMORY);
    }
    head
}

/// The accounts before the first batch.
fn tables_of(rt: &impl Abort, alloc: Global) -> Tables {
    let mut tables = Tables::new(alloc).expect(rt, MEMORY);
    for account in ACCOUNTS {
        let (key, row) = row_of(alloc, account).expect(rt, MEMORY);
        tables.put(key, row).expect(rt, MEMORY);
    }
    tables
}

/// Runs a batch, and appends its answer, and the rows behind it where they are listed there.
fn append_batch(
    rt: &impl Abort,
    alloc: Global,
    catalog: &Catalog,
    text: &mut String,
    (plain, asks): (Plain, &[Ask]),
    style: &Style,
) -> Plain {
    let new = calls(alloc, asks).expect(rt, MEMORY);
    let run = run_plainly(alloc, catalog, plain, new, &style.config);
    let (plain, answer) = run.expect(rt, MEMORY).expect(rt, "there is room");
    append_answer(rt, text, &answer);
    if style.each {
        append_state(rt, text, &plain);
    }
    plain
}

/// At most eight requests, and none where many wait.
fn drawn_asks(rt: &impl Abort, alloc: Global, draws: &mut Draws, waiting: usize) -> Vec<Ask> {
    let mut asks = Vec::new(alloc);
    if waiting <= CROWD {
        for _ in 1..drawn(draws, 9) {
            asks.push(drawn_ask(draws)).expect(rt, MEMORY);
        }
    }
    asks
}

impl Stretch {
    fn new(alloc: Global) -> Stretch {
        Stretch {
            lines: String::new(alloc),
            answers: String::new(alloc),
            kept: String::new(alloc),
        }
    }

    /// Appends the line of a request.
    fn add_ask(&mut self, rt: &impl Abort, ask: Ask, style: &Style) {
        append_ask(rt, &mut self.lines, ask);
        self.lines.push_str(style.line_end).expect(rt, MEMORY);
    }

    /// Appends the end of a batch.
    fn add_end(&mut self, rt: &impl Abort, number: u64, style: &Style) {
        let line_end = style.line_end;
        write!(self.lines, "end {number}{line_end}").expect(rt, MEMORY);
        write!(self.kept, "batch {number} kept\n").expect(rt, MEMORY);
    }

    /// Appends a batch, and runs it.
    fn add_batch(
        &mut self,
        rt: &impl Abort,
        alloc: Global,
        catalog: &Catalog,
        draws: &mut Draws,
        plain: Plain,
        style: &Style,
    ) -> Plain {
        let asks = drawn_asks(rt, alloc, draws, plain.waiting.len());
        for &ask in &asks {
            self.add_ask(rt, ask, style);
        }
        let answers = &mut self.answers;
        let plain = append_batch(rt, alloc, catalog, answers, (plain, &asks), style);
        self.add_end(rt, plain.batches, style);
        plain
    }

    /// Appends a batch that was run before.
    fn add_kept(&mut self, rt: &impl Abort, number: u64, style: &Style) {
        self.add_ask(rt, (SET, 1, 99), style);
        self.add_end(rt, number, style);
        write!(self.answers, "batch {number} kept\n").expect(rt, MEMORY);
    }

    /// Appends other settings, which count from the next batch on.
    fn add_settings(&mut self, rt: &impl Abort, draws: &mut Draws, style: &mut Style) {
        let line_end = style.line_end;
        style.config = drawn_config(draws);
        let rule = rule_word(style.config.rule);
        let percent = style.config.fallback;
        write!(self.lines, "settings {rule} {percent}{line_end}").expect(rt, MEMORY);
    }

    /// Appends a line that says nothing.
    fn add_remark(&mut self, rt: &impl Abort, draws: &mut Draws, style: &Style) {
        let remark = if drawn(draws, 2) == 1 { "# end 1" } else { " " };
        self.lines.push_str(remark).expect(rt, MEMORY);
        self.lines.push_str(style.line_end).expect(rt, MEMORY);
    }
}

/// Draws some lines of a script behind those that left this database.
fn drawn_stretch(
    rt: &impl Abort,
    alloc: Global,
    catalog: &Catalog,
    draws: &mut Draws,
    mut plain: Plain,
    style: &mut Style,
) -> (Stretch, Plain) {
    let mut lines = Stretch::new(alloc);
    for _ in 0..drawn(draws, 5) {
        match drawn(draws, 8) {
            1 => lines.add_settings(rt, draws, style),
            2 => lines.add_remark(rt, draws, style),
            3 if plain.batches > 0 => lines.add_kept(rt, plain.batches, style),
            _ => plain = lines.add_batch(rt, alloc, catalog, draws, plain, style),
        }
    }
    (lines, plain)
}

/// What comes behind the last line.
fn ending(
    rt: &impl Abort,
    alloc: Global,
    catalog: &Catalog,
    mut plain: Plain,
    style: &Style,
    drain: bool,
) -> String {
    let mut end = String::new(alloc);
    // Each batch finishes one of them or more.
    for _ in 0..plain.waiting.len() {
        if drain && !plain.waiting.is_empty() {
            plain = append_batch(rt, alloc, catalog, &mut end, (plain, &[]), style);
        }
    }
    if !style.each {
        append_state(rt, &mut end, &plain);
    }
    end
}

/// Draws a script.
pub fn drawn_course(
    rt: &impl Abort,
    alloc: Global,
    catalog: &Catalog,
    draws: &mut Draws,
) -> Course {
    let first = drawn_style(draws);
    let drain = drawn(draws, 2) == 1;
    let plain = Plain::begin(alloc, tables_of(rt, alloc));
    let mut style = first;
    let (front, plain) = drawn_stretch(rt, alloc, catalog, draws, plain, &mut style);
    let batches = plain.batches;
    let mut cut = String::new(alloc);
    append_state(rt, &mut cut, &plain);
    let (back, plain) = drawn_stretch(rt, alloc, catalog, draws, plain, &mut style);
    Course {
        style: first,
        drain,
        head: head_of(rt, alloc, &first),
        front,
        batches,
        cut,
        back,
        end: ending(rt, alloc, catalog, plain, &style, drain),
    }
}
