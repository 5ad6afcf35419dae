// Drawn batches on nodes, beside the rules in their plainest form.
ghost use Rattle.node_world.specs.Worlds.{AreLevel};
ghost use Rattle.part_nodes.specs.Ready.{AreReady};

use crate::nets::{
    MEMORY, accounts, answer, bank, calls, nodes, same, settled, shake, start, thrice_turned,
};
use aria_base::Draws;
use batch_core::Answer;
use dep_rules::{Config, Rule};
use part_nodes::Nodes;
use std::alloc::Global;
use std::process::Abort;
use tbl_rows::Tables;
use test_banks::{Account, Ask, Plain, drawn, drawn_ask, drawn_rule, run_plainly};

/// Accounts that hold their own numbers.
const ACCOUNTS: [Account; 6] = [(1, 1), (2, 2), (3, 3), (4, 4), (5, 5), (6, 6)];

/// What batches come to on one database.
#[derive(Drop)]
struct Course {
    answers: Vec<Answer>,
    rows: Tables,
}

/// At most seven calls a batch, and at most five batches.
fn drawn_batches(rt: &impl Abort, alloc: Global, draws: &mut Draws) -> Vec<Vec<Ask>> {
    let mut batches = Vec::new(alloc);
    for _ in 0..drawn(draws, 5) {
        let mut asks = Vec::new(alloc);
        for _ in 1..drawn(draws, 8) {
            asks.push(drawn_ask(draws)).expect(rt, MEMORY);
        }
        batches.push(asks).expect(rt, MEMORY);
    }
    batches
}

/// The batches one after the other, by the plainest form.
fn plainly(rt: &impl Abort, alloc: Global, batches: &[Vec<Ask>], rule: Rule) -> Course {
    let catalog = bank(rt, alloc);
    let config = Config {
        rule,
        fallback: 101,
        batons: false,
        workers: 1,
    };
    let mut plain = Plain::begin(alloc, accounts(rt, alloc, &ACCOUNTS));
    let mut answers = Vec::new(alloc);
    for asks in batches {
        let new = calls(rt, alloc, asks);
        let ran = run_plainly(alloc, &catalog, plain, new, &config).expect(rt, MEMORY);
        let (next, answer) = ran.expect(rt, "there is room");
        plain = next;
        answers.push(answer).expect(rt, MEMORY);
    }
    Course {
        answers,
        rows: plain.tables,
    }
}

/// Asserts that the nodes' rows and answers are these.
fn same_course(rt: &impl Abort, case: u32, nodes: &Nodes, course: &Course)
    requires level { AreLevel nodes.now.world }
    requires ready { AreReady nodes.now }
{
    for place in 0..course.answers.len() {
        let found = answer(rt, nodes, place as u64 + 1);
        same(rt, &case, &found, &course.answers[place]);
    }
    same_rows(rt, case, &nodes.tables().expect(rt, MEMORY), &course.rows);
}

fn same_rows(rt: &impl Abort, case: u32, found: &Tables, wanted: &Tables) {
    let found = found.rows().expect(rt, MEMORY);
    let wanted = wanted.rows().expect(rt, MEMORY);
    same(rt, &case, &found, &wanted);
}

/// Runs drawn batches on drawn nodes, with drawn deliveries, and asserts that they come to what one database comes to.
fn run_both(rt: &impl Abort, alloc: Global, draws: &mut Draws, case: u32) {
    let batches = drawn_batches(rt, alloc, draws);
    let rule = drawn_rule(draws);
    let course = plainly(rt, alloc, &batches, rule);
    let many = drawn(draws, 8);
    let mut net = nodes(rt, alloc, &ACCOUNTS, many, rule);
    for asks in &batches {
        net = start(rt, net, calls(rt, alloc, asks));
        let times = drawn(draws, 200) - 1;
        net = shake(rt, net, draws, times);
        if drawn(draws, 10) == 1 {
            net = thrice_turned(rt, net);
        }
    }
    same_course(rt, case, &settled(rt, net), &course);
}

#[test]
fn a_thousand_courses_are_those_of_one_database(rt: HostRuntime) {
    let alloc = rt.alloc();
    let mut draws = Draws::of(36, 1);
    for case in 0..1_000 {
        run_both(&rt, alloc, &mut draws, case);
    }
}
