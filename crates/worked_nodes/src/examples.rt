// Batches that were worked out by hand, and what may happen to messages.
ghost use Rattle.std.specs.Prelude.{◌≤◌};
ghost use Rattle.node_world.specs.Worlds.{AreLevel};
ghost use Rattle.part_nodes.specs.Ready.{AreReady};
ghost use Rattle.node_world.specs.declared.worlds.TheConstants.{MOST_NODES};

use crate::nets::{
    MEMORY, answer, bank, calls, deliver, nodes, refused, same, settled, shake, start,
    thrice_turned,
};
use answer_text::{append_answer, append_state};
use aria_base::Draws;
use dep_rules::Rule;
use part_nodes::{Nodes, NodesRefused};
use std::alloc::Global;
use std::process::Abort;
use test_banks::{ADD, Account, Ask, COPY, SET};

/// Three accounts.
const HEAD: &[Account] = &[(1, 10), (2, 20), (3, 30)];

/// Each puts what the account behind its own holds, and they go round.
const RING: &[Ask] = &[(COPY, 1, 2), (COPY, 2, 3), (COPY, 3, 1)];

/// What the ring prints by the rule reorder.
const TURNED: &str =
    "batch 1\n1 ok 10\n2 ok 20\n3 wait both 2 1\norder 2 1\nend 1\nstate 1\nrow acct 1 = 10\nrow acct 2 = 10\nrow acct 3 = 20\nend state\n";

/// And by the rule plain.
const PLAIN: &str =
    "batch 1\n1 ok 10\n2 wait raw 1\n3 wait raw 2\norder 1\nend 1\nstate 1\nrow acct 1 = 10\nrow acct 2 = 10\nrow acct 3 = 30\nend state\n";

/// What so many batches print, and the rows that they leave.
fn prints(rt: &impl Abort, alloc: Global, nodes: &Nodes, batches: u64) -> Vec<u8>
    requires level { AreLevel nodes.now.world }
    requires ready { AreReady nodes.now }
    requires few { batches ≤ 10 }
{
    let catalog = bank(rt, alloc);
    let mut out = Vec::new(alloc);
    for number in 1..batches + 1 {
        let answer = answer(rt, nodes, number);
        append_answer(&mut out, &catalog, &answer).expect(rt, MEMORY);
    }
    let rows = nodes.tables().expect(rt, MEMORY);
    append_state(&mut out, &catalog, &rows, batches).expect(rt, MEMORY);
    out
}

/// Asserts that so many batches print this.
fn print(rt: &impl Abort, alloc: Global, nodes: &Nodes, batches: u64, wanted: &str)
    requires level { AreLevel nodes.now.world }
    requires ready { AreReady nodes.now }
    requires few { batches ≤ 10 }
{
    let found = prints(rt, alloc, nodes, batches);
    same(rt, &"prints", &found.as_slice(), &wanted.as_bytes());
}

/// So many nodes with the three accounts, and the ring started on them.
fn ring(rt: &impl Abort, alloc: Global, many: u32, rule: Rule) -> Nodes
    requires { (1 ≤ many) × (many ≤ MOST_NODES) }
    ensures { AreReady result }
{
    let net = nodes(rt, alloc, HEAD, many, rule);
    start(rt, net, calls(rt, alloc, RING))
}

#[test]
fn the_ring_is_that_of_one_database(rt: HostRuntime) {
    let alloc = rt.alloc();
    for many in 1..9 {
        let net = settled(&rt, ring(&rt, alloc, many, Rule::Reorder));
        print(&rt, alloc, &net, 1, TURNED);
        let net = settled(&rt, ring(&rt, alloc, many, Rule::Plain));
        print(&rt, alloc, &net, 1, PLAIN);
    }
}

#[test]
fn each_message_thrice_and_the_last_one_first(rt: HostRuntime) {
    let alloc = rt.alloc();
    for many in 2..9 {
        let mut net = ring(&rt, alloc, many, Rule::Reorder);
        for _ in 0..4 {
            net = thrice_turned(&rt, net);
        }
        let net = settled(&rt, net);
        print(&rt, alloc, &net, 1, TURNED);
    }
}

#[test]
fn nothing_is_answered_before_all_have_it(rt: HostRuntime) {
    let alloc = rt.alloc();
    let net = ring(&rt, alloc, 2, Rule::Reorder);
    assert!(&rt; net.answer(1).expect(&rt, MEMORY).is_none());
    assert!(&rt; net.answer(0).expect(&rt, MEMORY).is_none());
    let net = settled(&rt, net);
    assert!(&rt; net.answer(1).expect(&rt, MEMORY).is_some());
    assert!(&rt; net.answer(0).expect(&rt, MEMORY).is_none());
    assert!(&rt; net.answer(2).expect(&rt, MEMORY).is_none());
}

#[test]
fn no_message_has_so_great_a_number(rt: HostRuntime) {
    let alloc = rt.alloc();
    let net = nodes(&rt, alloc, HEAD, 2, Rule::Plain);
    assert!(&rt; refused(&rt, net, 0) == NodesRefused::NotSent { sent: 0 });
    let net = ring(&rt, alloc, 2, Rule::Reorder);
    let sent = net.sent();
    assert!(&rt; 0 < sent);
    assert!(&rt; refused(&rt, net, 1_000_000) == NodesRefused::NotSent { sent });
    let net = ring(&rt, alloc, 2, Rule::Reorder);
    assert!(&rt; refused(&rt, net, sent) == NodesRefused::NotSent { sent });
    let net = deliver(&rt, ring(&rt, alloc, 2, Rule::Reorder), sent - 1);
    for node in 0..net.nodes() {
        assert!(&rt; net.done(node) == 0);
    }
}

#[test]
fn an_empty_batch_is_complete_at_once(rt: HostRuntime) {
    let alloc = rt.alloc();
    for many in 1..9 {
        let net = nodes(&rt, alloc, HEAD, many, Rule::Reorder);
        let net = start(&rt, net, Vec::new(alloc));
        for node in 0..net.nodes() {
            assert!(&rt; net.done(node) == 1);
        }
        assert!(&rt; net.sent() == 0);
        let net = settled(&rt, net);
        print(
            &rt,
            alloc,
            &net,
            1,
            "batch 1\norder\nend 1\nstate 1\nrow acct 1 = 10\nrow acct 2 = 20\nrow acct 3 = 30\nend state\n",
        );
    }
}

#[test]
fn all_keys_at_one_node(rt: HostRuntime) {
    let alloc = rt.alloc();
    for many in 1..9 {
        let mut net = nodes(&rt, alloc, HEAD, many, Rule::Reorder);
        net = start(
            &rt,
            net,
            calls(&rt, alloc, &[(ADD, 1, 5), (ADD, 1, 7), (SET, 1, 3)]),
        );
        net = start(&rt, net, Vec::new(alloc));
        net = start(&rt, net, Vec::new(alloc));
        let net = settled(&rt, net);
        print(
            &rt,
            alloc,
            &net,
            3,
            "batch 1\n1 ok 15\n2 wait waw 1\n3 wait waw 1\norder 1\nend 1\nbatch 2\n2 ok 22\n3 wait waw 2\norder 2\nend 2\nbatch 3\n3 ok 3\norder 3\nend 3\nstate 3\nrow acct 1 = 3\nrow acct 2 = 20\nrow acct 3 = 30\nend state\n",
        );
    }
}

/// Delivers all messages so many times that are not for this node.
fn all_but(rt: &impl Abort, nodes: Nodes, away: u32, times: u32) -> Nodes
    requires { AreReady nodes }
    ensures { AreReady result }
{
    let mut nodes = nodes;
    for _ in 0..times {
        for k in 0..nodes.sent() {
            if nodes.addressee(k) != Some(away) {
                nodes = deliver(rt, nodes, k);
            }
        }
    }
    nodes
}

#[test]
fn the_others_wait_for_a_node_that_gets_nothing(rt: HostRuntime) {
    let alloc = rt.alloc();
    for away in 0..4 {
        let mut net = nodes(&rt, alloc, HEAD, 4, Rule::Reorder);
        for _ in 0..3 {
            net = start(&rt, net, calls(&rt, alloc, RING));
        }
        net = all_but(&rt, net, away, 20);
        for node in 0..net.nodes() {
            assert!(&rt; net.done(node) == 0);
        }
        let mut draws = Draws::of(5, 1);
        net = settled(&rt, shake(&rt, net, &mut draws, 100));
        for node in 0..net.nodes() {
            assert!(&rt; net.done(node) == 3);
        }
    }
}
