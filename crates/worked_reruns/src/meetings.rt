// Two requests that share nothing run at once.
use crate::banks::{bank, run_by_batons, tables, waiting};
use aria_base::Place;
use test_banks::SET;
use test_paces::Gate;

#[test]
fn two_workers_meet_as_they_run_again(rt: HostRuntime) {
    let alloc = rt.alloc();
    let catalog = bank(&rt, alloc);
    let first = tables(&rt, alloc, &[(1, 10), (2, 20)]);
    let waiting = waiting(&rt, alloc, &catalog, &first, &[(SET, 1, 5), (SET, 2, 6)]);
    let gate = Gate::before(Place::Rerun);
    let _both = run_by_batons(&rt, alloc, &catalog, first, &waiting, 2, &gate);
    assert!(rt; !gate.was_missed(), "a worker passed alone");
    assert_eq!(rt; gate.steps(), 2);
}
