// What the tests share.
use disk_model::MemDisk;
use std::alloc::Global;
use std::process::Abort;

/// What a test says that finds no memory.
pub const MEMORY: &str = "memory";

/// What a body begins with: a procedure of a number and a text; a table `seat` with texts for keys, and one,
/// `b`, without columns.
pub const FRONT: &str =
    "catalog text\n:{\"procs\":[{\"args\":[\"int\",\"text\"],\"body\":[],\"name\":\"add\",\"regs\":[]}],\"tables\":[{\"cols\":[\"int\",\"text\"],\"key\":[\"text\"],\"name\":\"seat\"},{\"cols\":[],\"key\":[\"int\",\"text\"],\"name\":\"b\"}]}\n";

/// Asserts that this holds. An assertion in place costs its function several seconds of proof, and a call of this
/// one next to none.
pub fn holds(rt: &impl Abort, what: &str, found: bool) {
    assert!(rt; found, "{what}");
}

/// Asserts that these bytes were found.
pub fn same_bytes(rt: &impl Abort, what: &str, found: &[u8], wanted: &[u8]) {
    let alike = found == wanted;
    assert!(rt; alike, "{what}: {found:?}");
}

/// A disk whose two slots have these bytes, and whose call of this number fails; with 0 none does.
pub fn slotted(rt: &impl Abort, alloc: Global, zero: &[u8], one: &[u8], failing: u64) -> MemDisk {
    let zero = zero.to_vec(alloc).expect(rt, MEMORY);
    let one = one.to_vec(alloc).expect(rt, MEMORY);
    let fails = Vec::from_array(alloc, [failing]).expect(rt, MEMORY);
    let (two, three) = (Vec::new(alloc), Vec::new(alloc));
    let made = MemDisk::of(alloc, zero, one, two, three, 100, 1_000_000, fails);
    made.expect(rt, MEMORY)
}
