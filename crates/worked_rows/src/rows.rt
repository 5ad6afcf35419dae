// Tables and their shards: that each call succeeds where there is memory, that the clauses say what was meant,
// and that keys are spread over the shards. The expected values were worked by hand.
ghost use Rattle.tbl_rows.specs.Shards.{IsWhole};

use aria_base::{Key, Memory, Part, Parts, Row, Txt, Value};
use std::alloc::Global;
use std::process::Abort;
use tbl_rows::{Refused, SHARDS, Shard, Spent, Tables, shard_of};

/// What a test says that finds no memory.
const MEMORY: &str = "memory";

fn number_key(number: i64) -> Key {
    let parts = Parts::one(Part::Int(number));
    Key { table: 3, parts }
}

fn pair_key(first: i64, second: i64) -> Key {
    let parts = Parts::two(Part::Int(first), Part::Int(second));
    Key { table: 3, parts }
}

fn text_key(rt: &impl Abort, alloc: Global, number: i64) -> Key {
    let text = format!(in alloc; "user{number}").expect(rt, MEMORY);
    let text = Txt::of(alloc, text.as_bytes()).expect(rt, "a text");
    let parts = Parts::one(Part::Text(text));
    Key { table: 3, parts }
}

fn row(alloc: Global, number: i64) -> Result<Row, Memory> {
    Ok(Row::from_vec(vec![in alloc; Value::Int(number)]?))
}

/// The number in a row of one number.
fn number_in(row: &Row) -> Option<i64> {
    match row.as_slice() {
        [Value::Int(number)] => Some(*number),
        _ => None,
    }
}

/// Puts a row of one number.
fn put_number(rt: &impl Abort, alloc: Global, tables: &mut Tables, key: Key, number: i64) {
    let row = row(alloc, number).expect(rt, MEMORY);
    tables.put(key, row).expect(rt, MEMORY);
}

/// The rows from 0 on of one table, put from the last to the first, each with ten times its number. The keys of
/// a crowd have one hash.
fn tenfold(rt: &impl Abort, alloc: Global, crowd: bool, count: i64) -> Tables {
    let mut tables = Tables::new(alloc).expect(rt, MEMORY);
    for number in (0..count).rev() {
        let key = key_of(crowd, number);
        put_number(rt, alloc, &mut tables, key, number.saturating_mul(10));
    }
    tables
}

fn key_of(crowd: bool, number: i64) -> Key {
    if crowd {
        crowded_key(number)
    } else {
        number_key(number)
    }
}

/// A key that has one hash with all others of this form. The second number is -2^64 over the golden ratio, times
/// the first, so that a hash of both forgets the first.
fn crowded_key(number: i64) -> Key {
    pair_key(number, number.wrapping_mul(7_046_029_254_386_353_131))
}

/// Asserts that this holds of a number.
fn holds(rt: &impl Abort, what: &str, number: i64, found: bool) {
    assert!(rt; found, "{what} at {number}");
}

/// Asserts that a row of this number stands at the key, or none.
fn finds(rt: &impl Abort, tables: &Tables, key: &Key, wanted: Option<i64>) {
    let found = match tables.get(key) {
        Some(row) => number_in(row),
        None => None,
    };
    let there = tables.get(key).is_some();
    assert!(rt;
        found == wanted && there == wanted.is_some(),
        "{found:?} and not {wanted:?}"
    );
}

/// The first numbers of the keys and of the rows that the tables list.
fn listed(rt: &impl Abort, alloc: Global, tables: &Tables) -> Vec<(i64, i64)> {
    let mut pairs = Vec::new(alloc);
    for (key, row) in tables.rows().expect(rt, MEMORY) {
        if let ([Part::Int(key), ..], Some(row)) = (key.parts.as_slice(), number_in(row)) {
            pairs.push((*key, row)).expect(rt, MEMORY);
        }
    }
    pairs
}

/// Asserts that so many rows are listed, from 0 on, each with ten times its number.
fn lists_tenfold(rt: &impl Abort, alloc: Global, tables: &Tables, count: i64) {
    let mut wanted = Vec::new(alloc);
    for number in 0..count {
        wanted
            .push((number, number.saturating_mul(10)))
            .expect(rt, MEMORY);
    }
    let found = listed(rt, alloc, tables);
    holds(rt, "the rows are listed", count, found == wanted);
}

#[test]
fn rows_are_put_found_deleted_and_listed(rt: HostRuntime) {
    let alloc = rt.alloc();
    let mut tables = tenfold(&rt, alloc, false, 100);
    let present = number_key(42);
    finds(&rt, &tables, &number_key(100), None);
    finds(&rt, &tables, &present, Some(420));
    lists_tenfold(&rt, alloc, &tables, 100);
    put_number(&rt, alloc, &mut tables, number_key(42), -1);
    finds(&rt, &tables, &present, Some(-1));
    for number in 3..100 {
        let there = tables.delete(&number_key(number));
        holds(&rt, "it was there", number, there);
    }
    let there = tables.delete(&present);
    holds(&rt, "it is gone", 42, !there);
    lists_tenfold(&rt, alloc, &tables, 3);
}

/// The key that stands at this place among five in their order.
fn key_at(rt: &impl Abort, alloc: Global, place: i64) -> Key {
    match place {
        0 => Key {
            table: 2,
            ..text_key(rt, alloc, 9)
        },
        1 => number_key(1),
        2 => pair_key(1, -1),
        3 => number_key(2),
        _ => text_key(rt, alloc, 1),
    }
}

#[test]
fn keys_are_listed_by_table_then_by_parts(rt: HostRuntime) {
    let alloc = rt.alloc();
    let mut tables = Tables::new(alloc).expect(&rt, MEMORY);
    for place in [4, 2, 3, 1, 0] {
        put_number(&rt, alloc, &mut tables, key_at(&rt, alloc, place), place);
    }
    let mut place = 0_i64;
    for (_, row) in tables.rows().expect(&rt, MEMORY) {
        holds(&rt, "the row stands", place, number_in(row) == Some(place));
        place = place.wrapping_add(1);
    }
    holds(&rt, "five rows are listed", place, place == 5);
}

#[test]
fn a_copy_is_apart_from_its_source(rt: HostRuntime) {
    let alloc = rt.alloc();
    let mut tables = tenfold(&rt, alloc, false, 100);
    let copy = tables.copy().expect(&rt, MEMORY);
    for number in 0..100 {
        let there = tables.delete(&number_key(number));
        holds(&rt, "it was there", number, there);
    }
    lists_tenfold(&rt, alloc, &tables, 0);
    lists_tenfold(&rt, alloc, &copy, 100);
}

/// Far more keys of one hash than one bucket takes. The last put of these found their bucket full, the first ones
/// did not.
#[test]
fn keys_of_one_hash_are_rows_as_others_are(rt: HostRuntime) {
    let alloc = rt.alloc();
    let mut tables = tenfold(&rt, alloc, true, 200);
    lists_tenfold(&rt, alloc, &tables, 200);
    for number in 0..200_i64 {
        let tenfold = number.saturating_mul(10);
        finds(&rt, &tables, &crowded_key(number), Some(tenfold));
    }
    for number in 3..200_i64 {
        let there = tables.delete(&crowded_key(number));
        holds(&rt, "it was there", number, there);
    }
    lists_tenfold(&rt, alloc, &tables, 3);
}

#[test]
fn shards_are_split_by_their_numbers(rt: HostRuntime) {
    let shards = tenfold(&rt, rt.alloc(), false, 100).split();
    let mut place = 0_u8;
    for shard in &shards {
        holds(
            &rt,
            "the shard's number",
            i64::from(place),
            shard.number() == place,
        );
        place = place.wrapping_add(1);
    }
    holds(&rt, "shards", i64::from(place), place == SHARDS);
}

/// What is done in the shard of a key: its row is put, or deleted and was there or not.
#[derive(Clone, Copy)]
enum Change {
    Put(i64),
    Delete(bool),
}

/// Changes of the rows 0 to 5, and the rows that are there then.
const CHANGES: &[(i64, Change)] = &[
    (7, Change::Put(70)),
    (3, Change::Put(-3)),
    (1, Change::Delete(true)),
    (1, Change::Delete(false)),
    (8, Change::Delete(false)),
    (4, Change::Delete(true)),
    (4, Change::Put(44)),
    (7, Change::Put(77)),
    (-2, Change::Put(-20)),
];

const CHANGED: &[(i64, i64)] = &[
    (-2, -20),
    (0, 0),
    (2, 20),
    (3, -3),
    (4, 44),
    (5, 50),
    (7, 77),
];

fn put(shards: &mut Vec<Shard>, key: Key, row: Row) -> Result<Spent, Refused>
    requires { IsWhole shards.old.items }
    ensures { IsWhole shards.new.items }
{
    let shard = &mut shards[usize::from(shard_of(&key))];
    shard.put(key, row)
}

fn delete(shards: &mut Vec<Shard>, key: &Key) -> bool
    requires { IsWhole shards.old.items }
    ensures { IsWhole shards.new.items }
{
    let shard = &mut shards[usize::from(shard_of(key))];
    shard.delete(key)
}

/// Whether the key's shard has its number, and `delete` answers as it should.
fn make(alloc: Global, shards: &mut Vec<Shard>, number: i64, change: Change) -> Result<bool, Memory>
    requires { IsWhole shards.old.items }
    ensures { IsWhole shards.new.items }
{
    let key = number_key(number);
    let home = shard_of(&key);
    let own = shards[usize::from(home)].number() == home;
    match change {
        Change::Put(to) => {
            put(shards, key, row(alloc, to)?)?;
            Ok(own)
        }
        Change::Delete(found) => Ok(delete(shards, &key) == found && own),
    }
}

#[test]
fn shards_are_changed_apart_and_gathered(rt: HostRuntime) {
    let alloc = rt.alloc();
    let mut shards = tenfold(&rt, alloc, false, 6).split();
    for &(number, change) in CHANGES {
        let made = make(alloc, &mut shards, number, change).expect(&rt, MEMORY);
        holds(&rt, "the change is made", number, made);
    }
    let tables = Tables::gather(shards);
    let found = listed(&rt, alloc, &tables);
    holds(
        &rt,
        "the changed rows are listed",
        0,
        found.as_slice() == CHANGED,
    );
}

/// How the keys of one table lie.
#[derive(Clone, Copy, Debug)]
enum Lie {
    Numbers { from: i64, apart: i64 },
    Pairs,
    Texts,
}

/// Multiplied by the factor of the marks, numbers 832,040 apart come close to one another.
const LIES: [Lie; 5] = [
    Lie::Numbers { from: 0, apart: 1 },
    Lie::Numbers {
        from: -50_000_000,
        apart: 1024,
    },
    Lie::Numbers {
        from: 0,
        apart: 832_040,
    },
    Lie::Pairs,
    Lie::Texts,
];

fn key(rt: &impl Abort, alloc: Global, lie: Lie, number: i64) -> Key {
    match lie {
        Lie::Numbers { from, apart } => number_key(
            number.saturating_mul(apart).saturating_add(from),
        ),
        Lie::Pairs => pair_key(number / 10, number % 10),
        Lie::Texts => text_key(rt, alloc, number),
    }
}

/// How many of 100,000 keys the fullest shard gets.
fn greatest_share(rt: &impl Abort, alloc: Global, lie: Lie) -> u64 {
    let mut counts = [0_u64; 16];
    for number in 0..100_000_i64 {
        let key = key(rt, alloc, lie, number);
        if let Some(count) = counts.get_mut(usize::from(shard_of(&key))) {
            *count = count.wrapping_add(1);
        }
    }
    counts.iter().copied().max().unwrap_or(u64::MAX)
}

/// No shard gets more than a tenth over its share, which is 6,250.
#[test]
fn keys_of_one_table_are_spread_evenly(rt: HostRuntime) {
    for lie in LIES {
        let share = greatest_share(&rt, rt.alloc(), lie);
        assert!(rt; share <= 6_875, "{lie:?} has a shard of {share}");
    }
}
