// What no clause shows: that each call succeeds where there is memory, and that the clauses say
// what was meant. The expected values were worked by hand.
use aria_base::{
    Arg, Args, Bytes, Call, Changes, Draws, Duplicate, FEWEST_PARTS, Failed, FileSink, FileSource,
    Free, Items, Key, Keys, Kind, Kinded, Kinds, LONGEST_TEXT, MOST_COLUMNS, MOST_PARTS, MemSink,
    MemSource, Memory, Pace, Part, Parts, Place, Request, Row, Schema, Sink, Source, Table, Tuple,
    Tuples, Txt, TxtRefused, Value, compare_keys, contains_key, copy_call, copy_key, copy_row,
    is_word, same_key,
};
use std::alloc::{AllocError, Global};
use std::cell::Cell;
use std::cmp::Ordering;
use std::fmt::Debug;
use std::io;
use std::io::{ErrorKind, Read};
use std::process::Abort;
use std::test::Fail;

/// A number or the bytes of a text, from which parts and values are made.
#[derive(Clone, Copy, Debug)]
enum Sample {
    Number(i64),
    Text(&'static [u8]),
}

use Sample::{Number, Text};

/// Asserts that what was found in this case is what was worked out for it. An assertion in place costs
/// its function several seconds of proof, and a call of this one next to none.
fn same<T: PartialEq + Debug>(rt: &impl Abort, case: &impl Debug, found: &T, wanted: &T) {
    assert_eq!(rt; found, wanted, "at {case:?}");
}

fn part(alloc: Global, sample: Sample) -> Result<Part, TxtRefused> {
    match sample {
        Number(number) => Ok(Part::Int(number)),
        Text(bytes) => Ok(Part::Text(Txt::of(alloc, bytes)?)),
    }
}

fn value(alloc: Global, sample: Sample) -> Result<Value, TxtRefused> {
    match sample {
        Number(number) => Ok(Value::Int(number)),
        Text(bytes) => Ok(Value::Text(Txt::of(alloc, bytes)?)),
    }
}

fn key(alloc: Global, table: u16, samples: &[Sample]) -> Result<Key, Fail> {
    let mut parts = Vec::new(alloc);
    for &sample in samples {
        parts.push(part(alloc, sample)?)?;
    }
    if parts.len() < FEWEST_PARTS || parts.len() > MOST_PARTS {
        return Err(Fail::new("a key has one to five parts"));
    }
    let parts = Parts::from_vec(parts);
    Ok(Key { table, parts })
}

fn row(alloc: Global, samples: &[Sample]) -> Result<Row, Fail> {
    let mut values = Vec::new(alloc);
    for &sample in samples {
        values.push(value(alloc, sample)?)?;
    }
    if values.len() > MOST_COLUMNS {
        return Err(Fail::new("a row has at most 16 columns"));
    }
    Ok(Row::from_vec(values))
}

fn kinds(alloc: Global, kinds: &[Kind]) -> Result<Kinds, Fail> {
    Ok(Kinds::from_vec(kinds.to_vec(alloc)?))
}

fn table(alloc: Global, key: &[Kind], cols: &[Kind]) -> Result<Table, Fail> {
    let name = Txt::of(alloc, b"acct")?;
    let key = kinds(alloc, key)?;
    let cols = kinds(alloc, cols)?;
    Ok(Table { name, key, cols })
}

fn schema(alloc: Global) -> Result<Schema, Fail> {
    let accounts = table(alloc, &[Kind::Int], &[Kind::Text, Kind::Int])?;
    let seats = table(alloc, &[Kind::Int, Kind::Text], &[])?;
    Ok(Schema::from_vec(vec![in alloc; accounts, seats]?))
}

fn call(alloc: Global) -> Result<Call, Fail> {
    let pair = Tuple::from_slice(&[i64::MIN, i64::MAX]);
    let pairs = Tuples::from_vec(vec![in alloc; pair]?);
    let note = Txt::of(alloc, b"rent")?;
    let args = Args::from_vec(vec![in alloc; Arg::Int(-1), Arg::Text(note), Arg::List(pairs)]?);
    Ok(Call { proc: 3, args })
}

/// A number, a stream and the first words of their list. They were worked out by the published
/// definition of PCG32 (XSH RR 64/32), by a program that gives the published words of its
/// demonstration, 0xa15c02b7 and so on, for number 42 and stream 54.
const WORDS: [(u32, u64, [u32; 4]); 7] = [
    (42, 54, [0xa15c_02b7, 0x7b47_f409, 0xba1d_3330, 0x83d2_f293]),
    (0, 1, [257813417, 407017181, 896943092, 4175973425]),
    (0, 2, [2057372262, 4263128686, 2742845196, 530195910]),
    (1, 1, [3380776849, 361947764, 3223725655, 2781001427]),
    (1, 2, [257813417, 1540837979, 2991011415, 1948028921]),
    (
        9_999_999,
        1,
        [1490229734, 307129633, 1809512089, 3690794454],
    ),
    (
        9_999_999,
        2,
        [2265850780, 2927909125, 1639070803, 153409728],
    ),
];

#[test]
fn draws_are_words_of_pcg32(rt: HostRuntime) {
    for (number, stream, words) in WORDS {
        let mut draws = Draws::of(number, stream);
        for word in words {
            same(&rt, &(number, stream), &draws.word(), &word);
        }
    }
}

#[test]
fn texts_have_at_most_500_bytes(rt: HostRuntime) -> Result<(), Fail> {
    for byte in [b'a', 0] {
        let refused = Err(TxtRefused::TooLong { len: 501 });
        same(&rt, &byte, &Txt::of(rt.alloc(), &[byte; 501]), &refused);
    }
    let letters = [b'a'; 500];
    for len in [0, LONGEST_TEXT] {
        let wanted = &letters[..len];
        let text = Txt::of(rt.alloc(), wanted)?;
        same(&rt, &len, &text.as_slice(), &wanted);
    }
    Ok(())
}

#[test]
fn texts_hold_printable_ascii(rt: HostRuntime) -> Result<(), Fail> {
    for (bytes, at) in [
        ([34, 97, 97], 0),
        ([97, 97, 34], 2),
        ([97, 34, 34], 1),
        ([97, 92, 97], 1),
        ([97, 31, 97], 1),
        ([97, 97, 127], 2),
        ([255, 97, 97], 0),
    ] {
        let refused = Err(TxtRefused::BadByte { at });
        same(&rt, &bytes, &Txt::of(rt.alloc(), &bytes), &refused);
    }
    for bytes in [[32, 33, 35], [91, 93, 126]] {
        let text = Txt::of(rt.alloc(), &bytes)?;
        same(&rt, &bytes, &text.as_slice(), &bytes.as_slice());
    }
    Ok(())
}

#[test]
fn causes_are_printed(rt: HostRuntime) -> Result<(), Fail> {
    let long = TxtRefused::TooLong { len: 501 };
    let bad = TxtRefused::BadByte { at: 7 };
    let printed = format!(in rt.alloc(); "{Memory}, {}, {long}, {bad}", TxtRefused::Memory)?;
    let wanted =
        "no memory, no memory, 501 bytes are too long for a text, no text holds the byte at 7";
    same(&rt, &"causes", &printed.as_str(), &wanted);
    Ok(())
}

#[test]
fn words_are_told_from_other_bytes(rt: HostRuntime) -> Result<(), Fail> {
    for word in ["a", "acct", "c_data", "z9_", "abcdefghijklmnop"] {
        same(&rt, &word, &is_word(word.as_bytes()), &true);
    }
    for other in ["", "A", "9a", "_a", "a-b", "a b", "aB", "abcdefghijklmnopq"] {
        same(&rt, &other, &is_word(other.as_bytes()), &false);
    }
    Ok(())
}

/// Keys by their tables and parts, in order.
const IN_ORDER: [(u16, &[Sample]); 12] = [
    (0, &[Number(-10)]),
    (0, &[Number(-9)]),
    (0, &[Number(-9), Number(i64::MIN)]),
    (0, &[Number(-9), Text(b"")]),
    (0, &[Number(10)]),
    (0, &[Text(b"")]),
    (0, &[Text(b"10")]),
    (0, &[Text(b"9")]),
    (0, &[Text(b"Zz")]),
    (0, &[Text(b"a")]),
    (0, &[Text(b"aa")]),
    (1, &[Number(i64::MIN)]),
];

fn keys_in_order(alloc: Global) -> Result<Vec<Key>, Fail> {
    let mut keys = Vec::new(alloc);
    for (table, parts) in IN_ORDER {
        keys.push(key(alloc, table, parts)?)?;
    }
    Ok(keys)
}

/// Checks two keys, with their places in a list of keys that is in order.
fn compare_as_placed(rt: &impl Abort, (at, a): (usize, &Key), (place, b): (usize, &Key)) {
    let places = (at, place);
    same(rt, &places, &compare_keys(a, b), &at.cmp(&place));
    same(rt, &places, &(a == b), &(at == place));
    same(rt, &places, &same_key(a, b), &(at == place));
}

#[test]
fn keys_are_in_order(rt: HostRuntime) -> Result<(), Fail> {
    let keys = keys_in_order(rt.alloc())?;
    for one in keys.iter().enumerate() {
        for other in keys.iter().enumerate() {
            compare_as_placed(&rt, one, other);
        }
    }
    Ok(())
}

#[test]
fn keys_are_found(rt: HostRuntime) -> Result<(), Fail> {
    let keys = keys_in_order(rt.alloc())?;
    for (at, key) in keys.iter().enumerate() {
        same(&rt, &at, &contains_key(&keys, key), &true);
        same(&rt, &at, &contains_key(&keys[..at], key), &false);
    }
    Ok(())
}

/// Checks that a copy of the value is equal to it.
fn copies<T: Duplicate + PartialEq + Debug>(
    rt: &impl Abort,
    alloc: Global,
    value: T,
) -> Result<(), Memory> {
    is_copy(rt, value.duplicate(alloc), value)
}

/// Checks that this copy of the value was made, and is equal to it.
fn is_copy<T: PartialEq + Debug + Drop>(
    rt: &impl Abort,
    copy: Result<T, Memory>,
    value: T,
) -> Result<(), Memory> {
    let copy = copy?;
    same(rt, &"a copy", &copy, &value);
    Ok(())
}

#[test]
fn copies_are_equal(rt: HostRuntime) -> Result<(), Fail> {
    let alloc = rt.alloc();
    copies(&rt, alloc, schema(alloc)?)?;
    copies(
        &rt,
        alloc,
        Request {
            q: u64::MAX,
            call: call(alloc)?,
        },
    )?;
    let present = (
        key(alloc, 9, &[Number(4), Text(b"x")])?,
        Some(row(alloc, &[Text(b"Ann Lee"), Number(-7)])?),
    );
    let absent = (key(alloc, 0, &[Number(0)])?, None);
    copies(
        &rt,
        alloc,
        Changes::from_vec(vec![in alloc; present, absent]?),
    )?;
    copies(
        &rt,
        alloc,
        Items::<u32>::from_vec(vec![in alloc; 0, u32::MAX]?),
    )?;
    copies(&rt, alloc, Bytes::from_vec(vec![in alloc; 0, 255]?))?;
    Ok(())
}

#[test]
fn rows_and_calls_are_copied(rt: HostRuntime) -> Result<(), Fail> {
    let alloc = rt.alloc();
    let row = row(alloc, &[Text(b"Ann Lee"), Number(-7)])?;
    is_copy(&rt, copy_row(alloc, &row), row)?;
    let call = call(alloc)?;
    is_copy(&rt, copy_call(alloc, &call), call)?;
    Ok(())
}

/// The parts of keys of each length.
const LENGTHS: [&[Sample]; 5] = [
    &[Text(b"x")],
    &[Number(4), Text(b"x")],
    &[Number(1), Number(2), Number(3)],
    &[Text(b""), Number(2), Number(3), Text(b"y")],
    &[Number(5), Number(4), Number(3), Number(2), Number(1)],
];

#[test]
fn keys_of_each_length_are_copied(rt: HostRuntime) -> Result<(), Fail> {
    for (at, parts) in LENGTHS.iter().enumerate() {
        let key = key(rt.alloc(), 9, parts)?;
        same(&rt, &"length", &key.parts.as_slice().len(), &(at + 1));
        is_copy(&rt, copy_key(rt.alloc(), &key), key)?;
    }
    Ok(())
}

fn fits(alloc: Global, table: u16, parts: &[Sample], columns: &[Sample]) -> Result<bool, Fail> {
    let key = key(alloc, table, parts)?;
    let row = row(alloc, columns)?;
    Ok(schema(alloc)?.fits(&key, &row))
}

const COLUMNS: &[Sample] = &[Text(b"Ann"), Number(5)];

/// A table, the parts of a key, columns, and whether these fit that table.
const FITS: [(u16, &[Sample], &[Sample], bool); 10] = [
    (0, &[Number(1)], COLUMNS, true),
    (0, &[Text(b"1")], COLUMNS, false),
    (0, &[Number(1), Number(1)], COLUMNS, false),
    (0, &[Number(1)], &[Number(5), Text(b"Ann")], false),
    (0, &[Number(1)], &[Text(b"Ann")], false),
    (0, &[Number(1)], &[], false),
    (1, &[Number(1), Text(b"A")], &[], true),
    (1, &[Number(1)], &[], false),
    (1, &[Number(1), Text(b"A")], &[Number(0)], false),
    (2, &[Number(1)], &[], false),
];

#[test]
fn fits_in_number_and_kind(rt: HostRuntime) -> Result<(), Fail> {
    for (table, parts, columns, wanted) in FITS {
        let found = fits(rt.alloc(), table, parts, columns)?;
        same(&rt, &(table, parts, columns), &found, &wanted);
    }
    Ok(())
}

#[test]
fn bytes_are_in_order(rt: HostRuntime) -> Result<(), Fail> {
    let low = Bytes::from_vec(vec![in rt.alloc(); 1, 200]?);
    let high = Bytes::from_vec(vec![in rt.alloc(); 2]?);
    same(&rt, &"cmp", &low.cmp(&high), &Ordering::Less);
    let partial = Some(Ordering::Less);
    same(&rt, &"partial_cmp", &low.partial_cmp(&high), &partial);
    Ok(())
}

#[test]
fn lists_give_their_items(rt: HostRuntime) -> Result<(), Fail> {
    let bytes = Bytes::from_vec(vec![in rt.alloc(); 1, 200]?).into_vec();
    same(&rt, &"bytes", &bytes.as_slice(), &[1, 200].as_slice());
    let tuple = Tuple::from_slice(&[-5, 5]);
    same(&rt, &"a tuple", &tuple.as_slice(), &[-5, 5].as_slice());
    Ok(())
}

#[test]
fn parts_tell_their_kind(rt: HostRuntime) -> Result<(), Fail> {
    let key = key(rt.alloc(), 0, &[Text(b"0")])?;
    let keys = Keys::from_vec(vec![in rt.alloc(); key]?);
    for key in keys.as_slice() {
        for part in key.parts.as_slice() {
            same(&rt, &"a text", &part.kind(), &Kind::Text);
        }
    }
    Ok(())
}

/// Checks what a source answers to calls with room for four bytes, and tells which bytes it gave. Those
/// that fail write nothing.
fn given(
    rt: &impl Abort,
    alloc: Global,
    source: &mut MemSource,
    answers: &[Result<usize, Failed>],
) -> Result<Vec<u8>, AllocError> {
    let mut given = Vec::new(alloc);
    for answer in answers {
        let mut buf = [0; 4];
        same(rt, &answers, &source.take(&mut buf), answer);
        match answer {
            Ok(n) => given.extend_from_slice(buf.split_at((*n).min(4)).0)?,
            Err(Failed) => same(rt, &answers, &buf, &[0; 4]),
        }
    }
    Ok(given)
}

#[test]
fn memory_source_gives_pieces(rt: HostRuntime) -> Result<(), Fail> {
    let alloc = rt.alloc();
    for (piece, answers) in [
        (1, [Err(Failed), Err(Failed), Ok(1), Ok(1), Ok(0)]),
        (7, [Err(Failed), Err(Failed), Ok(2), Ok(0), Ok(0)]),
    ] {
        let mut source = MemSource::new(b"ab".to_vec(alloc)?, piece, vec![in alloc; 1, 2]?);
        let given = given(&rt, alloc, &mut source, &answers)?;
        same(&rt, &piece, &given.as_slice(), &b"ab".as_slice());
    }
    Ok(())
}

#[test]
fn memory_sink_fails_by_number_and_by_room(rt: HostRuntime) -> Result<(), Fail> {
    let alloc = rt.alloc();
    let mut sink = MemSink::new(alloc, 5, vec![in alloc; 2]?)?;
    for (bytes, answer, given) in [
        (b"ab".as_slice(), Ok(()), b"ab".as_slice()),
        (b"x".as_slice(), Err(Failed), b"ab".as_slice()),
        (b"cdef".as_slice(), Err(Failed), b"ab".as_slice()),
        (b"cde".as_slice(), Ok(()), b"abcde".as_slice()),
        (b"".as_slice(), Ok(()), b"abcde".as_slice()),
        (b"f".as_slice(), Err(Failed), b"abcde".as_slice()),
    ] {
        same(&rt, &bytes, &sink.give(bytes), &answer);
        same(&rt, &bytes, &sink.bytes(), &given);
    }
    Ok(())
}

/// A reader that is interrupted, then gives bytes, and is broken from then on.
#[derive(Drop)]
struct Troubled<'a> {
    interrupts: u8,
    left: &'a [u8],
}

impl Read for Troubled<'_> {
    fn read(&mut self, buf: &mut [u8]) -> io::Result<usize> {
        if self.interrupts > 0 {
            self.interrupts -= 1;
            return Err(ErrorKind::Interrupted.into());
        }
        if self.left.is_empty() {
            return Err(ErrorKind::BrokenPipe.into());
        }
        self.left.read(buf)
    }
}

/// Checks what a source answers to calls with one buffer, and what that then holds.
fn fills(
    rt: &impl Abort,
    source: &mut impl Source,
    buf: &mut [u8; 2],
    steps: &[(Result<usize, Failed>, &[u8; 2])],
) {
    for (answer, bytes) in steps {
        same(rt, bytes, &source.take(buf), answer);
        same(rt, answer, buf, bytes);
    }
}

#[test]
fn file_source_gives_what_the_reader_gives(rt: HostRuntime) {
    let mut buf = [0; 2];
    let mut source = FileSource::new(b"abc".as_slice());
    let steps = [(Ok(2), b"ab"), (Ok(1), b"cb"), (Ok(0), b"cb")];
    fills(&rt, &mut source, &mut buf, &steps);
    let mut troubled = FileSource::new(Troubled {
        interrupts: 2,
        left: b"de",
    });
    let steps = [(Ok(2), b"de"), (Err(Failed), b"de")];
    fills(&rt, &mut troubled, &mut buf, &steps);
}

#[test]
fn file_sink_gives_to_the_writer(rt: HostRuntime) -> Result<(), Fail> {
    let mut output = Vec::with_capacity(rt.alloc(), 4)?;
    let mut sink = FileSink::new(&mut output);
    for bytes in [b"ab", b"cd"] {
        same(&rt, bytes, &sink.give(bytes), &Ok(()));
    }
    drop(sink);
    same(&rt, &"output", &output.as_slice(), &b"abcd".as_slice());
    let mut room = [0; 3];
    let mut narrow = FileSink::new(room.as_mut_slice());
    same(&rt, &"no room", &narrow.give(b"abcd"), &Err(Failed));
    Ok(())
}

/// A pace that counts the steps that it is told of.
#[derive(Drop)]
struct Steps {
    told: Cell<u32>,
}

impl Pace for Steps {
    fn at(&self, _who: u32, _place: Place) {
        self.told.set(self.told.get().saturating_add(1));
    }
}

/// Makes one step of each kind.
fn walk(pace: &impl Pace) {
    for place in [
        Place::Execute,
        Place::Mark,
        Place::Draw,
        Place::Install,
        Place::Rerun,
    ] {
        pace.at(0, place);
    }
}

#[test]
fn a_pace_is_told_of_each_step(rt: HostRuntime) {
    let steps = Steps { told: Cell::new(0) };
    walk(&steps);
    assert_eq!(rt; steps.told.get(), 5);
    walk(&Free);
}
