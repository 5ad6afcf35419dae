// What was given whenever a command asks for more of its input.
ghost use Rattle.std.specs.Prelude.{None};

use crate::outcomes::{MEMORY, empty_disk, is_count, new_store};
use aria_base::{Failed, Free, Sink, Source};
use aria_top::aria;
use disk_model::MemDisk;
use std::cell::Cell;
use std::process::Abort;
use std::thread::Threads;

/// Two requests on one row, of which the second waits, and a batch that answers it. The first `end` line ends at
/// 89 and the second at 95; the answers have 43 and 30 bytes, and the listing has 66.
const ONCE: Timed = Timed {
    words: "once",
    input: "catalog bank\nrow acct 1 = 10\nrow acct 2 = 20\nrow acct 3 = 30\ntx add 1 5\ntx add 1 7\nend 1\nend 2\n",
    due: &[(89, 43), (95, 73)],
    whole: 139,
};

/// Over a store `at 0` comes first, in 5 bytes. The `end` lines end at 17, 45 and 51, and the answers have 30, 43
/// and 30 bytes.
const RUN: Timed = Timed {
    words: "run",
    input: "tx add 1 5\nend 1\ntx add 2 5\ntx add 2 7\nend 2\nend 3\n",
    due: &[(0, 5), (17, 35), (45, 78), (51, 108)],
    whole: 174,
};

/// The finding on a report comes behind its end.
const CHECK: Timed = Timed {
    words: "check",
    input: "catalog bank\nrow acct 1 = 10\ntx add 1 5\nend 1\nreport\nbatch 1\n1 ok 15\norder 1\nend 1\nstate 1\nrow acct 1 = 15\nend state\n",
    due: &[],
    whole: 12,
};

/// Arguments and an input. Where so many of its bytes were taken, so many are to be given, the last of these
/// that is reached; and in the end that many.
#[derive(Clone, Copy)]
struct Timed {
    words: &'static str,
    input: &'static str,
    due: &'static [(usize, usize)],
    whole: usize,
}

/// An input that comes in pieces. Whenever more of it is asked for, it looks at what was given.
#[derive(Drop)]
struct Watcher<'a> {
    timed: Timed,
    piece: usize,
    at: usize,
    given: &'a Cell<usize>,
    /// At how many calls another number of bytes was given.
    wrong: usize,
}

impl Source for Watcher<'_> {
    ghost left = { λ _. None };

    ghost faults = { λ _. 0 };

    fn take(&mut self, buf: &mut [u8]) -> Result<usize, Failed> {
        if self.given.get() != due_at(self.timed.due, self.at) {
            self.wrong = self.wrong.saturating_add(1);
        }
        let left = self.timed.input.as_bytes().get(self.at..).unwrap_or(&[]);
        let n = self.piece.min(buf.len()).min(left.len());
        buf[..n].copy_from_slice(&left[..n]);
        self.at = self.at.saturating_add(n);
        Ok(n)
    }
}

/// A sink that counts the bytes that it is given.
#[derive(Drop)]
struct Counter<'a> {
    given: &'a Cell<usize>,
}

impl Sink for Counter<'_> {
    ghost given = { λ _. None };

    ghost faults = { λ _. 0 };

    fn give(&mut self, bytes: &[u8]) -> Result<(), Failed> {
        self.given.set(self.given.get().saturating_add(bytes.len()));
        Ok(())
    }
}

/// How many bytes are to be given where so many were taken.
fn due_at(due: &[(usize, usize)], at: usize) -> usize {
    let mut wanted = 0;
    for (taken, given) in due {
        if *taken <= at {
            wanted = *given;
        }
    }
    wanted
}

/// The status, at how many calls for more another number of bytes was given, and how many were given in all.
fn watched<R: AllocGlobal + Threads + Abort + Sync>(
    rt: &R,
    timed: Timed,
    piece: usize,
    disk: &mut MemDisk,
) -> (u8, usize, usize) {
    let word = String::from_str(rt.alloc(), timed.words).expect(rt, MEMORY);
    let words = Vec::from_array(rt.alloc(), [word]).expect(rt, MEMORY);
    let given = Cell::new(0);
    with_words(rt, timed, piece, &words, &given, disk)
}

/// So for these words, with a count of what is given.
fn with_words<R: AllocGlobal + Threads + Sync>(
    rt: &R,
    timed: Timed,
    piece: usize,
    words: &[String],
    given: &Cell<usize>,
    disk: &mut MemDisk,
) -> (u8, usize, usize) {
    let mut input = Watcher {
        timed,
        piece,
        at: 0,
        given,
        wrong: 0,
    };
    let mut out = Counter { given };
    let status = aria(rt, rt.alloc(), words, &mut input, &mut out, disk, &Free);
    (status, input.wrong, given.get())
}

/// Asserts that all is given in time.
fn in_time<R: AllocGlobal + Threads + Abort + Sync>(
    rt: &R,
    timed: Timed,
    piece: usize,
    disk: &mut MemDisk,
) {
    let (status, wrong, given) = watched(rt, timed, piece, disk);
    is_count(rt, timed.words, u64::from(status), 0);
    is_count(
        rt,
        "calls before which another number was given",
        wrong as u64,
        0,
    );
    is_count(
        rt,
        "bytes that were given",
        given as u64,
        timed.whole as u64,
    );
}

#[test]
fn each_answer_is_given_before_more_is_asked_for(rt: HostRuntime) {
    for piece in [1, 7, 4096] {
        for timed in [ONCE, CHECK] {
            let mut disk = empty_disk(&rt, rt.alloc(), 0);
            in_time(&rt, timed, piece, &mut disk);
        }
        let mut disk = new_store(&rt, 0);
        in_time(&rt, RUN, piece, &mut disk);
    }
}
