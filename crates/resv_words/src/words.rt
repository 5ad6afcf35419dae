// Two words for each key, on which any number of threads leave marks.
ghost use Rattle.std.specs.Prelude.{◌≡◌, ◌+◌, ◌-◌, ◌*◌, ◌^◌, ◌<◌, ◌≤◌, [], ◌++◌, length, true, false, IfOk, OnOk, OnErr};
ghost use Rattle.aria_base.specs.declared.limits.TheConstants.{MOST_REQUESTS, TAGS};
ghost use Rattle.aria_base.specs.Reserved.{number_under, AreAbove};
ghost use Rattle.aria_base.specs.Shares.{all_shares};
ghost use Rattle.resv_words.specs.Seats.{most_keys, with_mark, closed_of, Tells};

use crate::rules::{LeastNumbers, MarksRead, MarksWrite, OneShare, Origin, Together, View};
use aria_base::{Memory, TAG_SPAN};
use atomic_table::{Seat, Table};
use std::alloc::Global;
use std::marker::Model;
use std::snapshot::Snapshot;

/// Two words for each key number, which any number of threads mark at once through a `&`, each with
/// a seat of its own.
#[derive(Drop)]
pub struct Words {
    // The words of key k are 2k, for the requests that write it, and 2k + 1, for those that read it. The
    // last word is no key's: without keys too there is a word 0, on which seats are split and joined.
    table: Table<(), View, Origin, LeastNumbers, Global>,
    keys: u32,
    tag: u64,
    alloc: Global,
}

impl Model for Words {
    ghost use Rattle.resv_words.specs.Seats.{Laid};

    ghost Value = { Laid };

    ghost use Rattle.resv_words.specs.Seats.{IsLaid};

    ghost view = { λ w. record { table = w.table.shared.table_id; keys = w.keys; tag = w.tag; old = w.table.shared.key.old.value.items } };

    ghost invariant = { λ w. IsLaid w.table.shared.table_id.words w.table.shared.table_id.slots w.keys w.table.shared.key.tag w.tag w.table.shared.key.old.value.items };
}

/// The right to mark, with no bytes. It may go to another thread.
#[derive(Drop)]
pub struct WordSeat {
    seat: Seat<(), View>,
}

impl Model for WordSeat {
    ghost use Rattle.resv_words.specs.Seats.{Marker};

    ghost Value = { Marker };

    ghost use Rattle.resv_words.specs.Seats.{IsSeated};

    ghost view = { λ s. record { table = s.seat.table_id; share = s.seat.me.0.share; marks = s.seat.me.0.marks } };

    ghost invariant = { λ s. IsSeated s.seat.me };
}

/// The words of all marks that were made. It cannot be copied.
#[derive(Drop)]
pub struct Closed {
    words: Vec<u64>,
    tag: u64,
    laid: Snapshot<Words>,
    last: Snapshot<WordSeat>,
}

impl Model for Closed {
    ghost use Rattle.resv_words.specs.Seats.{ClosedWords};

    ghost Value = { ClosedWords };

    ghost use Rattle.std.specs.Prelude.{◌≡◌};
    ghost use Rattle.resv_words.specs.Seats.{closed_of, Tells};

    ghost view = { λ c. closed_of c.laid.value c.last.value };

    ghost invariant = { λ c. (c.tag ≡ c.laid.value.tag) × Tells (closed_of c.laid.value c.last.value) c.words.items };
}

impl Words {
    /// Words over old numbers, the start value of each place, and over the greatest `u64` where the
    /// old ones end. `tag` is of this batch alone: each old number is above every number of it.
    pub fn over(
        alloc: Global,
        mut old: Vec<u64>,
        keys: u32,
        tag: u64,
    ) -> Result<(Words, WordSeat), Memory>
        requires keys { keys ≤ most_keys }
        requires old { length old.items ≤ 2 * keys }
        requires tag { tag < TAGS }
        requires above { AreAbove tag old.items }
        ensures words { IfOk result (λ made. made.0 ≡ record { table = made.0.table; keys = keys; tag = tag; old = old.items }) }
        ensures seat { IfOk result (λ made. made.1 ≡ record { table = made.0.table; share = all_shares; marks = [] }) }
    {
        let origin = Origin {
            old: Snapshot::of(&old),
            tag,
        };
        let word_count = 2 * keys as usize + 1;
        old.reserve_exact(word_count - old.len())?;
        old.resize(word_count, u64::MAX)?;
        let (table, seat) = Table::of_words(alloc, &old, &origin)?;
        Ok((
            Words {
                table,
                keys,
                tag,
                alloc,
            },
            WordSeat { seat },
        ))
    }

    /// Marks the key as read by the request at place `tid` of the batch.
    pub fn mark_read(&self, seat: &mut WordSeat, tid: u32, key: u32)
        requires own { seat.old.table ≡ self.now.table }
        requires tid { (1 ≤ tid) × (tid ≤ MOST_REQUESTS) }
        requires key { key < self.now.keys }
        ensures { seat.new ≡ with_mark seat.old tid key false }
    {
        let word = 2 * key as usize + 1;
        let number = self.number_of(tid);
        self.table
            .shared
            .fetch_min::<MarksRead>(&mut seat.seat, word, number);
    }

    /// Marks the key as written by the request at place `tid` of the batch.
    pub fn mark_write(&self, seat: &mut WordSeat, tid: u32, key: u32)
        requires own { seat.old.table ≡ self.now.table }
        requires tid { (1 ≤ tid) × (tid ≤ MOST_REQUESTS) }
        requires key { key < self.now.keys }
        ensures { seat.new ≡ with_mark seat.old tid key true }
    {
        let word = 2 * key as usize;
        let number = self.number_of(tid);
        self.table
            .shared
            .fetch_min::<MarksWrite>(&mut seat.seat, word, number);
    }

    /// A second seat, for another thread. It begins with the marks of the first.
    pub fn split(&self, seat: &mut WordSeat) -> Result<WordSeat, Memory>
        requires own { seat.old.table ≡ self.now.table }
        requires share { 2 ≤ seat.old.share }
        ensures parent { OnOk result (seat.new ≡ record seat.old { share = seat.old.share - 1 }) }
        ensures child { IfOk result (λ other. other ≡ record seat.old { share = 1 }) }
        ensures err { OnErr result (seat.new ≡ seat.old) }
    {
        let other = self.table.shared.split_seat::<OneShare>(&mut seat.seat);
        Ok(WordSeat { seat: other })
    }

    /// Gives the other's marks and shares to the seat.
    pub fn join(&self, seat: &mut WordSeat, other: WordSeat)
        requires own { seat.old.table ≡ self.now.table }
        requires other { other.table ≡ self.now.table }
        ensures { seat.new ≡ record { table = seat.old.table; share = seat.old.share + other.share; marks = seat.old.marks ++ other.marks } }
    {
        self.table
            .shared
            .join_seat::<Together>(&mut seat.seat, other.seat);
    }

    /// The words, once all other seats were joined to this one.
    pub fn close(self, seat: WordSeat) -> Result<Closed, Memory>
        requires own { seat.table ≡ self.table }
        requires whole { seat.share ≡ all_shares }
        ensures { IfOk result (λ closed. closed ≡ closed_of self seat) }
    {
        let laid = Snapshot::of(&self);
        let last = Snapshot::of(&seat);
        let count = 2 * self.keys as usize;

        // With room for the last word too, so that the next `over` fills the block up in place.
        let mut words = Vec::with_capacity(self.alloc, count + 1)?;
        let Words { table, tag, .. } = self;
        let closed = table.close_with(seat.seat);
        for place in 0..count {
            words.push(closed.word(place)).unwrap();
        }
        closed.free();
        Ok(Closed {
            words,
            tag,
            laid,
            last,
        })
    }

    fn number_of(&self, tid: u32) -> u64
        requires { tid ≤ MOST_REQUESTS }
        ensures { result ≡ number_under self.now.tag tid }
    {
        self.tag * TAG_SPAN + u64::from(tid)
    }
}

impl Closed {
    /// The words, two a key number k: at 2k for the requests that write the key, at 2k + 1 for those
    /// that read it.
    pub fn words(&self) -> &[u64]
        ensures { Tells self.now result.now }
    {
        self.words.as_slice()
    }

    /// The words by value, two a key number k: at 2k for the requests that write the key, at 2k + 1 for
    /// those that read it.
    pub fn into_words(self) -> Vec<u64>
        ensures { Tells self result.items }
    {
        self.words
    }

    /// The tag that the words were made under.
    pub fn tag(&self) -> u64
        ensures { result ≡ self.now.tag }
    {
        self.tag
    }
}
