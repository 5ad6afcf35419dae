// The program's streams, watched for what a person at a terminal is told. They pass on what the streams inside
// them do, and keep the lines of the input that are in hand, the last line of the output, and whether the
// reader of the output has gone.
ghost use Rattle.std.specs.Prelude.{◌≡◌, ◌++◌, ◌-◌, ◌+◌, ◌⊎◌, [], take, drop, min, length, nat_le, OnOk};
ghost use Rattle.aria_cli.specs.declared.watched.TheConstants.{MOST_IN_HAND, MOST_TAIL};
ghost use Rattle.aria_cli.specs.Told.{feeds, without_end, without_last};

use aria_base::{Failed, Memory, Sink, Source};
use std::alloc::Global;
use std::cell::Cell;
use std::io;
use std::io::{ErrorKind, Write};

/// How many bytes of lines in hand are kept at most: more than the longest line of any command and a piece
/// of input behind it.
const MOST_IN_HAND: usize = 1_048_576;

/// How many bytes of the end of the output are kept. No line that refuses one is longer.
const MOST_TAIL: usize = 1_024;

/// The lines of an input that are in hand: those of the piece that came last, with the line that it goes on
/// with.
#[derive(Drop)]
struct InHand {
    /// The number of the first of these lines, from 1.
    first: usize,
    bytes: Vec<u8>,
    /// How many of the bytes are of lines that have their line feed.
    ended: usize,
    /// Whether the input ends behind these bytes.
    is_last: bool,
}

impl InHand {
    fn new(alloc: Global) -> Self {
        InHand {
            first: 1,
            bytes: Vec::new(alloc),
            ended: 0,
            is_last: false,
        }
    }

    /// Forgets the lines that have ended. Each command but `check` has answered them before it asks for more;
    /// where `check` refuses one of them later, nothing is told of it.
    fn forget_ended(&mut self)
        ensures bytes { self.new.bytes.items ≡ drop (min self.old.ended (length self.old.bytes.items)) self.old.bytes.items }
        ensures first { self.new.first ≡ min (self.old.first + feeds (take (min self.old.ended (length self.old.bytes.items)) self.old.bytes.items)) usize.MAX }
    {
        let ended = self.ended.min(self.bytes.len());
        self.first = self.first.saturating_add(feeds(&self.bytes[..ended]));
        self.bytes.drain(..ended);
        self.ended = 0;
    }

    fn has_room(&self, piece: &[u8]) -> bool
        ensures { result ≡ nat_le (length self.now.bytes.items + length piece.now) MOST_IN_HAND }
    {
        self.bytes.len().saturating_add(piece.len()) <= MOST_IN_HAND
    }

    /// Takes up a piece behind the bytes in hand.
    fn push(&mut self, piece: &[u8]) -> Result<(), Memory>
        ensures bytes { OnOk result (self.new.bytes.items ≡ self.old.bytes.items ++ piece.now) }
        ensures first { self.new.first ≡ self.old.first }
    {
        let before = self.bytes.len();
        self.bytes.extend_from_slice(piece)?;
        if let Some(at) = piece.iter().rposition(|byte| *byte == b'\n') {
            self.ended = before.saturating_add(at).saturating_add(1);
        }
        Ok(())
    }

    /// The line of this number, if it is one of these, without its line feed and a carriage return before it.
    fn line(&self, number: usize) -> Option<&[u8]> {
        let place = number.checked_sub(self.first)?;
        let line = self
            .bytes
            .split_inclusive(|byte| *byte == b'\n')
            .nth(place)?;
        Some(without_end(line))
    }

    /// Whether the end of the input has this number: one more than its last line, which may lack its line feed.
    fn is_end(&self, number: usize) -> bool {
        let lines = self.bytes.split_inclusive(|byte| *byte == b'\n').count();
        self.is_last && number.checked_sub(self.first) == Some(lines)
    }
}

/// How many line feeds there are.
fn feeds(bytes: &[u8]) -> usize
    ensures { result ≡ feeds bytes.now }
{
    let mut count = 0;
    for byte in bytes {
        if *byte == b'\n' {
            count += 1;
        }
    }
    count
}

/// A line without the line feed that ends it, and without a carriage return before that.
fn without_end(line: &[u8]) -> &[u8]
    ensures { result.now ≡ without_end line.entry.now }
{
    without_last(without_last(line, b'\n'), b'\r')
}

/// The bytes without this one at their end, where it stands there.
fn without_last(line: &[u8], byte: u8) -> &[u8]
    ensures { result.now ≡ without_last byte line.entry.now }
{
    match line.last() {
        Some(last) if *last == byte => &line[..line.len() - 1],
        _ => line,
    }
}

/// Takes up a piece of the input, if lines are kept. From a piece on for which there is no room or no memory
/// none are. An empty piece is the end of the input: what is in hand stays there.
fn keep_piece(kept: &mut Option<InHand>, piece: &[u8]) {
    let Some(in_hand) = kept else {
        return;
    };
    if piece.is_empty() {
        in_hand.is_last = true;
        return;
    }
    in_hand.forget_ended();
    let is_kept = in_hand.has_room(piece) && in_hand.push(piece).is_ok();
    if !is_kept {
        *kept = None;
    }
}

/// A source that keeps the lines in hand, where it is asked to.
#[derive(Drop)]
pub struct WatchedSource<S> {
    source: S,
    in_hand: Option<InHand>,
}

impl<S: Source> WatchedSource<S> {
    /// A source that gives what this one gives, and keeps the lines in hand for [`WatchedSource::line`] if
    /// `is_watched`.
    pub fn new(alloc: Global, source: S, is_watched: bool) -> Self {
        let in_hand = is_watched.then(|| InHand::new(alloc));
        WatchedSource { source, in_hand }
    }

    /// The line of this number, from 1, where it is in hand: of the piece that came last. It is without its
    /// line feed and a carriage return before it. None too where it is not watched, where a line was too long,
    /// or memory ran out.
    pub fn line(&self, number: usize) -> Option<&[u8]> {
        self.in_hand.as_ref()?.line(number)
    }

    /// Whether the input has ended, and its end has this number: one more than its last line. Not so either
    /// where no lines are in hand.
    pub fn is_end(&self, number: usize) -> bool {
        match &self.in_hand {
            Some(in_hand) => in_hand.is_end(number),
            None => false,
        }
    }
}

impl<S: Source> Source for WatchedSource<S> {
    ghost left = { λ s. S.left s.source };

    ghost faults = { λ s. S.faults s.source };

    fn take(&mut self, buf: &mut [u8]) -> Result<usize, Failed> {
        let taken = self.source.take(buf)?;
        if let Some(piece) = buf.get(..taken) {
            keep_piece(&mut self.in_hand, piece);
        }
        Ok(taken)
    }
}

/// The end of an output.
#[derive(Drop)]
struct Tail {
    bytes: Vec<u8>,
}

impl Tail {
    fn new(alloc: Global) -> Self {
        Tail {
            bytes: Vec::new(alloc),
        }
    }

    /// Takes up what was given. Without memory nothing is kept, and nothing is told of the line.
    fn replace(&mut self, given: &[u8])
        ensures { (self.new.bytes.items ≡ drop (length given.now - MOST_TAIL) given.now) ⊎ (self.new.bytes.items ≡ []) }
    {
        let from = given.len().saturating_sub(MOST_TAIL);
        self.bytes.clear();
        let _ = self.bytes.extend_from_slice(&given[from..]);
    }

    /// The last line, without its line feed.
    fn last_line(&self) -> &[u8] {
        self.bytes
            .split_inclusive(|byte| *byte == b'\n')
            .last()
            .map_or(&[], without_end)
    }
}

/// A sink that keeps the end of what it was given last, where it is asked to.
#[derive(Drop)]
pub struct WatchedSink<K> {
    sink: K,
    tail: Option<Tail>,
}

impl<K: Sink> WatchedSink<K> {
    /// A sink that passes on to this one what it is given, and keeps the end of it for
    /// [`WatchedSink::last_line`] if `is_watched`.
    pub fn new(alloc: Global, sink: K, is_watched: bool) -> Self {
        let tail = is_watched.then(|| Tail::new(alloc));
        WatchedSink { sink, tail }
    }

    /// The last line that it was given, without its line feed; none where it is not watched.
    pub fn last_line(&self) -> Option<&[u8]> {
        Some(self.tail.as_ref()?.last_line())
    }
}

impl<K: Sink> Sink for WatchedSink<K> {
    ghost given = { λ s. K.given s.sink };

    ghost faults = { λ s. K.faults s.sink };

    fn give(&mut self, bytes: &[u8]) -> Result<(), Failed> {
        if let Some(tail) = &mut self.tail {
            tail.replace(bytes);
        }
        self.sink.give(bytes)
    }
}

/// A writer that tells whether its reader has gone.
#[derive(Drop)]
pub struct WatchedWriter<'a, W> {
    writer: W,
    is_closed: &'a Cell<bool>,
}

impl<'a, W: Write> WatchedWriter<'a, W> {
    /// A writer that writes to this one, and sets `is_closed` where nobody reads what it writes any more.
    pub fn new(writer: W, is_closed: &'a Cell<bool>) -> Self {
        WatchedWriter { writer, is_closed }
    }
}

impl<W: Write> Write for WatchedWriter<'_, W> {
    ghost contents = { λ w. W.contents w.writer };

    fn write(&mut self, buf: &[u8]) -> io::Result<usize> {
        match self.writer.write(buf) {
            Ok(written) => Ok(written),
            Err(error) => {
                if error.kind() == ErrorKind::BrokenPipe {
                    self.is_closed.set(true);
                }
                Err(error)
            }
        }
    }

    fn flush(&mut self) -> io::Result<()> {
        self.writer.flush()
    }
}
