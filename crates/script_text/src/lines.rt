// The lines of a text that comes in pieces.
ghost use Rattle.std.specs.Prelude.{◌≡◌, ◌+◌, ◌-◌, ◌<◌, ◌≤◌, ◌++◌, ◌==◌, [], None, Some, length, IfOk, IfErr, OnOk, OnErr};
ghost use Rattle.std.specs.Result.{result_err};
ghost use Rattle.script_text.specs.Answers.{IsRefusedBy};
ghost use Rattle.script_text.specs.Lines.{Feed, blank, unreturned, scan, last_line, refused_at};
ghost use Rattle.script_text.specs.Runs.{counted, first_past, with_run, begun_at, place};

use crate::cuts::cut_at;
use crate::refusals::{LinesRefused, Refusal, RefusalKind};
use aria_base::{Bytes, Memory};
use std::alloc::Global;
use std::marker::Model;

/// The lines of a text that is taken piece by piece. A contract sees how far the text was taken.
#[derive(Drop)]
pub struct Lines {
    alloc: Global,
    limit: u64,
    longest: u32,
    taken: u64,
    count: u64,
    begun: Vec<u8>,
}

impl Model for Lines {
    ghost use Rattle.std.specs.Prelude.{◌≤◌, length};
    ghost use Rattle.script_text.specs.Lines.{Feed};

    ghost Value = { Feed };

    ghost view = { λ l. record {
      limit = l.limit;
      longest = l.longest;
      taken = l.taken;
      count = l.count;
      begun = l.begun.items;
    } };

    ghost invariant = { λ l. (l.taken ≤ l.limit) × (l.count ≤ l.taken) × (length l.begun.items ≤ l.longest) };
}

/// What a piece completes: its lines before the first byte that is past a bound, and how far the text is taken
/// then, or the refusal of that byte's line.
#[derive(Drop)]
struct Scanned<'a> {
    lines: Vec<Bytes>,
    end: Result<Reached<'a>, Refusal>,
}

/// How far a text is taken within a piece.
#[derive(Drop)]
struct Reached<'a> {
    taken: u64,
    count: u64,
    /// Whether the piece has had a line feed, so that what was begun before it is no longer.
    fresh: bool,
    /// What stands behind its last line feed.
    rest: &'a [u8],
}

impl Lines {
    /// No bytes yet, of a text of at most `limit` bytes in lines of at most `longest` bytes. No memory.
    pub fn new(alloc: Global, limit: u64, longest: u32) -> Lines
        ensures { result ≡ blank limit longest }
    {
        Lines {
            alloc,
            limit,
            longest,
            taken: 0,
            count: 0,
            begun: Vec::new(alloc),
        }
    }

    /// Takes a piece, and gives the lines that it completes. The first byte that is past a bound refuses
    /// its line: `Long` where the line is too long, `Size` where the text is, and `Long` where it is past
    /// both. Nothing of the piece is taken then, nor where there is no memory.
    pub fn feed(&mut self, piece: &[u8]) -> Result<Vec<Bytes>, LinesRefused>
        ensures fed { IfOk result (λ lines. scan self.old piece.now ≡ record { lines = lines.items; feed = self.new; fault = None }) }
        ensures refused { IfErr result (IsRefusedBy (scan self.old piece.now).fault) }
        ensures kept { OnErr result (self.new ≡ self.old) }
    {
        let Scanned { lines, end } = self.scan(piece)?;
        let reached = end.map_err(LinesRefused::Line)?;
        self.keep(reached.fresh, reached.rest)?;
        self.taken = reached.taken;
        self.count = reached.count;
        Ok(lines)
    }

    /// The lines that a piece completes before its first line that is refused, or all of them where none
    /// is.
    pub fn before(&self, piece: &[u8]) -> Result<Vec<Bytes>, Memory>
        ensures { IfOk result (λ lines. lines.items ≡ (scan self.now piece.now).lines) }
    {
        let scanned = self.scan(piece)?;
        Ok(scanned.lines)
    }

    /// The last line, where the text does not end with a line feed and has bytes. No memory.
    pub fn finish(self) -> Option<Bytes>
        ensures { result ≡ last_line self }
    {
        if self.begun.is_empty() {
            return None;
        }
        Some(without_return(self.begun))
    }
}

impl Lines {
    /// Walks through a piece from line feed to line feed.
    fn scan<'a>(&self, piece: &'a [u8]) -> Result<Scanned<'a>, Memory>
        ensures lines { IfOk result (λ s. s.lines.items ≡ (scan self.now piece.now).lines) }
        ensures fault { IfOk result (λ s. result_err s.end ≡ (scan self.now piece.now).fault) }
        ensures within { IfOk result (λ s. IfOk s.end (λ r. (r.taken ≤ self.now.limit) × (r.count ≤ r.taken) × (length (begun_at self.now r.fresh) + length r.rest.now ≤ self.now.longest))) }
        ensures taken { IfOk result (λ s. IfOk s.end (λ r. (scan self.now piece.now).feed ≡ with_run (place self.now r.fresh r.taken r.count) r.rest.now)) }
    {
        let mut lines = Vec::new(self.alloc);
        let mut fresh = false;
        let mut taken = self.taken;
        let mut count = self.count;
        let mut rest = piece;
        while let Some((front, behind)) = cut_at(rest, b'\n') {
            match self.take(fresh, taken, front.len(), true) {
                Ok(next) => taken = next,
                Err(kind) => return Ok(Scanned::stopped(lines, count, kind)),
            }
            lines.push(line_of(self.alloc, self.begun_at(fresh), front)?)?;
            fresh = true;
            count += 1;
            rest = behind;
        }
        match self.take(fresh, taken, rest.len(), false) {
            Ok(taken) => {
                let end = Ok(Reached {
                    taken,
                    count,
                    fresh,
                    rest,
                });
                Ok(Scanned { lines, end })
            }
            Err(kind) => Ok(Scanned::stopped(lines, count, kind)),
        }
    }

    /// Keeps what stands behind the last line feed.
    fn keep(&mut self, fresh: bool, rest: &[u8]) -> Result<(), Memory>
        requires { length (begun_at self.old fresh) + length rest.now ≤ self.old.longest }
        ensures kept { OnOk result (self.new ≡ with_run (place self.old fresh self.old.taken self.old.count) rest.now) }
        ensures left { OnErr result (self.new ≡ self.old) }
    {
        if !fresh {
            self.begun.extend_from_slice(rest)?;
        } else if rest.is_empty() {
            self.begun.clear();
        } else {
            self.begun = Vec::from_slice(self.alloc, rest)?;
        }
        Ok(())
    }

    /// What was begun before this piece, unless a line feed ended it.
    fn begun_at(&self, fresh: bool) -> &[u8]
        ensures begun { result.now ≡ begun_at self.now fresh }
        ensures short { length result.now ≤ self.now.longest }
    {
        if fresh { &[] } else { self.begun.as_slice() }
    }

    /// How many bytes are taken with a run of bytes without a line feed, and the line feed behind it
    /// where one follows; or else which bound is passed first.
    fn take(&self, fresh: bool, taken: u64, run: usize, feeds: bool) -> Result<u64, RefusalKind>
        requires { taken ≤ self.now.limit }
        ensures past { result_err result ≡ first_past (self.now.longest - length (begun_at self.now fresh)) (self.now.limit - taken) run (run + counted feeds) }
        ensures taken { IfOk result (λ next. next ≡ taken + (run + counted feeds)) }
        ensures line { IfOk result (λ _. length (begun_at self.now fresh) + run ≤ self.now.longest) }
        ensures limit { IfOk result (λ next. next ≤ self.now.limit) }
        ensures small { self.now.longest ≤ u32.MAX }
        ensures short { length (begun_at self.now fresh) ≤ self.now.longest }
    {
        let run = run as u64;
        let room = u64::from(self.longest) - self.begun_at(fresh).len() as u64;
        let limit = self.limit;
        let left = limit - taken;
        if room < run && room <= left {
            return Err(RefusalKind::Long);
        }
        if left < run {
            return Err(RefusalKind::Size);
        }
        let after = left - run;
        if !feeds {
            return Ok(limit - after);
        }
        if after == 0 {
            return Err(RefusalKind::Size);
        }
        Ok(limit - (after - 1))
    }
}

impl<'a> Scanned<'a> {
    /// These lines, and the refusal of the next one, behind so many.
    fn stopped(lines: Vec<Bytes>, count: u64, kind: RefusalKind) -> Scanned<'a>
        ensures lines { result.lines.items ≡ lines.items }
        ensures end { result_err result.end ≡ Some (refused_at count kind) }
    {
        let end = Err(refused_at(count, kind));
        Scanned { lines, end }
    }
}

/// The refusal of the line behind so many.
fn refused_at(count: u64, kind: RefusalKind) -> Refusal
    ensures { result ≡ refused_at count kind }
{
    let line = count.saturating_add(1);
    Refusal { line, kind }
}

/// The line that is made of these two parts.
fn line_of(alloc: Global, begun: &[u8], run: &[u8]) -> Result<Bytes, Memory>
    requires { length begun.now + length run.now ≤ u32.MAX }
    ensures { IfOk result (λ line. line ≡ unreturned (begun.now ++ run.now)) }
{
    let mut line = Vec::with_capacity(alloc, begun.len() + run.len())?;
    line.extend_from_slice(begun)?;
    line.extend_from_slice(run)?;
    Ok(without_return(line))
}

/// The line without one carriage return at its end.
fn without_return(line: Vec<u8>) -> Bytes
    ensures { result ≡ unreturned line.items }
{
    let mut line = line;
    if let Some(b'\r') = line.last() {
        line.pop();
    }
    Bytes::from_vec(line)
}
