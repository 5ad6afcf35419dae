// The marks of one request.
ghost use Rattle.std.specs.Prelude.{◌≡◌, ◌≤◌, ◌<◌, All};
ghost use Rattle.aria_base.specs.declared.limits.TheConstants.{MOST_REQUESTS};
ghost use Rattle.dep_rules.specs.Sheets.{IsTid};
ghost use Rattle.resv_phase.specs.Marked.{marks_at, marks_on, with_marks};
ghost use Rattle.resv_words.specs.Seats.{with_mark};

use aria_base::{Pace, Place};
use dep_rules::Numbered;
use resv_words::{WordSeat, Words};

/// Marks all that the request with this TID reads and writes.
pub(crate) fn mark_all<P: Pace>(
    words: &Words,
    seat: &mut WordSeat,
    numbered: &Numbered,
    tid: u32,
    who: u32,
    pace: &P,
)
    requires own { seat.old.table ≡ words.now.table }
    requires keys { numbered.now.keys ≡ words.now.keys }
    requires tid { IsTid numbered.now tid × (tid ≤ MOST_REQUESTS) }
    ensures { seat.new ≡ with_marks seat.old (marks_at numbered.now tid) }
{
    mark_on(words, seat, numbered.reads_of(tid), false, tid, who, pace);
    mark_on(words, seat, numbered.writes_of(tid), true, tid, who, pace);
}

/// Marks these keys as written by the request, or as read.
fn mark_on<P: Pace>(
    words: &Words,
    seat: &mut WordSeat,
    keys: &[u32],
    writes: bool,
    tid: u32,
    who: u32,
    pace: &P,
)
    requires own { seat.old.table ≡ words.now.table }
    requires keys { All (λ k. k < words.now.keys) keys.now }
    requires tid { (1 ≤ tid) × (tid ≤ MOST_REQUESTS) }
    ensures { seat.new ≡ with_marks seat.old (marks_on tid writes keys.now) }
{
    for &key in keys {
        pace.at(who, Place::Mark);
        mark(words, seat, key, writes, tid);
    }
}

/// Marks one key.
fn mark(words: &Words, seat: &mut WordSeat, key: u32, writes: bool, tid: u32)
    requires own { seat.old.table ≡ words.now.table }
    requires key { key < words.now.keys }
    requires tid { (1 ≤ tid) × (tid ≤ MOST_REQUESTS) }
    ensures { seat.new ≡ with_mark seat.old tid key writes }
{
    if writes {
        words.mark_write(seat, tid, key)
    } else {
        words.mark_read(seat, tid, key)
    }
}
