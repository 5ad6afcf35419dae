// The slots that each waiting request touches.
ghost use Rattle.std.specs.Prelude.{◌≡◌, ◌≢◌, ◌<◌, ◌≤◌, ℕ, suc, Some, length, set, All, IfOk, OnOk, slice_index_or};
ghost use Rattle.dep_rules.specs.Sheets.{AllBelow};
ghost use Rattle.work_claim.specs.Rule.{times};
ghost use Rattle.row_batons.specs.Layouts.{slot_in, AllTouched, StayTouched, IsTouch, AreTouches, AreStamped, AreBelow, AreSlotsOf};

use crate::numbers::Numbers;
use aria_base::Memory;
use baton_crew::Lists;
use std::alloc::Global;

/// For each request the slots of the keys that it declares, each once. A key without a slot has none there.
pub(crate) fn touches_of(
    alloc: Global,
    table: &[Option<usize>],
    slots: usize,
    numbers: &Numbers,
) -> Result<Lists<usize>, Memory>
    requires same { length numbers.now.reads ≡ length numbers.now.writes }
    requires reads { AllBelow (length table.now) numbers.now.reads }
    requires writes { AllBelow (length table.now) numbers.now.writes }
    requires slots { AreSlotsOf slots table.now }
    ensures { IfOk result (λ touches. AreTouches table.now slots numbers.now.reads numbers.now.writes touches (length numbers.now.reads)) }
{
    let count = numbers.reads.len();
    let mut touches = Lists::with_capacity(alloc, count)?;
    let mut stamps = Vec::from_elem(alloc, 0_usize, slots)?;
    let mut touched = Vec::new(alloc);
    for place in 0..count {
        let reads = numbers.reads.list(place);
        let writes = numbers.writes.list(place);
        touch_both(table, &mut stamps, &mut touched, place + 1, reads, writes)?;
        touches.push(touched.as_slice())?;
    }
    Ok(touches)
}

/// The slots of one request. A stamp that is greater than all others marks them.
fn touch_both(
    table: &[Option<usize>],
    stamps: &mut Vec<usize>,
    touched: &mut Vec<usize>,
    stamp: usize,
    reads: &[usize],
    writes: &[usize],
) -> Result<(), Memory>
    requires reads { All (λ n. n < length table.now) reads.now }
    requires writes { All (λ n. n < length table.now) writes.now }
    requires slots { AreSlotsOf (length stamps.old.items) table.now }
    requires stamp { AreBelow stamp stamps.old.items }
    ensures touch { OnOk result (IsTouch table.now (length stamps.old.items) reads.now writes.now touched.new.items) }
    ensures length { OnOk result (length stamps.new.items ≡ length stamps.old.items) }
    ensures stamp { OnOk result (AreBelow (suc stamp) stamps.new.items) }
{
    touched.clear();
    touch_all(table, stamps, touched, stamp, writes)?;
    touch_all(table, stamps, touched, stamp, reads)?;
    Ok(())
}

/// Touches the slots of these numbers.
fn touch_all(
    table: &[Option<usize>],
    stamps: &mut Vec<usize>,
    touched: &mut Vec<usize>,
    stamp: usize,
    numbers: &[usize],
) -> Result<(), Memory>
    requires numbers { All (λ n. n < length table.now) numbers.now }
    requires slots { AreSlotsOf (length stamps.old.items) table.now }
    requires stamped { AreStamped stamp stamps.old.items touched.old.items }
    ensures length { OnOk result (length stamps.new.items ≡ length stamps.old.items) }
    ensures stamped { OnOk result (AreStamped stamp stamps.new.items touched.new.items) }
    ensures kept { OnOk result (StayTouched touched.old.items touched.new.items) }
    ensures all { OnOk result (AllTouched table.now numbers.now touched.new.items) }
{
    for number in numbers {
        touch_one(table, stamps, touched, stamp, *number)?;
    }
    Ok(())
}

/// Touches the slot of this number, if it has one.
fn touch_one(
    table: &[Option<usize>],
    stamps: &mut Vec<usize>,
    touched: &mut Vec<usize>,
    stamp: usize,
    number: usize,
) -> Result<(), Memory>
    requires number { number < length table.now }
    requires slots { AreSlotsOf (length stamps.old.items) table.now }
    requires stamped { AreStamped stamp stamps.old.items touched.old.items }
    ensures length { OnOk result (length stamps.new.items ≡ length stamps.old.items) }
    ensures stamped { OnOk result (AreStamped stamp stamps.new.items touched.new.items) }
    ensures kept { OnOk result (StayTouched touched.old.items touched.new.items) }
    ensures there { OnOk result ((k : ℕ) → slot_in table.now number ≡ Some k → 1 ≤ times k touched.new.items) }
{
    match slot_at(table, number) {
        Some(slot) => touch(stamps, touched, stamp, slot),
        None => Ok(()),
    }
}

fn slot_at(table: &[Option<usize>], number: usize) -> Option<usize>
    requires { number < length table.now }
    ensures { result ≡ slot_in table.now number }
{
    table[number]
}

/// Touches the slot, if it was not touched before.
fn touch(
    stamps: &mut Vec<usize>,
    touched: &mut Vec<usize>,
    stamp: usize,
    slot: usize,
) -> Result<(), Memory>
    requires slot { slot < length stamps.old.items }
    requires stamped { AreStamped stamp stamps.old.items touched.old.items }
    ensures length { OnOk result (length stamps.new.items ≡ length stamps.old.items) }
    ensures stamped { OnOk result (AreStamped stamp stamps.new.items touched.new.items) }
    ensures kept { OnOk result (StayTouched touched.old.items touched.new.items) }
    ensures there { OnOk result (1 ≤ times slot touched.new.items) }
{
    if stamps[slot] == stamp {
        return Ok(());
    }
    add_touch(stamps, touched, stamp, slot)
}

/// Touches a slot that was not touched before.
fn add_touch(
    stamps: &mut Vec<usize>,
    touched: &mut Vec<usize>,
    stamp: usize,
    slot: usize,
) -> Result<(), Memory>
    requires slot { slot < length stamps.old.items }
    requires stamped { AreStamped stamp stamps.old.items touched.old.items }
    requires new { slice_index_or stamps.old.items slot 0 ≢ stamp }
    ensures length { OnOk result (length stamps.new.items ≡ length stamps.old.items) }
    ensures stamped { OnOk result (AreStamped stamp stamps.new.items touched.new.items) }
    ensures kept { OnOk result (StayTouched touched.old.items touched.new.items) }
    ensures there { OnOk result (1 ≤ times slot touched.new.items) }
{
    touched.push(slot)?;
    set_stamp(stamps, slot, stamp);
    Ok(())
}

fn set_stamp(stamps: &mut Vec<usize>, slot: usize, stamp: usize)
    requires { slot < length stamps.old.items }
    ensures { stamps.new.items ≡ set stamps.old.items slot stamp }
{
    stamps[slot] = stamp;
}
