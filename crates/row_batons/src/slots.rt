// The slots of keys that waiting requests may write.
ghost use Rattle.std.specs.Prelude.{◌≡◌, ◌<◌, [], length, replicate, None, All, IfOk, OnOk, slice_index_or};
ghost use Rattle.dep_rules.specs.Sheets.{AllBelow};
ghost use Rattle.row_batons.specs.Layouts.{slot_in, with_slot, with_slots, all_with_slots, AreAsMany};

use aria_base::{Duplicate, Key, Memory};
use baton_crew::Lists;
use proc_exec::Waiting;
use std::alloc::Global;
use std::marker::Model;

/// By a key's number its slot, if it has one; and the keys of the slots.
#[derive(Drop)]
pub(crate) struct Slots {
    table: Vec<Option<usize>>,
    keys: Vec<Key>,
}

impl Model for Slots {
    ghost use Rattle.row_batons.specs.Layouts.{Slotted};

    ghost Value = { Slotted };

    ghost view = { λ a. record { table = a.table.items; keys = a.keys.items } };
}

impl Slots {
    /// Of so many keys none has a slot.
    fn none(alloc: Global, count: usize) -> Result<Slots, Memory>
        ensures { IfOk result (λ slots. slots ≡ record { table = replicate count None; keys = [] }) }
    {
        Ok(Slots {
            table: Vec::from_elem(alloc, None, count)?,
            keys: Vec::new(alloc),
        })
    }

    /// Gives the key the next slot where its number has none.
    fn give(&mut self, alloc: Global, key: &Key, number: usize) -> Result<(), Memory>
        requires { number < length self.old.table }
        ensures { OnOk result (self.new ≡ with_slot self.old key.now number) }
    {
        match self.table[number] {
            Some(_) => Ok(()),
            None => {
                let slot = self.keys.len();
                self.keys.push(key.duplicate(alloc)?)?;
                self.table[number] = Some(slot);
                Ok(())
            }
        }
    }

    /// Gives each of the keys a slot where its number has none.
    fn give_all(&mut self, alloc: Global, keys: &[Key], numbers: &[usize]) -> Result<(), Memory>
        requires same { length numbers.now ≡ length keys.now }
        requires below { All (λ n. n < length self.old.table) numbers.now }
        ensures { OnOk result (self.new ≡ with_slots self.old keys.now numbers.now) }
    {
        let mut index = 0;
        for key in keys {
            self.give(alloc, key, numbers[index])?;
            index += 1;
        }
        Ok(())
    }

    /// By a key's number its slot, if it has one.
    pub(crate) fn table(&self) -> &[Option<usize>]
        ensures { result.now ≡ self.now.table }
    {
        self.table.as_slice()
    }

    /// How many slots there are.
    pub(crate) fn len(&self) -> usize
        ensures { result ≡ length self.now.keys }
    {
        self.keys.len()
    }

    /// The keys of the slots.
    pub(crate) fn into_keys(self) -> Vec<Key>
        ensures { result.items ≡ self.keys }
    {
        self.keys
    }
}

/// The slots of the keys that the requests may write. The lists have their numbers, which are below the count.
pub(crate) fn slots_of(
    alloc: Global,
    waiting: &[Waiting],
    writes: &Lists<usize>,
    count: usize,
) -> Result<Slots, Memory>
    requires many { AreAsMany writes.now waiting.now }
    requires below { AllBelow count writes.now }
    ensures { IfOk result (λ slots. slots ≡ all_with_slots (record { table = replicate count None; keys = [] }) waiting.now writes.now) }
{
    let mut slots = Slots::none(alloc, count)?;
    let mut place = 0;
    for one in waiting {
        slots.give_all(alloc, one.declared.writes.as_slice(), writes.list(place))?;
        place += 1;
    }
    Ok(slots)
}
