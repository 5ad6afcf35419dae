// Keys that are looked up, by several workers at once.
ghost use Rattle.std.specs.Prelude.{◌≡◌, ◌≤◌, ◌<◌, ◌++◌, [], ◌∷◌, length, IfOk, OnOk};
ghost use Rattle.aria_base.specs.declared.limits.TheConstants.{MOST_REQUESTS};
ghost use Rattle.key_numbering.specs.Lookups.{unknown_in, shown, IsLooked, IsFound};
ghost use Rattle.key_numbering.specs.Numbers.{number_in};

use crate::kept::Kept;
use aria_base::{Key, Keys, Memory, Place};
use dep_rules::Sets;
use std::alloc::Global;
use work_crew::Task;

/// A key that is not kept, at its place among those of its set.
#[derive(Clone, Copy)]
pub(crate) struct Unknown<'a> {
    pub(crate) place: usize,
    pub(crate) key: &'a Key,
}

/// The numbers of the keys of one set, in their order, with 0 in the places of those that are not kept.
#[derive(Drop)]
pub(crate) struct Looked<'a> {
    pub(crate) numbers: Vec<u32>,
    pub(crate) unknown: Vec<Unknown<'a>>,
}

/// What is found of both sets of a request.
#[derive(Drop)]
pub(crate) struct Found<'a> {
    pub(crate) reads: Looked<'a>,
    pub(crate) writes: Looked<'a>,
}

/// The requests whose keys are looked up.
#[derive(Drop)]
pub(crate) struct LookUps<'k, 'a> {
    alloc: Global,
    kept: &'k Kept,
    sets: &'a [Sets],
    count: u32,
    ghost counted: { count ≡ length sets.now },
}

impl<'k, 'a> LookUps<'k, 'a> {
    /// All keys of these requests.
    pub(crate) fn of(alloc: Global, kept: &'k Kept, sets: &'a [Sets]) -> LookUps<'k, 'a>
        requires { length sets.now ≤ MOST_REQUESTS }
        ensures kept { result.kept.now ≡ kept.now }
        ensures sets { result.sets.now ≡ sets.now }
    {
        LookUps {
            alloc,
            kept,
            sets,
            count: sets.len() as u32,
        }
    }
}

impl<'k, 'a> Task for LookUps<'k, 'a> {
    ghost use Rattle.key_numbering.specs.Lookups.{IsFoundAt};

    type Output = Found<'a>;

    ghost count = { λ l. length l.sets.now };

    ghost gives = { λ l. IsFoundAt l.kept.now l.sets.now };

    fn len(&self) -> u32 {
        self.count
    }

    fn step(&self) -> Place {
        Place::Mark
    }

    fn run(&self, place: u32) -> Result<Found<'a>, Memory> {
        find(self.alloc, self.kept, &self.sets[place as usize])
    }
}

/// Looks up the keys of both sets of a request.
pub(crate) fn find<'a>(alloc: Global, kept: &Kept, sets: &'a Sets) -> Result<Found<'a>, Memory>
    ensures { IfOk result (IsFound kept.now sets.now) }
{
    let reads = look_up(alloc, kept, &sets.reads)?;
    let writes = look_up(alloc, kept, &sets.writes)?;
    Ok(Found { reads, writes })
}

/// Looks these keys up.
fn look_up<'a>(alloc: Global, kept: &Kept, keys: &'a Keys) -> Result<Looked<'a>, Memory>
    ensures { IfOk result (IsLooked kept.now keys.now) }
{
    let keys = keys.as_slice();
    let mut numbers = Vec::with_capacity(alloc, keys.len())?;
    let mut unknown = Vec::new(alloc);
    for key in keys {
        note(kept, key, &mut numbers, &mut unknown)?;
    }
    Ok(Looked { numbers, unknown })
}

/// Looks one key more up.
fn note<'a>(
    kept: &Kept,
    key: &'a Key,
    numbers: &mut Vec<u32>,
    unknown: &mut Vec<Unknown<'a>>,
) -> Result<(), Memory>
    ensures number { OnOk result (numbers.new.items ≡ numbers.old.items ++ number_in kept.now key.now ∷ []) }
    ensures unknown { OnOk result (shown unknown.new.items ≡ shown unknown.old.items ++ unknown_in kept.now (length numbers.old.items) (key.now ∷ [])) }
{
    match kept.get(key) {
        Some(number) => {
            numbers.push(number)?;
            Ok(())
        }
        None => {
            let place = numbers.len();
            unknown.push(Unknown { place, key })?;
            numbers.push(0)?;
            Ok(())
        }
    }
}
