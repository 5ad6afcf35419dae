// Objects, names and kinds read from JSON.
ghost use Rattle.std.specs.Prelude.{◌≡◌, ◌≤◌, IfSome, List, ℕ, Option, length, map, option_map, option_and_then};
ghost use Rattle.std.specs.List.{list_any};
ghost use Rattle.std.specs.Str.{bytes_eq};
ghost use Rattle.serde_json.specs.Find.{as_str, get};
ghost use Rattle.serde_json.specs.View.{view, items_view};
ghost use Rattle.cat_forms.specs.Members.{member_name};
ghost use Rattle.cat_forms.specs.Names.{kind_named, arg_kind_named};
ghost use Rattle.cat_forms.specs.PlanWalks.{member_count, two_members, three_members, four_members, name_at, items_between, named_at};
ghost use Rattle.cat_read.specs.Places.{path_of};
ghost use Rattle.cat_read.specs.Faults.{Reads};

use crate::faults::Fault;
use crate::places::{JsonPlace, fault_at};
use aria_base::{Items, Kind, Table, Txt, TxtRefused, is_word};
use cat_forms::{Member, arg_kind_named, kind_named};
use proc_lang::{ArgKind, Proc};
use serde_json::Value;
use std::alloc::Global;

/// How many members the object has.
fn member_count(value: &Value) -> usize
    ensures { result ≡ member_count (view value.now) }
{
    match value {
        Value::Object(members) => members.len(),
        _ => 0,
    }
}

/// The member with this name.
fn member(value: &Value, member: Member) -> Option<&Value>
    ensures { option_map (λ v. view v.now) result ≡ get (member_name member) (view value.now) }
{
    value.get(member.name())
}

/// The members, where the object has these and no others.
pub fn two_members(value: &Value, a: Member, b: Member) -> Option<(&Value, &Value)>
    ensures { option_map (λ ms. (view ms.0.now, view ms.1.now)) result
        ≡ two_members a b (view value.now) }
{
    if member_count(value) != 2 {
        return None;
    }
    Some((member(value, a)?, member(value, b)?))
}

/// The same for three.
pub fn three_members(
    value: &Value,
    a: Member,
    b: Member,
    c: Member,
) -> Option<(&Value, &Value, &Value)>
    ensures { option_map (λ ms. (view ms.0.now, view ms.1.now, view ms.2.now)) result
        ≡ three_members a b c (view value.now) }
{
    if member_count(value) != 3 {
        return None;
    }
    Some((member(value, a)?, member(value, b)?, member(value, c)?))
}

/// The same for four.
pub fn four_members(
    value: &Value,
    a: Member,
    b: Member,
    c: Member,
    d: Member,
) -> Option<(&Value, &Value, &Value, &Value)>
    ensures { option_map (λ ms. (view ms.0.now, view ms.1.now, view ms.2.now, view ms.3.now)) result
        ≡ four_members a b c d (view value.now) }
{
    if member_count(value) != 4 {
        return None;
    }
    Some((
        member(value, a)?,
        member(value, b)?,
        member(value, c)?,
        member(value, d)?,
    ))
}

/// The items of an array with `low` to `high` of them.
#[tactic(auto, using(crate::proofs::Counts::items_counted))]
pub fn items_between(low: usize, high: usize, value: &Value) -> Option<&Vec<Value>>
    ensures items { option_map (λ v. items_view v.now.items) result
        ≡ items_between low high (view value.now) }
    ensures few { IfSome result (λ v. length v.now.items ≤ high) }
{
    match value.as_array() {
        Some(items) if low <= items.len() && items.len() <= high => Some(items),
        _ => None,
    }
}

/// What has a name.
pub trait Named {
    /// Its name.
    ghost name_of: { Self → List ℕ };

    fn name(&self) -> &[u8]
        ensures { result.now ≡ name_of self.now };
}

impl Named for Table {
    ghost name_of = { λ table. table.name };

    fn name(&self) -> &[u8] {
        self.name.as_slice()
    }
}

impl Named for Proc {
    ghost name_of = { λ proc. proc.name };

    fn name(&self) -> &[u8] {
        self.name.as_slice()
    }
}

/// Whether one of them has this name.
fn is_taken<T: Named>(earlier: &[T], name: &[u8]) -> bool
    ensures { result ≡ list_any (bytes_eq name.now) (map T.name_of earlier.now) }
{
    for one in earlier {
        if name == one.name() {
            return true;
        }
    }
    false
}

/// The word that the value says, where none of the earlier ones has it for a name.
#[tactic(auto, using(aria_base::proofs::TextWords::word_is_short, aria_base::proofs::TextWords::word_has_no_bad_byte))]
pub fn read_name<T: Named>(
    alloc: Global,
    place: &JsonPlace<'_>,
    earlier: &[T],
    value: &Value,
) -> Result<Txt, Fault>
    ensures { Reads (λ t. t) result
        (name_at (path_of place.now) (map T.name_of earlier.now) (view value.now)) }
{
    let Some(name) = value.as_str() else {
        return Err(fault_at(alloc, place));
    };
    if !is_word(name.as_bytes()) {
        return Err(fault_at(alloc, place));
    }
    if is_taken(earlier, name.as_bytes()) {
        return Err(fault_at(alloc, place));
    }
    match Txt::of(alloc, name.as_bytes()) {
        Ok(name) => Ok(name),
        Err(TxtRefused::Memory) => Err(Fault::Memory),
        Err(TxtRefused::TooLong { .. }) => unreachable!(),
        Err(TxtRefused::BadByte { .. }) => unreachable!(),
    }
}

/// What strings name.
pub trait Called: Drop {
    /// What this string names.
    ghost named: { List ℕ → Option Self };

    fn named(name: &str) -> Option<Self>
        ensures { result ≡ named name.now };
}

impl Called for Kind {
    ghost named = { kind_named };

    fn named(name: &str) -> Option<Kind> {
        kind_named(name)
    }
}

impl Called for ArgKind {
    ghost named = { arg_kind_named };

    fn named(name: &str) -> Option<ArgKind> {
        arg_kind_named(name)
    }
}

/// What the string names.
fn named_by<K: Called>(value: &Value) -> Option<K>
    ensures { result ≡ option_and_then K.named (as_str (view value.now)) }
{
    K::named(value.as_str()?)
}

/// What the strings of an array with `low` to `high` items name.
pub fn read_named<K: Called>(
    alloc: Global,
    place: &JsonPlace<'_>,
    low: usize,
    high: usize,
    value: &Value,
) -> Result<Items<K>, Fault>
    ensures { Reads (λ ks. ks) result
        (named_at K.named (path_of place.now) low high (view value.now)) }
{
    let Some(items) = items_between(low, high, value) else {
        return Err(fault_at(alloc, place));
    };
    let mut found = Vec::with_capacity(alloc, items.len())?;
    for (at, item) in items.iter().enumerate() {
        match named_by(item) {
            Some(one) => found.push(one)?,
            None => return Err(fault_at(alloc, &JsonPlace::Item(place, at))),
        }
    }
    Ok(Items::from_vec(found))
}
