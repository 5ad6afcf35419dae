// The key lists of a batch's requests as lists of numbers.
ghost use Rattle.std.specs.Prelude.{◌≡◌, ◌≤◌, ◌<◌, length, vec_len, map, All, slice_index_or, []};
ghost use Rattle.aria_base.specs.declared.limits.TheConstants.{MOST_REQUESTS};
ghost use Rattle.dep_rules.specs.Joined.{reads_in, writes_in, AreWithin};
ghost use Rattle.dep_rules.specs.Sheets.{AllBelow, IsSheet, reads_at, writes_at, IsTid};

use std::marker::Model;

/// Where the numbers of a request lie in the list of all: those of the keys that it reads from `start` to
/// below `middle`, those that it writes from there to below `end`.
#[derive(Clone, Copy, Debug, PartialEq, Eq)]
pub struct Stretch {
    /// The place of the first that it reads.
    pub start: u32,
    /// The place of the first that it writes.
    pub middle: u32,
    /// The place behind the last.
    pub end: u32,
}

/// Of each request of a batch the numbers of the keys that it reads and that it writes, in the order of
/// its sets. Its TID is its place, from 1.
#[derive(Drop)]
pub struct Numbered {
    lists: Lists,
    keys: u32,
}

/// Two lists of each request, or one list of all with the stretch of each. The one list takes two blocks
/// of memory where the others take two for each request.
#[derive(Drop)]
enum Lists {
    Apart(Vec<Vec<u32>>, Vec<Vec<u32>>),
    Joined(Vec<u32>, Vec<Stretch>),
}

impl Model for Numbered {
    ghost use Rattle.dep_rules.specs.Joined.{sheet_of, IsHeld};
    ghost use Rattle.dep_rules.specs.Sheets.{Sheet};

    ghost Value = { Sheet };

    ghost view = { λ a. sheet_of a.lists a.keys };

    ghost invariant = { λ a. IsHeld a.lists a.keys };
}

impl Numbered {
    /// The requests with these lists, one of each for every request, of numbers below `keys`. No memory.
    pub fn of(reads: Vec<Vec<u32>>, writes: Vec<Vec<u32>>, keys: u32) -> Numbered
        requires same { vec_len reads ≡ vec_len writes }
        requires count { vec_len reads ≤ MOST_REQUESTS }
        requires reads { AllBelow keys (map (λ v. v.items) reads.items) }
        requires writes { AllBelow keys (map (λ v. v.items) writes.items) }
        ensures { result ≡ record { reads = map (λ v. v.items) reads.items; writes = map (λ v. v.items) writes.items; keys = keys } }
    {
        Numbered {
            lists: Lists::Apart(reads, writes),
            keys,
        }
    }

    /// The requests whose numbers, all below `keys`, lie in one list: the stretch of each within it. No
    /// memory.
    pub fn joined(numbers: Vec<u32>, stretches: Vec<Stretch>, keys: u32) -> Numbered
        requires count { length stretches.items ≤ MOST_REQUESTS }
        requires within { AreWithin numbers.items stretches.items }
        requires below { All (λ k. k < keys) numbers.items }
        ensures { result ≡ record { reads = map (reads_in numbers.items) stretches.items; writes = map (writes_in numbers.items) stretches.items; keys = keys } }
    {
        Numbered {
            lists: Lists::Joined(numbers, stretches),
            keys,
        }
    }

    /// How many requests there are, and so the greatest TID. No memory. Its caller knows then of the lists
    /// all that [`Numbered::of`] or [`Numbered::joined`] was told.
    pub fn len(&self) -> u32
        ensures reads { result ≡ length self.now.reads }
        ensures writes { result ≡ length self.now.writes }
        ensures count { result ≤ MOST_REQUESTS }
        ensures sheet { IsSheet self.now }
    {
        match &self.lists {
            Lists::Apart(reads, _) => reads.len() as u32,
            Lists::Joined(_, stretches) => stretches.len() as u32,
        }
    }

    /// All numbers are below this one. No memory.
    pub fn keys(&self) -> u32
        ensures { result ≡ self.now.keys }
    {
        self.keys
    }

    /// The numbers of the keys that the request with this TID reads. No memory.
    pub fn reads_of(&self, tid: u32) -> &[u32]
        requires { IsTid self.now tid }
        ensures list { result.now ≡ reads_at self.now tid }
        ensures below { All (λ k. k < self.now.keys) result.now }
    {
        self.reads_at(tid as usize - 1)
    }

    /// The numbers of the keys that the request with this TID writes. No memory.
    pub fn writes_of(&self, tid: u32) -> &[u32]
        requires { IsTid self.now tid }
        ensures list { result.now ≡ writes_at self.now tid }
        ensures below { All (λ k. k < self.now.keys) result.now }
    {
        self.writes_at(tid as usize - 1)
    }

    /// What the request at this place, from 0, reads.
    fn reads_at(&self, place: usize) -> &[u32]
        requires { place < length self.now.reads }
        ensures list { result.now ≡ slice_index_or self.now.reads place [] }
        ensures sheet { IsSheet self.now }
    {
        match &self.lists {
            Lists::Apart(reads, _) => reads[place].as_slice(),
            Lists::Joined(numbers, stretches) => {
                let stretch = stretches[place];
                &numbers[stretch.start as usize..stretch.middle as usize]
            }
        }
    }

    /// What the request at this place, from 0, writes.
    fn writes_at(&self, place: usize) -> &[u32]
        requires { place < length self.now.reads }
        ensures list { result.now ≡ slice_index_or self.now.writes place [] }
        ensures sheet { IsSheet self.now }
    {
        match &self.lists {
            Lists::Apart(_, writes) => writes[place].as_slice(),
            Lists::Joined(numbers, stretches) => {
                let stretch = stretches[place];
                &numbers[stretch.middle as usize..stretch.end as usize]
            }
        }
    }
}
