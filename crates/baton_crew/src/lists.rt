// Lists that stand one behind the other in one piece of memory.
ghost use Rattle.std.specs.Prelude.{◌≡◌, ◌<◌, ◌++◌, ◌∷◌, [], length, slice_index_or, IfOk, OnOk};

use crate::spans::Span;
use aria_base::Memory;
use std::alloc::Global;
use std::marker::Model;

/// Lists that take two pieces of memory in all, however many there are. A contract sees the list of the lists.
#[derive(Drop)]
pub struct Lists<T> {
    items: Vec<T>,
    spans: Vec<Span>,
}

impl<T> Model for Lists<T> {
    ghost use Rattle.std.specs.Prelude.{List, length, map, All};
    ghost use Rattle.baton_crew.specs.Lists.{IsSpan, piece};

    ghost Value = { List (List T) };

    ghost view = { λ a. map (piece a.items.items) a.spans.items };

    ghost invariant = { λ a. All (IsSpan (length a.items.items)) a.spans.items };
}

impl<T: Copy> Lists<T> {
    /// No lists, with room for so many. An error: there was no memory.
    pub fn with_capacity(alloc: Global, count: usize) -> Result<Lists<T>, Memory>
        ensures { IfOk result (λ lists. lists ≡ []) }
    {
        Ok(Lists {
            items: Vec::new(alloc),
            spans: Vec::with_capacity(alloc, count)?,
        })
    }

    /// How many lists there are. No memory.
    pub fn len(&self) -> usize
        ensures { result ≡ length self.now }
    {
        self.spans.len()
    }

    /// The list at this place. No memory.
    pub fn list(&self, place: usize) -> &[T]
        requires { place < length self.now }
        ensures { result.now ≡ slice_index_or self.now place [] }
    {
        let span = &self.spans[place];
        &self.items[span.start..span.end]
    }

    /// Adds a copy of the list. An error: there was no memory, and the lists are what they were.
    pub fn push(&mut self, list: &[T]) -> Result<(), Memory>
        ensures { OnOk result (self.new ≡ self.old ++ list.now ∷ []) }
    {
        let start = self.items.len();
        self.items.extend_from_slice(list)?;
        let end = self.items.len();
        self.spans.push(Span { start, end })?;
        Ok(())
    }
}
