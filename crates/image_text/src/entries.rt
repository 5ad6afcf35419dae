// The rows and the held requests of a body, taken from its lines.
ghost use Rattle.std.specs.Prelude.{◌≡◌, IfOk};
ghost use Rattle.image_text.specs.Entries.{OfRow, OfHeld, nothing, last_key, is_above, push, IsRowHeld, IsRequestHeld, AreHeld};

use crate::exactly::exact_row;
use crate::helds::exact_held;
use crate::lines::LineTaker;
use aria_base::{Key, Memory, Request, Row, compare_keys};
use proc_lang::Catalog;
use std::alloc::Global;
use std::marker::Model;

/// Rows whose keys rise, and the requests behind them. A contract sees the two lists.
#[derive(Drop)]
pub struct Entries {
    rows: Vec<(Key, Row)>,
    held: Vec<Request>,
}

impl Model for Entries {
    ghost use Rattle.image_text.specs.Entries.{Taken, AreHeld};

    ghost Value = { Taken };

    ghost view = { λ a. record { rows = a.rows.items; held = a.held.items } };

    ghost invariant = { λ a. AreHeld (record { rows = a.rows.items; held = a.held.items }) };
}

impl Entries {
    /// Neither rows nor requests. No memory.
    pub fn new(alloc: Global) -> Entries
        ensures { result ≡ nothing }
    {
        Entries {
            rows: Vec::new(alloc),
            held: Vec::new(alloc),
        }
    }

    /// The rows and the requests. No memory.
    pub fn into_parts(self) -> (Vec<(Key, Row)>, Vec<Request>)
        ensures rows { result.0.items ≡ self.rows }
        ensures held { result.1.items ≡ self.held }
        ensures are_held { AreHeld self }
    {
        (self.rows, self.held)
    }

    /// Takes a row, where no request was taken before and its key comes behind those of all rows.
    fn with_row(self, key: Key, row: Row) -> Result<Option<Entries>, Memory>
        requires { IsRowHeld (key, row) }
        ensures { IfOk result (λ next. next ≡ push self (OfRow (key, row))) }
    {
        let (mut rows, held) = self.into_parts();
        if !held.is_empty() || !is_above(rows.as_slice(), &key) {
            return Ok(None);
        }
        rows.push((key, row))?;
        Ok(Some(Entries { rows, held }))
    }

    /// Takes a request.
    fn with_held(self, request: Request) -> Result<Option<Entries>, Memory>
        requires { IsRequestHeld request }
        ensures { IfOk result (λ next. next ≡ push self (OfHeld request)) }
    {
        let (rows, mut held) = self.into_parts();
        held.push(request)?;
        Ok(Some(Entries { rows, held }))
    }
}

/// Whether this key comes behind those of the rows.
fn is_above(rows: &[(Key, Row)], key: &Key) -> bool
    ensures { result ≡ is_above (last_key rows.now) key.now }
{
    match rows.last() {
        Some((last, _)) => compare_keys(last, key).is_lt(),
        None => true,
    }
}

impl LineTaker for Entries {
    ghost use Rattle.image_text.specs.Entries.{take};

    ghost taken = { take };

    fn take(
        self,
        catalog: &Catalog,
        line: &[u8],
        again: &mut Vec<u8>,
    ) -> Result<Option<Entries>, Memory> {
        if line.first() == Some(&b'h') {
            return match exact_held(catalog, line, again)? {
                Some(request) => self.with_held(request),
                None => Ok(None),
            };
        }
        match exact_row(catalog, line, again)? {
            Some((key, row)) => self.with_row(key, row),
            None => Ok(None),
        }
    }
}
