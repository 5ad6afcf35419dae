// Runs through a window of its own, which keeps what it is asked for.
ghost use Rattle.std.specs.Prelude.{◌≡◌, fold, if◌then◌else◌, IfOk};
ghost use Rattle.std.specs.Option.{option_map_or};
ghost use Rattle.std.specs.FinMap.{empty};
ghost use Rattle.std.specs.Ordering.{eq_by_cmp};
ghost use Rattle.aria_base.specs.Orders.{key_cmp};
ghost use Rattle.batch_rules.specs.Plays.{after_read, after_write};
ghost use Rattle.batch_rules.specs.Touches.{nothing};

use crate::words::{Words, add_all, add_row};
use aria_base::{Duplicate, Key, Memory, Request, Row, Table, same_key};
use proc_exec::{Declared, Ran, interpret, interpret_within};
use proc_lang::{Access, Catalog};
use std::alloc::{AllocError, Global};

/// What a window is asked for: a read of a key, or a write with its row.
type Visit = (Key, Option<Option<Row>>);

/// Rows that were written through it are all that it has. It keeps what it is asked for, in order.
#[derive(Drop)]
struct Window {
    alloc: Global,
    visits: Vec<Visit>,
}

impl Access for Window {
    ghost seen = { λ w. fold (λ s v. option_map_or (after_write s v.0) v.1 (after_read s v.0)) (record { map = empty; noted = nothing }) w.visits.items };

    fn read(&mut self, key: &Key) -> Result<Option<Row>, Memory> {
        let mut found: Option<Row> = None;
        for visit in &self.visits {
            found = row_after(self.alloc, found, visit, key)?;
        }
        let key = key.duplicate(self.alloc)?;
        self.visits.push((key, None))?;
        Ok(found)
    }

    fn write(&mut self, key: Key, row: Option<Row>) -> Result<(), Memory> {
        self.visits.push((key, Some(row)))?;
        Ok(())
    }
}

/// The row at the key after this visit.
fn row_after(
    alloc: Global,
    before: Option<Row>,
    visit: &Visit,
    key: &Key,
) -> Result<Option<Row>, Memory>
    ensures { IfOk result (λ row. row ≡ option_map_or (λ written. if eq_by_cmp key_cmp key.now visit.now.0 then written else before) visit.now.1 before) }
{
    match &visit.1 {
        Some(row) if same_key(key, &visit.0) => row.duplicate(alloc),
        _ => Ok(before),
    }
}

impl Words for Visit {
    fn add(&self, tables: &[Table], out: &mut String) -> Result<(), AllocError> {
        self.0.add(tables, out)?;
        match &self.1 {
            None => Ok(()),
            Some(row) => add_row(row, out),
        }
    }
}

/// What the request comes to through an empty window, within declared keys if there are any, and adds what
/// the window was asked for.
pub fn run_through(
    alloc: Global,
    catalog: &Catalog,
    request: &Request,
    declared: Option<&Declared>,
    out: &mut String,
) -> Result<Ran, Memory> {
    let mut window = Window {
        alloc,
        visits: Vec::new(alloc),
    };
    let ran = match declared {
        None => Ran::Ended(interpret(alloc, catalog, request, &mut window)?),
        Some(declared) => interpret_within(alloc, catalog, request, declared, &mut window)?,
    };
    if !window.visits.is_empty() {
        add_all(catalog.schema().as_slice(), &window.visits, out)?;
        out.push_str(" / ")?;
    }
    Ok(ran)
}
