// Stock-Level: the items of a district's last orders that are nearly out of stock.
ghost use Rattle.std.specs.Prelude.{◌≡◌, ◌+◌, ◌<◌, ◌^◌, ℤ, int_lt, List, [], ◌∷◌, if◌then◌else◌, IfOk, OnOk};
ghost use Rattle.std.specs.BTreeSet.{insert_key};
ghost use Rattle.std.specs.Ordering.{int_cmp};
ghost use Rattle.aria_base.specs.Orders.{Cells};
ghost use Rattle.aria_base.specs.declared.keys.Key.{Key};
ghost use Rattle.cat_builtin.specs.Warehouses as table;
ghost use Rattle.range_rules.specs.Walks.{Walk, follow};
ghost use Rattle.tpcc_routines.specs.Routines as routines;
ghost use Rattle.tpcc_routines.specs.Turns.{Turns, TurnsLines};

use crate::answers::{are_lines, are_numbers};
use crate::columns::{D_NEXT_O_ID, DISTRICT_COLUMNS, OL_I_ID, S_QUANTITY, STOCK_COLUMNS};
use crate::ends::{absent, given, less, overflow, values};
use crate::rows::{district_key, line_prefix, stock_key};
use crate::turns::{Lines, Turn};
use aria_base::{Key, Memory, Row};
use range_rules::{Action, Seen};
use std::alloc::Global;
use std::collections::BTreeSet;
use tpcc_audit::{District, column_at};

/// Of how many orders the items are looked at.
const LAST_ORDERS: u32 = 20;

/// Counts the items of which there are less than `t`.
#[tactic(auto, unfolding(crate::specs::Routines::stock_level))]
pub(crate) fn stock_level(
    alloc: Global,
    at: District,
    t: &i64,
    seen: &[Seen],
) -> Result<Action, Memory>
    ensures { IfOk result (λ action. action ≡ follow (routines.stock_level at t.now) seen.now) }
{
    match seen {
        [] => Ok(Action::Read(district_key(at))),
        [Seen::One(Some(district)), rest @ ..] => {
            if !are_numbers(DISTRICT_COLUMNS, district) {
                return Ok(absent());
            }
            let action = level_of(alloc, at, t, &column_at(district, D_NEXT_O_ID), rest)?;
            Ok(action)
        }
        _ => Ok(absent()),
    }
}

/// The walk with the number of the district's next order.
fn level_of(
    alloc: Global,
    at: District,
    t: &i64,
    next: &i64,
    seen: &[Seen],
) -> Result<Action, Memory>
    ensures { IfOk result (λ action. action ≡ follow (routines.last_level at t.now next.now) seen.now) }
{
    let mut left = seen;
    let mut items = BTreeSet::new(alloc);
    for turn in 0..LAST_ORDERS {
        match lines_before(at, next, LAST_ORDERS - turn, left) {
            Lines::Asks(action) => return Ok(action),
            Lines::Goes(rest, lines) => {
                add_items(&mut items, lines)?;
                left = rest;
            }
        }
    }
    let all = in_order(alloc, &items)?;
    let action = count(alloc, at, t, &all, left)?;
    Ok(action)
}

/// The lines of the order that comes so many before the next one.
fn lines_before<'a>(at: District, next: &i64, behind: u32, seen: &'a [Seen]) -> Lines<'a>
    ensures { (go : List (Key × Cells) → Walk) → TurnsLines (routines.lines_before at next.now behind go) go seen.now result }
{
    match less(next, behind) {
        Some(order) => lines_at(at, &order, seen),
        None => Lines::Asks(overflow()),
    }
}

/// The lines of the order of this number.
fn lines_at<'a>(at: District, order: &i64, seen: &'a [Seen]) -> Lines<'a>
    ensures { (go : List (Key × Cells) → Walk)
        → TurnsLines (routines.find_all table.order_lines (at.w ∷ at.d ∷ order.now ∷ []) 5 go) go seen.now result }
{
    match seen {
        [] => Lines::Asks(Action::Scan(line_prefix(at, *order))),
        [Seen::Many(lines), rest @ ..] => {
            let lines = lines.as_slice();
            if !are_lines(at, *order, lines) {
                return Lines::Asks(absent());
            }
            Lines::Goes(rest, lines)
        }
        _ => Lines::Asks(absent()),
    }
}

/// Adds the items of these lines.
fn add_items(items: &mut BTreeSet<i64>, lines: &[(Key, Row)]) -> Result<(), Memory>
    ensures { OnOk result (items.new.keys ≡ routines.with_items items.old.keys lines.now) }
{
    for (_, line) in lines {
        add_item(items, &column_at(line, OL_I_ID))?;
    }
    Ok(())
}

/// Adds an item.
fn add_item(items: &mut BTreeSet<i64>, item: &i64) -> Result<(), Memory>
    ensures { OnOk result (items.new.keys ≡ insert_key int_cmp items.old.keys item.now) }
{
    let _new = items.insert(*item)?;
    Ok(())
}

/// The items by rising numbers.
fn in_order(alloc: Global, items: &BTreeSet<i64>) -> Result<Vec<i64>, Memory>
    ensures { IfOk result (λ all. all.items ≡ items.now.keys) }
{
    let all = items.iter().copied().collect(alloc)?;
    Ok(all)
}

/// The walk with the items.
#[tactic(auto, unfolding(crate::specs::Routines::counted))]
fn count(
    alloc: Global,
    at: District,
    t: &i64,
    items: &[i64],
    seen: &[Seen],
) -> Result<Action, Memory>
    ensures { IfOk result (λ action. action ≡ follow (routines.counted at t.now 0 items.now) seen.now) }
{
    let mut left = seen;
    let mut count = 0_u64;
    for item in items {
        match quantity_of(at, item, left) {
            Turn::Asks(action) => return Ok(action),
            Turn::Goes(rest, quantity) => {
                count = with_quantity(count, &quantity, t);
                left = rest;
            }
        }
    }
    Ok(given(values(alloc, &[count as i64])?))
}

/// How much the warehouse has of the item.
fn quantity_of<'a>(at: District, item: &i64, seen: &'a [Seen]) -> Turn<'a>
    ensures { (next : ℤ → Walk) → Turns (routines.quantity_of at item.now next) next seen.now result }
{
    match seen {
        [] => Turn::Asks(Action::Read(stock_key(at.w, *item))),
        [Seen::One(Some(stock)), rest @ ..] => {
            if !are_numbers(STOCK_COLUMNS, stock) {
                return Turn::Asks(absent());
            }
            Turn::Goes(rest, column_at(stock, S_QUANTITY))
        }
        _ => Turn::Asks(absent()),
    }
}

/// One more, if the quantity is low.
fn with_quantity(count: u64, quantity: &i64, t: &i64) -> u64
    requires { count + 1 < 2 ^ 64 }
    ensures { result ≡ (if int_lt quantity.now t.now then count + 1 else count) }
{
    if *quantity < *t { count + 1 } else { count }
}
