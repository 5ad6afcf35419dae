// The customers of a district.
ghost use Rattle.std.specs.Prelude.{◌≡◌, ◌≤◌, ◌<◌, [], ◌∷◌, length, map, IfOk, OnOk};
ghost use Rattle.tpcc_load.specs.Draws.{over};
ghost use Rattle.tpcc_load.specs.Rows.{laid};
ghost use Rattle.tpcc_load.specs.Heads.{customer_row, rank_of};
ghost use Rattle.tpcc_load.specs.Heads as heads;

use crate::chances::drawn_name;
use crate::names::{Rank, names};
use crate::orders::District;
use crate::rows::{key, values};
use crate::settings::Tpcc;
use crate::tables::CUSTOMERS;
use aria_base::{Draws, Memory, Row, Txt, TxtRefused, Value};
use load_gen::{percent, random};
use std::alloc::Global;
use tbl_rows::Tables;

/// A customer, as drawn.
#[derive(Clone, Copy, Debug)]
pub(crate) struct Person {
    pub number: u32,
    pub last: u32,
    pub first: u32,
    pub credit: bool,
    pub discount: u32,
}

/// Lays the rows of a district's customers, and tells by what each has its place among its namesakes.
pub(crate) fn customers(
    alloc: Global,
    settings: &Tpcc,
    draws: &mut Draws,
    tables: &mut Tables,
    at: District,
) -> Result<Vec<Rank>, Memory>
    requires { heads.IsWithin settings.now }
    ensures drawn { OnOk result (draws.new ≡ (over settings.now.customers (heads.person settings.now) draws.old).1) }
    ensures tables { OnOk result (tables.new
        ≡ laid tables.old (map (customer_row at.w at.d) (over settings.now.customers (heads.person settings.now) draws.old).0)) }
    ensures count { IfOk result (λ ranks. length ranks.items ≡ settings.now.customers) }
    ensures ranks { IfOk result (λ ranks. ranks.items ≡ map rank_of (over settings.now.customers (heads.person settings.now) draws.old).0) }
{
    let mut ranks = Vec::with_capacity(alloc, settings.customers as usize)?;
    for place in 0..settings.customers {
        let person = drawn_person(settings, draws, place + 1);
        lay(alloc, tables, at, &person)?;
        ranks.push(rank(&person))?;
    }
    Ok(ranks)
}

/// The next customer, of this number.
fn drawn_person(settings: &Tpcc, draws: &mut Draws, number: u32) -> Person
    requires within { heads.IsWithin settings.now }
    requires number { 1 ≤ number }
    ensures { (result ∷ [], draws.new) ≡ heads.person settings.now number draws.old }
{
    let last = last_name(settings, draws, number);
    let first = random(draws, 0, 9_999_999);
    let credit = percent(draws, 10);
    let discount = random(draws, 0, 5_000);
    Person {
        number,
        last,
        first,
        credit,
        discount,
    }
}

/// The name of the customer of this number.
fn last_name(settings: &Tpcc, draws: &mut Draws, number: u32) -> u32
    requires within { heads.IsWithin settings.now }
    requires number { 1 ≤ number }
    ensures { (result, draws.new) ≡ heads.last_name settings.now number draws.old }
{
    let names = names(settings);
    if number <= names {
        return number - 1;
    }
    drawn_name(draws, names)
}

/// Lays a customer's row.
fn lay(alloc: Global, tables: &mut Tables, at: District, person: &Person) -> Result<(), Memory>
    ensures { OnOk result (tables.new ≡ laid tables.old (customer_row at.w at.d person.now ∷ [])) }
{
    let numbers = [
        i64::from(person.last),
        i64::from(person.first),
        i64::from(person.credit),
        i64::from(person.discount),
        -1_000,
        1_000,
        1,
    ];
    let mut columns = values(alloc, &numbers)?;
    columns.push(Value::Text(no_text(alloc)?))?;
    let key = key(alloc, CUSTOMERS, &[at.w, at.d, person.number])?;
    tables.put(key, Row::from_vec(columns))?;
    Ok(())
}

/// The text without bytes. The only refusal that can come is out of memory.
fn no_text(alloc: Global) -> Result<Txt, Memory>
    ensures { IfOk result (λ text. text ≡ []) }
{
    match Txt::of(alloc, &[]) {
        Ok(text) => Ok(text),
        Err(TxtRefused::Memory) => Err(Memory),
        Err(_) => unreachable!(),
    }
}

/// By what a customer has its place among its namesakes.
fn rank(person: &Person) -> Rank
    ensures { result ≡ rank_of person.now }
{
    Rank {
        last: person.last,
        first: person.first,
        number: person.number,
    }
}
