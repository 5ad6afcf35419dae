// Expressions read from JSON.
ghost use Rattle.std.specs.Prelude.{◌≡◌, ◌≤◌, ◌+◌, option_map, option_and_then};
ghost use Rattle.serde_json.specs.Data.{item, no_items};
ghost use Rattle.serde_json.specs.Find.{as_str};
ghost use Rattle.serde_json.specs.View.{view, items_view};
ghost use Rattle.proc_lang.specs.Values.{both};
ghost use Rattle.proc_lang.specs.TermOf.{term_of};
ghost use Rattle.proc_lang.specs.Terms.{Text};
ghost use Rattle.cat_forms.specs.Names.{form_named};
ghost use Rattle.cat_forms.specs.Places.{in_item};
ghost use Rattle.cat_forms.specs.Shapes.{index, number_between, text_of, at_path};
ghost use Rattle.cat_forms.specs.TermWalks.{term_at, node_at, form_at};
ghost use Rattle.cat_read.specs.Places.{path_of};
ghost use Rattle.cat_read.specs.Faults.{Reads};

use crate::faults::Fault;
use crate::places::{JsonPlace, fault_at};
use aria_base::{Txt, TxtRefused};
use cat_forms::{Form, form_named};
use proc_lang::{DEEPEST_EXPR, Expr, MOST_FRONT};
use serde_json::Value;
use std::alloc::Global;

/// The number, where it is a whole one from `low` to `high`.
pub fn number_between(low: u32, high: u32, value: &Value) -> Option<u32>
    ensures { result ≡ number_between low high (view value.now) }
{
    match value.as_u64() {
        Some(number) if u64::from(low) <= number && number <= u64::from(high) => {
            Some(number as u32)
        }
        _ => None,
    }
}

/// The number of a register, an argument or an item.
pub fn index(value: &Value) -> Option<u32>
    ensures { result ≡ index (view value.now) }
{
    number_between(0, u32::MAX, value)
}

/// The expression that the value says.
#[cycle(reading)]
pub fn read_expr(
    alloc: Global,
    place: &JsonPlace<'_>,
    level: usize,
    value: &Value,
) -> Result<Expr, Fault>
    ensures { Reads term_of result (term_at (path_of place.now) level (view value.now)) }
{
    if level > DEEPEST_EXPR {
        return Err(fault_at(alloc, place));
    }
    match value {
        Value::Number(number) => match number.as_i64() {
            Some(number) => Ok(Expr::Num(number)),
            None => Err(fault_at(alloc, place)),
        },
        Value::String(text) => read_text(alloc, place, text.as_str()),
        Value::Array(items) => read_node(alloc, place, level, items),
        _ => Err(fault_at(alloc, place)),
    }
}

/// The text as an expression.
#[tactic(auto, using(crate::proofs::Texts::text_kept, crate::proofs::Texts::text_too_long, crate::proofs::Texts::text_with_bad_byte))]
fn read_text(alloc: Global, place: &JsonPlace<'_>, text: &str) -> Result<Expr, Fault>
    ensures { Reads term_of result (at_path (path_of place.now) (option_map Text (text_of text.now))) }
{
    match Txt::of(alloc, text.as_bytes()) {
        Ok(text) => Ok(Expr::Text(text)),
        Err(TxtRefused::Memory) => Err(Fault::Memory),
        Err(TxtRefused::TooLong { .. } | TxtRefused::BadByte { .. }) => {
            Err(fault_at(alloc, place))
        }
    }
}

/// The expression of this array.
#[cycle(reading)]
fn read_node(
    alloc: Global,
    place: &JsonPlace<'_>,
    level: usize,
    items: &Vec<Value>,
) -> Result<Expr, Fault>
    requires { level ≤ DEEPEST_EXPR }
    ensures { Reads term_of result (node_at (path_of place.now) level (items_view items.now.items)) }
{
    let Some((name, operands)) = items.split_first() else {
        return Err(fault_at(alloc, place));
    };
    match form_of(name) {
        Some(form) => read_form(alloc, place, level, form, operands),
        None => Err(fault_at(alloc, place)),
    }
}

/// The expression of this form with these operands.
#[cycle(reading)]
fn read_form(
    alloc: Global,
    place: &JsonPlace<'_>,
    level: usize,
    form: Form,
    operands: &[Value],
) -> Result<Expr, Fault>
    requires { level ≤ DEEPEST_EXPR }
    ensures { Reads term_of result
        (form_at (path_of place.now) level (Some form) (items_view operands.now)) }
{
    match operands {
        [] => read_alone(alloc, place, level, form),
        [x] => read_one(alloc, place, level, form, x),
        [x, y] => read_two(alloc, place, level, form, x, y),
        [x, y, z] => read_three(alloc, place, level, form, x, y, z),
        _ => Err(fault_at(alloc, place)),
    }
}

/// The form with the name that the value says.
fn form_of(name: &Value) -> Option<Form>
    ensures { result ≡ option_and_then form_named (as_str (view name.now)) }
{
    form_named(name.as_str()?)
}

/// The expression of the form without operands.
fn read_alone(alloc: Global, place: &JsonPlace<'_>, level: usize, form: Form) -> Result<Expr, Fault>
    ensures { Reads term_of result (form_at (path_of place.now) level (Some form) no_items) }
{
    match form {
        Form::Me => Ok(Expr::Me),
        _ => Err(fault_at(alloc, place)),
    }
}

/// The expression of the form with one operand.
#[cycle(reading)]
fn read_one(
    alloc: Global,
    place: &JsonPlace<'_>,
    level: usize,
    form: Form,
    x: &Value,
) -> Result<Expr, Fault>
    requires { level ≤ DEEPEST_EXPR }
    ensures { Reads term_of result
        (form_at (path_of place.now) level (Some form) (item (view x.now) no_items)) }
{
    match form {
        Form::Named(source) => match index(x) {
            Some(number) => Ok(source.of(number)),
            None => Err(fault_at(alloc, place)),
        },
        Form::Unary(operator) => {
            let x = read_operand(alloc, place, level, 1, x)?;
            Ok(operator.of(x))
        }
        _ => Err(fault_at(alloc, place)),
    }
}

/// The expression of the form with two operands.
#[cycle(reading)]
fn read_two(
    alloc: Global,
    place: &JsonPlace<'_>,
    level: usize,
    form: Form,
    x: &Value,
    y: &Value,
) -> Result<Expr, Fault>
    requires { level ≤ DEEPEST_EXPR }
    ensures { Reads term_of result
        (form_at (path_of place.now) level (Some form) (item (view x.now) (item (view y.now) no_items))) }
{
    match form {
        Form::Binary(operator) => {
            let (x, y) = read_both(alloc, place, level, x, y)?;
            Ok(operator.of(x, y))
        }
        _ => Err(fault_at(alloc, place)),
    }
}

/// The expression of the form with three operands.
#[cycle(reading)]
fn read_three(
    alloc: Global,
    place: &JsonPlace<'_>,
    level: usize,
    form: Form,
    x: &Value,
    y: &Value,
    z: &Value,
) -> Result<Expr, Fault>
    requires { level ≤ DEEPEST_EXPR }
    ensures { Reads term_of result
        (form_at (path_of place.now) level (Some form)
        (item (view x.now) (item (view y.now) (item (view z.now) no_items)))) }
{
    match form {
        Form::MulDiv => {
            let (x, y) = read_both(alloc, place, level, x, y)?;
            let z = read_operand(alloc, place, level, 3, z)?;
            Ok(Expr::MulDiv(x, y, z))
        }
        Form::Front => {
            let (x, y) = read_both(alloc, place, level, x, y)?;
            match number_between(0, MOST_FRONT, z) {
                Some(most) => Ok(Expr::Front(x, y, most)),
                None => Err(fault_at(alloc, place)),
            }
        }
        _ => Err(fault_at(alloc, place)),
    }
}

/// The first two operands of the array, from the front.
#[cycle(reading)]
fn read_both(
    alloc: Global,
    place: &JsonPlace<'_>,
    level: usize,
    x: &Value,
    y: &Value,
) -> Result<(Box<Expr>, Box<Expr>), Fault>
    requires { level ≤ DEEPEST_EXPR }
    ensures { Reads (λ ab. (term_of ab.0.value, term_of ab.1.value)) result
        (both (term_at (in_item (path_of place.now) 1) (level + 1) (view x.now))
        (term_at (in_item (path_of place.now) 2) (level + 1) (view y.now))) }
{
    let x = read_operand(alloc, place, level, 1, x)?;
    Ok((x, read_operand(alloc, place, level, 2, y)?))
}

/// The operand at this place of the array.
#[cycle(reading)]
fn read_operand(
    alloc: Global,
    place: &JsonPlace<'_>,
    level: usize,
    at: usize,
    value: &Value,
) -> Result<Box<Expr>, Fault>
    requires { level ≤ DEEPEST_EXPR }
    ensures { Reads (λ x. term_of x.value) result
        (term_at (in_item (path_of place.now) at) (level + 1) (view value.now)) }
{
    let expr = read_expr(alloc, &JsonPlace::Item(place, at), level + 1, value)?;
    Ok(Box::new(alloc, expr)?)
}
