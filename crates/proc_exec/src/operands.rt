// What an expression names: it is read where it stands, and copied only where it is wanted whole.
ghost use Rattle.std.specs.Prelude.{◌≡◌, ◌&&◌, ◌||◌, IfOk, IfSome, slice_index_or, pos};
ghost use Rattle.std.specs.declared.result.Result.TheVariants.{Ok};
ghost use Rattle.aria_base.specs.declared.values.Value.TheVariants as value;
ghost use Rattle.proc_lang.specs.TermOf.{term_of};
ghost use Rattle.proc_lang.specs.Values.{both, got, is_true, number, same_value, truth};
ghost use Rattle.proc_lang.specs.Meaning.{named_value};
ghost use Rattle.proc_exec.specs.Scopes.{value_in};

use crate::scopes::RunScope;
use aria_base::{Arg, Duplicate, Memory, Value};
use proc_lang::{Expr, Operand};
use std::alloc::Global;

/// The value that a number of the source names.
pub fn named(
    scope: &RunScope,
    registers: &Vec<Value>,
    source: Operand,
    at: u32,
) -> Result<Value, Memory>
    ensures { IfOk result (λ v. v ≡ named_value scope.now.request.now scope.now.item.now registers.now.items source at) }
{
    match source {
        Operand::Reg => register(scope.alloc, registers, at),
        Operand::Arg => scope.argument(at),
        Operand::Item => Ok(Value::Int(scope.number(at))),
        Operand::Len => Ok(Value::Int(scope.tuples(at).len() as i64)),
    }
}

/// The value of a register, 0 where there is none.
fn register(alloc: Global, registers: &Vec<Value>, at: u32) -> Result<Value, Memory>
    ensures { IfOk result (λ v. v ≡ slice_index_or registers.now.items at (value.Int (pos 0))) }
{
    match registers.get(at as usize) {
        Some(value) => value.duplicate(alloc),
        None => Ok(Value::Int(0)),
    }
}

/// The text of a literal, a register or an argument, where it stands. None of what is a number there,
/// nor of any other expression.
fn text_at<'a>(scope: &RunScope<'a>, registers: &'a Vec<Value>, expr: &'a Expr) -> Option<&'a [u8]>
    ensures { IfSome result (λ text. value_in scope.now registers.now.items (term_of expr.now) ≡ Ok (value.Text text.now)) }
{
    match expr {
        Expr::Text(text) => Some(text.as_slice()),
        Expr::Reg(at) => match registers.get(*at as usize) {
            Some(Value::Text(text)) => Some(text.as_slice()),
            _ => None,
        },
        Expr::Arg(at) => match scope.request.call.args.as_slice().get(*at as usize) {
            Some(Arg::Text(text)) => Some(text.as_slice()),
            _ => None,
        },
        _ => None,
    }
}

/// The number, where it is within the 64-bit numbers.
fn fitting(exact: i128) -> Option<i64>
    ensures { IfSome result (λ n. number exact ≡ Ok (value.Int n)) }
{
    match i64::try_from(exact) {
        Ok(small) => Some(small),
        Err(_) => None,
    }
}

/// 1 or 0.
fn number_of_truth(holds: bool) -> i64
    ensures { value.Int result ≡ truth holds }
{
    if holds { 1 } else { 0 }
}

/// Whether two texts are equal where they stand.
fn equal_texts(
    scope: &RunScope,
    registers: &Vec<Value>,
    first: &Expr,
    second: &Expr,
) -> Option<bool>
    ensures { IfSome result (λ equal. got (both (value_in scope.now registers.now.items (term_of first.now)) (value_in scope.now registers.now.items (term_of second.now))) (λ p. Ok (same_value p.0 p.1)) ≡ Ok equal) }
{
    Some(text_at(scope, registers, first)? == text_at(scope, registers, second)?)
}

/// Whether two operands are equal, both numbers, or both texts where they stand.
#[cycle(counting)]
fn equal(scope: &RunScope, registers: &Vec<Value>, first: &Expr, second: &Expr) -> Option<bool>
    ensures { IfSome result (λ equal. got (both (value_in scope.now registers.now.items (term_of first.now)) (value_in scope.now registers.now.items (term_of second.now))) (λ p. Ok (same_value p.0 p.1)) ≡ Ok equal) }
{
    match number_of(scope, registers, first) {
        Some(x) => Some(x == number_of(scope, registers, second)?),
        None => equal_texts(scope, registers, first, second),
    }
}

/// The number of an expression, where it is found without memory and without a trap. None of what is a
/// text, nor of what only `eval` works out.
#[cycle(counting)]
pub fn number_of(scope: &RunScope, registers: &Vec<Value>, expr: &Expr) -> Option<i64>
    ensures { IfSome result (λ n. value_in scope.now registers.now.items (term_of expr.now) ≡ Ok (value.Int n)) }
{
    match expr {
        Expr::Num(number) => Some(*number),
        Expr::Reg(at) => match registers.get(*at as usize) {
            Some(Value::Int(number)) => Some(*number),
            _ => None,
        },
        Expr::Arg(at) => match scope.request.call.args.as_slice().get(*at as usize) {
            Some(Arg::Int(number)) => Some(*number),
            _ => None,
        },
        Expr::Item(at) => Some(scope.number(*at)),
        Expr::Eq(a, b) => Some(number_of_truth(equal(scope, registers, a, b)?)),
        Expr::Ne(a, b) => Some(number_of_truth(!equal(scope, registers, a, b)?)),
        _ => number_of_two(scope, registers, expr),
    }
}

/// The number of an operation on two numbers, where it is found so. None of any other expression.
#[cycle(counting)]
fn number_of_two(scope: &RunScope, registers: &Vec<Value>, expr: &Expr) -> Option<i64>
    ensures { IfSome result (λ n. value_in scope.now registers.now.items (term_of expr.now) ≡ Ok (value.Int n)) }
{
    match expr {
        Expr::Add(a, b) => {
            let (x, y) = numbers_of(scope, registers, a, b)?;
            fitting(i128::from(x) + i128::from(y))
        }
        Expr::Sub(a, b) => {
            let (x, y) = numbers_of(scope, registers, a, b)?;
            fitting(i128::from(x) - i128::from(y))
        }
        Expr::Mul(a, b) => {
            let (x, y) = numbers_of(scope, registers, a, b)?;
            fitting(i128::from(x) * i128::from(y))
        }
        Expr::Lt(a, b) => {
            let (x, y) = numbers_of(scope, registers, a, b)?;
            Some(number_of_truth(x < y))
        }
        Expr::Le(a, b) => {
            let (x, y) = numbers_of(scope, registers, a, b)?;
            Some(number_of_truth(x <= y))
        }
        Expr::And(a, b) => {
            let (x, y) = numbers_of(scope, registers, a, b)?;
            Some(number_of_truth(both_hold(x, y)))
        }
        Expr::Or(a, b) => {
            let (x, y) = numbers_of(scope, registers, a, b)?;
            Some(number_of_truth(one_holds(x, y)))
        }
        _ => None,
    }
}

/// The numbers of two expressions, where both are found so.
#[cycle(counting)]
fn numbers_of(
    scope: &RunScope,
    registers: &Vec<Value>,
    first: &Expr,
    second: &Expr,
) -> Option<(i64, i64)>
    ensures { IfSome result (λ pair. both (value_in scope.now registers.now.items (term_of first.now)) (value_in scope.now registers.now.items (term_of second.now)) ≡ Ok (value.Int pair.0, value.Int pair.1)) }
{
    let x = number_of(scope, registers, first)?;
    let y = number_of(scope, registers, second)?;
    Some((x, y))
}

/// Whether both numbers are not 0.
fn both_hold(x: i64, y: i64) -> bool
    ensures { result ≡ (is_true (value.Int x) && is_true (value.Int y)) }
{
    // by two ways out: the conjunction takes a hundred times as long to prove
    if x == 0 {
        return false;
    }
    y != 0
}

/// Whether one of the numbers is not 0.
fn one_holds(x: i64, y: i64) -> bool
    ensures { result ≡ (is_true (value.Int x) || is_true (value.Int y)) }
{
    x != 0 || y != 0
}
