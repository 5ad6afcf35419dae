// The values of expressions.
ghost use Rattle.std.specs.Prelude.{◌≡◌, IfOk, length};
ghost use Rattle.proc_lang.specs.TermOf.{term_of};
ghost use Rattle.std.specs.declared.result.Result.TheVariants.{Ok};
ghost use Rattle.proc_lang.specs.Values.{both, got, is_true};
ghost use Rattle.proc_lang.specs.Meaning.{part_of};
ghost use Rattle.proc_exec.specs.Faults.{Computes};
ghost use Rattle.proc_exec.specs.Scopes.{value_in, values_in};

use crate::arithmetic::{holds, product_divided_by};
use crate::early_ends::EvalFault;
use crate::operands::{named, number_of};
use crate::operators::{by_binary, by_unary};
use crate::scopes::RunScope;
use crate::texts::front_of;
use aria_base::{Duplicate, Items, Part, Value};
use proc_lang::{Expr, Exprs, Shape};

/// The value of the expression, for this request, this tuple of an `Each` and these registers.
#[cycle(evaluating)]
pub fn eval(scope: &RunScope, registers: &Vec<Value>, expr: &Expr) -> Result<Value, EvalFault>
    ensures { Computes result (value_in scope.now registers.now.items (term_of expr.now)) }
{
    match number_of(scope, registers, expr) {
        Some(number) => Ok(Value::Int(number)),
        None => eval_shape(scope, registers, expr),
    }
}

/// The same by the expression's shape. It is a function of its own, since a function pays at entry for
/// the locals of all its arms.
#[cycle(evaluating)]
#[inline(never)]
fn eval_shape(scope: &RunScope, registers: &Vec<Value>, expr: &Expr) -> Result<Value, EvalFault>
    ensures { Computes result (value_in scope.now registers.now.items (term_of expr.now)) }
{
    match expr.shape() {
        Shape::Num(number) => Ok(Value::Int(number)),
        Shape::Text(text) => Ok(Value::Text(text.duplicate(scope.alloc)?)),
        Shape::Me => Ok(scope.own_number()),
        Shape::Named(source, at) => Ok(named(scope, registers, source, at)?),
        Shape::Unary(operator, a) => {
            let value = eval(scope, registers, a)?;
            Ok(by_unary(scope.alloc, operator, &value)?)
        }
        Shape::Binary(operator, a, b) => {
            let values = eval_both(scope, registers, a, b)?;
            by_binary(scope.alloc, operator, &values)
        }
        Shape::MulDiv(a, b, c) => {
            let factors = eval_both(scope, registers, a, b)?;
            let divisor = eval(scope, registers, c)?;
            product_divided_by(&factors, &divisor)
        }
        Shape::Front(a, b, most) => {
            let values = eval_both(scope, registers, a, b)?;
            Ok(front_of(scope.alloc, &values, most)?)
        }
    }
}

/// The values of two expressions, the first one first.
#[cycle(evaluating)]
fn eval_both(
    scope: &RunScope,
    registers: &Vec<Value>,
    first: &Expr,
    second: &Expr,
) -> Result<(Value, Value), EvalFault>
    ensures { Computes result (both (value_in scope.now registers.now.items (term_of first.now)) (value_in scope.now registers.now.items (term_of second.now))) }
{
    let value = eval(scope, registers, first)?;
    Ok((value, eval(scope, registers, second)?))
}

/// The values of a list of expressions, from the left.
pub fn eval_all(
    scope: &RunScope,
    registers: &Vec<Value>,
    exprs: &Exprs,
) -> Result<Items<Value>, EvalFault>
    ensures count { IfOk result (λ values. length values ≡ length exprs.now) }
    ensures values { Computes result (values_in scope.now registers.now.items exprs.now) }
{
    let mut values = Vec::with_capacity(scope.alloc, exprs.as_slice().len())?;
    for expr in exprs.as_slice() {
        values.push(eval(scope, registers, expr)?)?;
    }
    Ok(Items::from_vec(values))
}

/// Whether the value of the expression is a number other than 0.
pub fn test(scope: &RunScope, registers: &Vec<Value>, expr: &Expr) -> Result<bool, EvalFault>
    ensures { Computes result (got (value_in scope.now registers.now.items (term_of expr.now)) (λ v. Ok (is_true v))) }
{
    match number_of(scope, registers, expr) {
        Some(number) => Ok(number != 0),
        None => Ok(holds(&eval_shape(scope, registers, expr)?)),
    }
}

/// The value of the expression as a part of a key.
pub fn part(scope: &RunScope, registers: &Vec<Value>, expr: &Expr) -> Result<Part, EvalFault>
    ensures { Computes result (got (value_in scope.now registers.now.items (term_of expr.now)) (λ v. Ok (part_of v))) }
{
    match number_of(scope, registers, expr) {
        Some(number) => Ok(Part::Int(number)),
        None => Ok(as_part(eval_shape(scope, registers, expr)?)),
    }
}

/// The value as a part of a key.
fn as_part(value: Value) -> Part
    ensures { result ≡ part_of value }
{
    match value {
        Value::Int(number) => Part::Int(number),
        Value::Text(text) => Part::Text(text),
    }
}
