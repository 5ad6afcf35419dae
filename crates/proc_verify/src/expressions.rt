// The kinds of expressions.
ghost use Rattle.std.specs.Prelude.{◌≡◌, IfOk, Ok};
ghost use Rattle.aria_base.specs.declared.values.Kind.TheVariants as kind;
ghost use Rattle.proc_lang.specs.TermOf.{term_of};
ghost use Rattle.proc_lang.specs.Values.{both};
ghost use Rattle.proc_lang.specs.Typing.{binary_kind, by_equals, by_one, by_three, by_two, kind_of, kinds_after, named_kind, register_kind, same_kind, unary_kind};
ghost use Rattle.proc_verify.specs.Scopes.{seen};

use crate::causes::{Typed, wanted};
use crate::registers::SetRegisters;
use crate::scopes::CheckScope;
use aria_base::{Kind, Kinds, Memory};
use proc_lang::{BinaryOp, Expr, Exprs, KIND, Operand, REGISTER, Shape, UnaryOp};

/// Whether the kinds are one.
pub fn same_kind(kind: Kind, other: Kind) -> bool
    ensures { result ≡ same_kind kind other }
{
    match (kind, other) {
        (Kind::Int, Kind::Int) | (Kind::Text, Kind::Text) => true,
        (Kind::Int, Kind::Text) | (Kind::Text, Kind::Int) => false,
    }
}

/// The kind of a register that is read.
fn register_kind(scope: &CheckScope, set: &SetRegisters, register: u32) -> Typed<Kind>
    ensures { result ≡ register_kind (seen scope.now) set.now register }
{
    wanted(REGISTER, set.contains(register))?;
    scope.register_holds(register)
}

/// What an operand of one kind gives.
fn by_one(takes: Kind, gives: Kind, operand: Kind) -> Typed<Kind>
    ensures { result ≡ by_one takes gives (Ok operand) }
{
    wanted(KIND, same_kind(operand, takes))?;
    Ok(gives)
}

/// What two operands of one kind give.
fn by_two(takes: Kind, gives: Kind, operands: (Kind, Kind)) -> Typed<Kind>
    ensures { result ≡ by_two takes gives (Ok operands) }
{
    let agree = same_kind(operands.0, takes) && same_kind(operands.1, takes);
    wanted(KIND, agree)?;
    Ok(gives)
}

/// What two factors and a divisor give.
fn by_three(factors: (Kind, Kind), divisor: Kind) -> Typed<Kind>
    ensures { result ≡ by_three (Ok (factors, divisor)) }
{
    let agree = same_kind(factors.0, Kind::Int)
        && same_kind(factors.1, Kind::Int)
        && same_kind(divisor, Kind::Int);
    wanted(KIND, agree)?;
    Ok(Kind::Int)
}

/// What two operands of the same kind give, whichever it is.
fn by_equals(operands: (Kind, Kind)) -> Typed<Kind>
    ensures { result ≡ by_equals (Ok operands) }
{
    wanted(KIND, same_kind(operands.0, operands.1))?;
    Ok(Kind::Int)
}

/// The kind of what is named by a number.
fn named_kind(scope: &CheckScope, set: &SetRegisters, source: Operand, number: u32) -> Typed<Kind>
    ensures { result ≡ named_kind (seen scope.now) set.now source number }
{
    match source {
        Operand::Reg => register_kind(scope, set, number),
        Operand::Arg => scope.argument_kind(number),
        Operand::Item => scope.item_kind(number),
        Operand::Len => {
            scope.argument_width(number)?;
            Ok(Kind::Int)
        }
    }
}

/// What an operator makes of an operand of this kind.
fn unary_kind(operator: UnaryOp, operand: Kind) -> Typed<Kind>
    ensures { result ≡ unary_kind operator (Ok operand) }
{
    match operator {
        UnaryOp::Not => by_one(Kind::Int, Kind::Int, operand),
        UnaryOp::Show => by_one(Kind::Int, Kind::Text, operand),
    }
}

/// What an operator makes of operands of these kinds.
fn binary_kind(operator: BinaryOp, operands: (Kind, Kind)) -> Typed<Kind>
    ensures { result ≡ binary_kind operator (Ok operands) }
{
    match operator {
        BinaryOp::Eq | BinaryOp::Ne => by_equals(operands),
        BinaryOp::Cat => by_two(Kind::Text, Kind::Text, operands),
        _ => by_two(Kind::Int, Kind::Int, operands),
    }
}

/// The kind of the expression's value. A node's own register, argument or item is looked at first,
/// then its operands from the left, then their kinds.
#[cycle(finding)]
pub fn kind_of(scope: &CheckScope, set: &SetRegisters, expr: &Expr) -> Typed<Kind>
    ensures { result ≡ kind_of (seen scope.now) set.now (term_of expr.now) }
{
    match expr.shape() {
        Shape::Num(_) | Shape::Me => Ok(Kind::Int),
        Shape::Text(_) => Ok(Kind::Text),
        Shape::Named(source, number) => named_kind(scope, set, source, number),
        Shape::Unary(operator, a) => unary_kind(operator, kind_of(scope, set, a)?),
        Shape::Binary(operator, a, b) => binary_kind(operator, two_kinds(scope, set, a, b)?),
        Shape::MulDiv(a, b, c) => {
            let factors = two_kinds(scope, set, a, b)?;
            by_three(factors, kind_of(scope, set, c)?)
        }
        Shape::Front(a, b, _) => by_two(Kind::Text, Kind::Text, two_kinds(scope, set, a, b)?),
    }
}

/// The kinds of two expressions, the first one first.
#[cycle(finding)]
fn two_kinds(scope: &CheckScope, set: &SetRegisters, a: &Expr, b: &Expr) -> Typed<(Kind, Kind)>
    ensures { result ≡ both (kind_of (seen scope.now) set.now (term_of a.now)) (kind_of (seen scope.now) set.now (term_of b.now)) }
{
    let kind = kind_of(scope, set, a)?;
    Ok((kind, kind_of(scope, set, b)?))
}

/// The kinds of expressions, from the left, behind those that are done. Out of memory is no cause, so it
/// stands outside of what is found.
pub fn kinds_after(
    scope: &CheckScope,
    set: &SetRegisters,
    done: Kinds,
    exprs: &Exprs,
) -> Result<Typed<Kinds>, Memory>
    ensures { IfOk result (λ kinds. kinds ≡ kinds_after (seen scope.now) set.now done exprs.now) }
{
    let mut kinds = done.into_vec();
    for expr in exprs.as_slice() {
        match kind_of(scope, set, expr) {
            Ok(kind) => kinds.push(kind)?,
            Err(cause) => return Ok(Err(cause)),
        }
    }
    Ok(Ok(Kinds::from_vec(kinds)))
}
