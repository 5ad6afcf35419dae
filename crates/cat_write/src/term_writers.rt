// Expressions as JSON.
ghost use Rattle.std.specs.Prelude.{◌≡◌, ◌∷◌, [], ◌&&◌, true, IfOk};
ghost use Rattle.serde_json.specs.Data.{string};
ghost use Rattle.serde_json.specs.View.{view};
ghost use Rattle.proc_lang.specs.TermOf.{term_of};
ghost use Rattle.cat_forms.specs.declared.names.Form.TheVariants as form;
ghost use Rattle.cat_forms.specs.Shapes.{is_text};
ghost use Rattle.cat_forms.specs.Written.{form_data, index_data, term_data};
ghost use Rattle.cat_write.specs.Held.{term_held};

use aria_base::{Memory, Txt};
use cat_forms::Form;
use proc_lang::{BinaryOp, Expr, Operand, Shape, UnaryOp};
use serde_json::{ToValue, Value};
use std::alloc::Global;
use std::str;

/// The text as JSON.
#[tactic(auto, using(crate::proofs::Texts::text_is_utf8, cat_forms::proofs::Texts::text_passes))]
pub fn text_value(alloc: Global, text: &Txt) -> Result<Value, Memory>
    ensures data { IfOk result (λ v. view v ≡ string text.now) }
    ensures held { IfOk result (λ _. is_text text.now ≡ true) }
{
    match str::from_utf8(text.as_slice()) {
        Ok(text) => Ok(text.to_value(alloc)?),
        Err(_) => unreachable!(),
    }
}

/// The form without operands.
fn alone(alloc: Global, form: Form) -> Result<Value, Memory>
    ensures { IfOk result (λ v. view v ≡ form_data form []) }
{
    Ok(Value::Array(vec![in alloc; form.name().to_value(alloc)?]?))
}

/// The form of a plain number.
fn named(alloc: Global, source: Operand, number: u32) -> Result<Value, Memory>
    ensures { IfOk result (λ v. view v ≡ form_data (form.Named source) (index_data number ∷ [])) }
{
    let name = Form::Named(source).name().to_value(alloc)?;
    Ok(Value::Array(vec![in alloc; name, Value::from(number)]?))
}

/// An operator of one expression.
#[cycle(writing)]
fn unary(alloc: Global, operator: UnaryOp, x: &Expr) -> Result<Value, Memory>
    ensures data { IfOk result (λ v. view v ≡ form_data (form.Unary operator) (term_data (term_of x.now) ∷ [])) }
    ensures held { IfOk result (λ _. term_held (term_of x.now) ≡ true) }
{
    let name = Form::Unary(operator).name().to_value(alloc)?;
    let x = write_expr(alloc, x)?;
    Ok(Value::Array(vec![in alloc; name, x]?))
}

/// An operator of two expressions.
#[cycle(writing)]
fn binary(alloc: Global, operator: BinaryOp, x: &Expr, y: &Expr) -> Result<Value, Memory>
    ensures data { IfOk result (λ v. view v
        ≡ form_data (form.Binary operator) (term_data (term_of x.now) ∷ term_data (term_of y.now) ∷ [])) }
    ensures held { IfOk result (λ _. (term_held (term_of x.now) && term_held (term_of y.now)) ≡ true) }
{
    let name = Form::Binary(operator).name().to_value(alloc)?;
    let x = write_expr(alloc, x)?;
    let y = write_expr(alloc, y)?;
    Ok(Value::Array(vec![in alloc; name, x, y]?))
}

/// The expression as JSON.
#[cycle(writing)]
pub fn write_expr(alloc: Global, expr: &Expr) -> Result<Value, Memory>
    ensures data { IfOk result (λ v. view v ≡ term_data (term_of expr.now)) }
    ensures held { IfOk result (λ _. term_held (term_of expr.now) ≡ true) }
{
    match expr.shape() {
        Shape::Num(number) => Ok(Value::from(number)),
        Shape::Text(text) => text_value(alloc, text),
        Shape::Me => alone(alloc, Form::Me),
        Shape::Named(source, number) => named(alloc, source, number),
        Shape::Unary(operator, x) => unary(alloc, operator, x),
        Shape::Binary(operator, x, y) => binary(alloc, operator, x, y),
        Shape::MulDiv(x, y, z) => mul_div(alloc, x, y, z),
        Shape::Front(x, y, most) => front(alloc, x, y, most),
    }
}

/// The product of two, divided by the third.
#[cycle(writing)]
fn mul_div(alloc: Global, x: &Expr, y: &Expr, z: &Expr) -> Result<Value, Memory>
    ensures data { IfOk result (λ v. view v
        ≡ form_data form.MulDiv (term_data (term_of x.now) ∷ term_data (term_of y.now) ∷ term_data (term_of z.now) ∷ [])) }
    ensures held { IfOk result (λ _. (term_held (term_of x.now) && term_held (term_of y.now) && term_held (term_of z.now)) ≡ true) }
{
    let name = Form::MulDiv.name().to_value(alloc)?;
    let x = write_expr(alloc, x)?;
    let y = write_expr(alloc, y)?;
    let z = write_expr(alloc, z)?;
    Ok(Value::Array(vec![in alloc; name, x, y, z]?))
}

/// The first bytes of two, and how many.
#[cycle(writing)]
fn front(alloc: Global, x: &Expr, y: &Expr, most: u32) -> Result<Value, Memory>
    ensures data { IfOk result (λ v. view v
        ≡ form_data form.Front (term_data (term_of x.now) ∷ term_data (term_of y.now) ∷ index_data most ∷ [])) }
    ensures held { IfOk result (λ _. (term_held (term_of x.now) && term_held (term_of y.now)) ≡ true) }
{
    let name = Form::Front.name().to_value(alloc)?;
    let x = write_expr(alloc, x)?;
    let y = write_expr(alloc, y)?;
    Ok(Value::Array(vec![in alloc; name, x, y, Value::from(most)]?))
}
