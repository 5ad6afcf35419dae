// Expressions: what a statement evaluates.
ghost use Rattle.std.specs.Prelude.{◌≡◌, map, IfOk};
ghost use Rattle.proc_lang.specs.TermOf.{term_of};

use crate::operators::Shape;
use aria_base::{Duplicate, Memory, Txt};
use std::alloc::Global;
use std::marker::Model;

/// An expression. A test gives 1 or 0, and any number but 0 passes for true. Operands are worked out
/// in the order in which they are written, and none is skipped, in `And` and `Or` neither; the first
/// trap ends the run. The first register, argument or item has the number 0.
#[derive(Drop)]
pub enum Expr {
    /// The number itself.
    Num(i64),
    /// The text itself.
    Text(Txt),
    /// A register.
    Reg(u32),
    /// An argument that is no list.
    Arg(u32),
    /// A number of the current tuple, inside `Each`.
    Item(u32),
    /// The length of a list argument.
    Len(u32),
    /// The request number.
    Me,
    /// The sum; traps with `Overflow` outside the 64-bit numbers, as all arithmetic but `Mod` does.
    Add(Box<Expr>, Box<Expr>),
    /// The difference.
    Sub(Box<Expr>, Box<Expr>),
    /// The product.
    Mul(Box<Expr>, Box<Expr>),
    /// The quotient, rounded down; traps with `Zero` where the divisor is 0.
    Div(Box<Expr>, Box<Expr>),
    /// What `Div` leaves: `x - y * (x div y)`; traps with `Zero` alone.
    Mod(Box<Expr>, Box<Expr>),
    /// The exact product of the first two, divided by the third, rounded down.
    MulDiv(Box<Expr>, Box<Expr>, Box<Expr>),
    /// Whether two values of one kind are equal.
    Eq(Box<Expr>, Box<Expr>),
    /// Whether two values of one kind differ.
    Ne(Box<Expr>, Box<Expr>),
    /// Whether the first number is less.
    Lt(Box<Expr>, Box<Expr>),
    /// Whether the first number is at most the second.
    Le(Box<Expr>, Box<Expr>),
    /// Whether both are true.
    And(Box<Expr>, Box<Expr>),
    /// Whether one is true.
    Or(Box<Expr>, Box<Expr>),
    /// Whether the number is not true.
    Not(Box<Expr>),
    /// The texts joined; traps with `Long` where a text may not be so long.
    Cat(Box<Expr>, Box<Expr>),
    /// At most so many first bytes of the texts joined; at most 500 in any case. Never traps.
    Front(Box<Expr>, Box<Expr>, u32),
    /// The number's printed form.
    Show(Box<Expr>),
}

/// A list of expressions. A contract sees the list of their terms.
#[derive(Drop)]
pub struct Exprs {
    items: Vec<Expr>,
}

impl Model for Exprs {
    ghost use Rattle.std.specs.Prelude.{List, map};
    ghost use Rattle.proc_lang.specs.Terms.{Term};
    ghost use Rattle.proc_lang.specs.TermCodes.{terms_code};

    ghost Value = { List Term };

    ghost coded = { terms_code };

    ghost use Rattle.proc_lang.specs.TermOf.{term_of};

    ghost view = { λ a. map term_of a.items.items };
}

impl Exprs {
    /// The list of these expressions.
    pub fn from_vec(items: Vec<Expr>) -> Self
        ensures { result ≡ map term_of items.items }
    {
        Exprs { items }
    }

    /// The expressions, in their order.
    pub fn as_slice(&self) -> &[Expr]
        ensures { map term_of result.now ≡ self.now }
    {
        self.items.as_slice()
    }
}

impl Duplicate for Exprs {
    fn duplicate(&self, alloc: Global) -> Result<Self, Memory> {
        let mut copy = Vec::with_capacity(alloc, self.items.len())?;
        for item in &self.items {
            copy.push(copy_expr(alloc, item)?)?;
        }
        Ok(Exprs { items: copy })
    }
}

/// An expression with the same term as this one.
#[cycle(copying)]
pub(crate) fn copy_expr(alloc: Global, expr: &Expr) -> Result<Expr, Memory>
    ensures { IfOk result (λ copy. term_of copy ≡ term_of expr.now) }
{
    match expr.shape() {
        Shape::Num(number) => Ok(Expr::Num(number)),
        Shape::Text(text) => Ok(Expr::Text(text.duplicate(alloc)?)),
        Shape::Me => Ok(Expr::Me),
        Shape::Named(source, number) => Ok(source.of(number)),
        Shape::Unary(operator, a) => Ok(operator.of(copy_box(alloc, a)?)),
        Shape::Binary(operator, a, b) => {
            let a = copy_box(alloc, a)?;
            Ok(operator.of(a, copy_box(alloc, b)?))
        }
        Shape::MulDiv(a, b, c) => Ok(Expr::MulDiv(
            copy_box(alloc, a)?,
            copy_box(alloc, b)?,
            copy_box(alloc, c)?,
        )),
        Shape::Front(a, b, most) => Ok(Expr::Front(copy_box(alloc, a)?, copy_box(alloc, b)?, most)),
    }
}

/// The same, in a box of its own.
#[cycle(copying)]
fn copy_box(alloc: Global, expr: &Expr) -> Result<Box<Expr>, Memory>
    ensures { IfOk result (λ copy. term_of copy.value ≡ term_of expr.now) }
{
    Ok(Box::new(alloc, copy_expr(alloc, expr)?)?)
}
