// Expressions by their shape: names of numbered values, operators, and what an expression is made of.
ghost use Rattle.std.specs.Prelude.{◌≡◌};
ghost use Rattle.proc_lang.specs.Terms.{Named, Unary, Binary};
ghost use Rattle.proc_lang.specs.TermOf.{term_of, shape_term};

use crate::expressions::Expr;
use aria_base::Txt;

/// What a number can name in an expression.
#[derive(Clone, Copy, Debug, PartialEq, Eq)]
pub enum Operand {
    /// A register.
    Reg,
    /// An argument that is no list.
    Arg,
    /// A number of the current tuple, inside `Each`.
    Item,
    /// The length of a list argument.
    Len,
}

/// The operators of one operand, explained at [`Expr`].
#[derive(Clone, Copy, Debug, PartialEq, Eq)]
pub enum UnaryOp {
    Not,
    Show,
}

/// The operators of two operands that are expressions, explained at [`Expr`].
#[derive(Clone, Copy, Debug, PartialEq, Eq)]
pub enum BinaryOp {
    Add,
    Sub,
    Mul,
    Div,
    Mod,
    Eq,
    Ne,
    Lt,
    Le,
    And,
    Or,
    Cat,
}

/// An expression by its shape, with its operands where they stand.
pub enum Shape<'a> {
    Num(i64),
    Text(&'a Txt),
    Me,
    Named(Operand, u32),
    Unary(UnaryOp, &'a Expr),
    Binary(BinaryOp, &'a Expr, &'a Expr),
    MulDiv(&'a Expr, &'a Expr, &'a Expr),
    Front(&'a Expr, &'a Expr, u32),
}

impl Expr {
    /// The expression's shape. No memory.
    pub fn shape(&self) -> Shape<'_>
        ensures { shape_term result ≡ term_of self.now }
    {
        match self {
            Expr::Num(number) => Shape::Num(*number),
            Expr::Text(text) => Shape::Text(text),
            Expr::Reg(at) => Shape::Named(Operand::Reg, *at),
            Expr::Arg(at) => Shape::Named(Operand::Arg, *at),
            Expr::Item(at) => Shape::Named(Operand::Item, *at),
            Expr::Len(at) => Shape::Named(Operand::Len, *at),
            Expr::Me => Shape::Me,
            Expr::Add(a, b) => Shape::Binary(BinaryOp::Add, a, b),
            Expr::Sub(a, b) => Shape::Binary(BinaryOp::Sub, a, b),
            Expr::Mul(a, b) => Shape::Binary(BinaryOp::Mul, a, b),
            Expr::Div(a, b) => Shape::Binary(BinaryOp::Div, a, b),
            Expr::Mod(a, b) => Shape::Binary(BinaryOp::Mod, a, b),
            Expr::MulDiv(a, b, c) => Shape::MulDiv(a, b, c),
            Expr::Eq(a, b) => Shape::Binary(BinaryOp::Eq, a, b),
            Expr::Ne(a, b) => Shape::Binary(BinaryOp::Ne, a, b),
            Expr::Lt(a, b) => Shape::Binary(BinaryOp::Lt, a, b),
            Expr::Le(a, b) => Shape::Binary(BinaryOp::Le, a, b),
            Expr::And(a, b) => Shape::Binary(BinaryOp::And, a, b),
            Expr::Or(a, b) => Shape::Binary(BinaryOp::Or, a, b),
            Expr::Not(a) => Shape::Unary(UnaryOp::Not, a),
            Expr::Cat(a, b) => Shape::Binary(BinaryOp::Cat, a, b),
            Expr::Front(a, b, most) => Shape::Front(a, b, *most),
            Expr::Show(a) => Shape::Unary(UnaryOp::Show, a),
        }
    }
}

impl Operand {
    /// The expression that names this by its number. No memory.
    pub fn of(self, number: u32) -> Expr
        ensures { term_of result ≡ Named self number }
    {
        match self {
            Operand::Reg => Expr::Reg(number),
            Operand::Arg => Expr::Arg(number),
            Operand::Item => Expr::Item(number),
            Operand::Len => Expr::Len(number),
        }
    }
}

impl UnaryOp {
    /// The operator applied. No memory.
    pub fn of(self, a: Box<Expr>) -> Expr
        ensures { term_of result ≡ Unary self (term_of a.value) }
    {
        match self {
            UnaryOp::Not => Expr::Not(a),
            UnaryOp::Show => Expr::Show(a),
        }
    }
}

impl BinaryOp {
    /// The operator applied. No memory.
    pub fn of(self, a: Box<Expr>, b: Box<Expr>) -> Expr
        ensures { term_of result ≡ Binary self (term_of a.value) (term_of b.value) }
    {
        match self {
            BinaryOp::Add => Expr::Add(a, b),
            BinaryOp::Sub => Expr::Sub(a, b),
            BinaryOp::Mul => Expr::Mul(a, b),
            BinaryOp::Div => Expr::Div(a, b),
            BinaryOp::Mod => Expr::Mod(a, b),
            BinaryOp::Eq => Expr::Eq(a, b),
            BinaryOp::Ne => Expr::Ne(a, b),
            BinaryOp::Lt => Expr::Lt(a, b),
            BinaryOp::Le => Expr::Le(a, b),
            BinaryOp::And => Expr::And(a, b),
            BinaryOp::Or => Expr::Or(a, b),
            BinaryOp::Cat => Expr::Cat(a, b),
        }
    }
}
