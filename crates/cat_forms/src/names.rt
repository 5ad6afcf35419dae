// What expressions, statements and kinds are called in JSON.
ghost use Rattle.std.specs.Prelude.{◌≡◌};
ghost use Rattle.cat_forms.specs.Names.{operand_name, unary_name, binary_name, form_name, form_named, verb_name, verb_named, kind_name, kind_named, arg_kind_name, arg_kind_named};

use aria_base::Kind;
use proc_lang::{ArgKind, BinaryOp, MOST_TABLES, Operand, UnaryOp};

/// The forms of expressions that have a name.
#[derive(Clone, Copy, Debug, PartialEq, Eq)]
pub enum Form {
    Me,
    /// Of a plain number.
    Named(Operand),
    /// Of one expression.
    Unary(UnaryOp),
    /// Of two expressions.
    Binary(BinaryOp),
    MulDiv,
    Front,
}

/// All of them.
pub const FORMS: [Form; 21] = [
    Form::Me,
    Form::Named(Operand::Reg),
    Form::Named(Operand::Arg),
    Form::Named(Operand::Item),
    Form::Named(Operand::Len),
    Form::Unary(UnaryOp::Not),
    Form::Unary(UnaryOp::Show),
    Form::Binary(BinaryOp::Add),
    Form::Binary(BinaryOp::Sub),
    Form::Binary(BinaryOp::Mul),
    Form::Binary(BinaryOp::Div),
    Form::Binary(BinaryOp::Mod),
    Form::Binary(BinaryOp::Eq),
    Form::Binary(BinaryOp::Ne),
    Form::Binary(BinaryOp::Lt),
    Form::Binary(BinaryOp::Le),
    Form::Binary(BinaryOp::And),
    Form::Binary(BinaryOp::Or),
    Form::Binary(BinaryOp::Cat),
    Form::MulDiv,
    Form::Front,
];

/// What statements do.
#[derive(Clone, Copy, Debug, PartialEq, Eq)]
pub enum Verb {
    Let,
    Get,
    Need,
    Find,
    Put,
    Del,
    If,
    Each,
    Give,
    Fail,
}

/// All of them.
pub const VERBS: [Verb; 10] = [
    Verb::Let,
    Verb::Get,
    Verb::Need,
    Verb::Find,
    Verb::Put,
    Verb::Del,
    Verb::If,
    Verb::Each,
    Verb::Give,
    Verb::Fail,
];

/// All kinds of values.
pub const KINDS: [Kind; 2] = [Kind::Int, Kind::Text];

/// All kinds of arguments.
pub const ARG_KINDS: [ArgKind; 7] = [
    ArgKind::Int,
    ArgKind::Text,
    ArgKind::List(1),
    ArgKind::List(2),
    ArgKind::List(3),
    ArgKind::List(4),
    ArgKind::List(5),
];

/// The number of a table whose name no table has.
pub const NO_TABLE: u16 = 65535;

const _: () = prove!(NO_TABLE as usize >= MOST_TABLES);

/// What the form of a plain number is called.
fn operand_name(source: Operand) -> &'static str
    ensures { result.now ≡ operand_name source }
{
    match source {
        Operand::Reg => "reg",
        Operand::Arg => "arg",
        Operand::Item => "item",
        Operand::Len => "len",
    }
}

/// What an operator of one expression is called.
fn unary_name(operator: UnaryOp) -> &'static str
    ensures { result.now ≡ unary_name operator }
{
    match operator {
        UnaryOp::Not => "not",
        UnaryOp::Show => "show",
    }
}

/// What an operator of two expressions is called.
fn binary_name(operator: BinaryOp) -> &'static str
    ensures { result.now ≡ binary_name operator }
{
    match operator {
        BinaryOp::Add => "add",
        BinaryOp::Sub => "sub",
        BinaryOp::Mul => "mul",
        BinaryOp::Div => "div",
        BinaryOp::Mod => "mod",
        BinaryOp::Eq => "eq",
        BinaryOp::Ne => "ne",
        BinaryOp::Lt => "lt",
        BinaryOp::Le => "le",
        BinaryOp::And => "and",
        BinaryOp::Or => "or",
        BinaryOp::Cat => "cat",
    }
}

impl Form {
    /// What it is called.
    pub fn name(self) -> &'static str
        ensures { result.now ≡ form_name self }
    {
        match self {
            Form::Me => "me",
            Form::Named(source) => operand_name(source),
            Form::Unary(operator) => unary_name(operator),
            Form::Binary(operator) => binary_name(operator),
            Form::MulDiv => "muldiv",
            Form::Front => "front",
        }
    }
}

/// The form with this name.
pub fn form_named(name: &str) -> Option<Form>
    ensures { result ≡ form_named name.now }
{
    FORMS
        .iter()
        .copied()
        .find(|form| form.name().as_bytes() == name.as_bytes())
}

impl Verb {
    /// What it is called.
    pub fn name(self) -> &'static str
        ensures { result.now ≡ verb_name self }
    {
        match self {
            Verb::Let => "let",
            Verb::Get => "get",
            Verb::Need => "need",
            Verb::Find => "find",
            Verb::Put => "put",
            Verb::Del => "del",
            Verb::If => "if",
            Verb::Each => "each",
            Verb::Give => "give",
            Verb::Fail => "fail",
        }
    }
}

/// The verb with this name.
pub fn verb_named(name: &str) -> Option<Verb>
    ensures { result ≡ verb_named name.now }
{
    VERBS
        .iter()
        .copied()
        .find(|verb| verb.name().as_bytes() == name.as_bytes())
}

/// What a kind is called.
pub fn kind_name(kind: Kind) -> &'static str
    ensures { result.now ≡ kind_name kind }
{
    match kind {
        Kind::Int => "int",
        Kind::Text => "text",
    }
}

/// What a kind of arguments is called.
pub fn arg_kind_name(kind: ArgKind) -> &'static str
    ensures { result.now ≡ arg_kind_name kind }
{
    match kind {
        ArgKind::Int => "int",
        ArgKind::Text => "text",
        ArgKind::List(1) => "list1",
        ArgKind::List(2) => "list2",
        ArgKind::List(3) => "list3",
        ArgKind::List(4) => "list4",
        ArgKind::List(5) => "list5",
        ArgKind::List(_) => "list",
    }
}

/// The kind with this name.
pub fn kind_named(name: &str) -> Option<Kind>
    ensures { result ≡ kind_named name.now }
{
    KINDS
        .iter()
        .copied()
        .find(|kind| kind_name(*kind).as_bytes() == name.as_bytes())
}

/// The kind of arguments with this name.
pub fn arg_kind_named(name: &str) -> Option<ArgKind>
    ensures { result ≡ arg_kind_named name.now }
{
    ARG_KINDS
        .iter()
        .copied()
        .find(|kind| arg_kind_name(*kind).as_bytes() == name.as_bytes())
}
