// The catalogue of the example, by value: one table of accounts, and one procedure.
ghost use Rattle.std.specs.Prelude.{◌≡◌, ◌≤◌, ◌∷◌, [], length, true, IfOk};
ghost use Rattle.aria_base.specs.Texts.{is_word};
ghost use Rattle.proc_lang.specs.Catalogs.{proc_fits, steps_count, steps_fit, table_fits, term_fits};
ghost use Rattle.proc_lang.specs.TermOf.{term_of};
ghost use Rattle.proc_lang.specs.declared.limits.TheConstants.{MOST_STATEMENTS};
ghost use Rattle.proc_lang.specs.declared.procs.ArgKind.TheVariants as kind;

use crate::Fault;
use aria_base::{Arg, Args, Call, Kind, Kinds, Memory, Schema, Table, Txt, TxtRefused};
use proc_lang::{ArgKind, ArgKinds, Block, Catalog, Expr, Exprs, Proc, Regs, Stmt};
use proc_verify::verify;
use std::alloc::Global;

/// The number of the procedure `add`.
const ADD: u16 = 0;

/// The catalogue: the table `account`, with a balance by number, and the procedure `add`.
pub fn catalog(alloc: Global) -> Result<Catalog, Fault> {
    let mut tables = Vec::new(alloc);
    tables.push(table(alloc)?).map_err(|_| Memory)?;
    let schema = Schema::from_vec(tables);
    let add = verify(alloc, add(alloc)?, ADD, &schema)?;
    let mut procs = Vec::new(alloc);
    procs.push(add).map_err(|_| Memory)?;
    Ok(Catalog::of(schema, procs))
}

/// A call of `add`: an account, and what is added to its balance.
pub fn add_call(alloc: Global, account: i64, amount: i64) -> Result<Call, Memory> {
    let args = vec![in alloc; Arg::Int(account), Arg::Int(amount)]?;
    Ok(Call {
        proc: ADD,
        args: Args::from_vec(args),
    })
}

/// The table: a balance by an account's number.
fn table(alloc: Global) -> Result<Table, Fault>
    ensures { IfOk result (λ table. table_fits table ≡ true) }
{
    Ok(Table {
        name: name(alloc, b"account")?,
        key: one_number(alloc)?,
        cols: one_number(alloc)?,
    })
}

/// The procedure: it adds an amount to an account's balance, 0 where there is none, and gives the sum.
fn add(alloc: Global) -> Result<Proc, Fault>
    ensures fits { IfOk result (λ proc. proc_fits proc ≡ true) }
    ensures few { IfOk result (λ proc. steps_count proc.body ≤ MOST_STATEMENTS) }
{
    Ok(Proc {
        name: name(alloc, b"add")?,
        args: two_args(alloc)?,
        regs: two_numbers(alloc)?,
        body: body(alloc)?,
    })
}

/// Reads the balance, adds the amount, writes the sum and gives it.
fn body(alloc: Global) -> Result<Block, Memory>
    ensures few { IfOk result (λ block. steps_count block ≤ MOST_STATEMENTS) }
    ensures fits { IfOk result (λ block. steps_fit block ≡ true) }
{
    let mut balance = Vec::new(alloc);
    balance.push(0)?;
    let mut steps = Vec::new(alloc);
    let account = single(alloc, Expr::Arg(0))?;
    steps.push(Stmt::Find(0, account, Regs::from_vec(balance), 1))?;
    steps.push(Stmt::Let(0, sum(alloc)?))?;
    let account = single(alloc, Expr::Arg(0))?;
    steps.push(Stmt::Put(0, account, single(alloc, Expr::Reg(0))?))?;
    steps.push(Stmt::Give(Expr::Reg(0)))?;
    Ok(Block::from_vec(steps))
}

/// The sum of the balance and the amount.
fn sum(alloc: Global) -> Result<Expr, Memory>
    ensures { IfOk result (λ expr. term_fits (term_of expr) ≡ true) }
{
    let balance = Box::new(alloc, Expr::Reg(0))?;
    Ok(Expr::Add(balance, Box::new(alloc, Expr::Arg(1))?))
}

/// A list of one expression.
fn single(alloc: Global, expr: Expr) -> Result<Exprs, Memory>
    ensures { IfOk result (λ exprs. exprs ≡ term_of expr ∷ []) }
{
    Ok(Exprs::from_vec(vec![in alloc; expr]?))
}

/// The word as a text.
fn name(alloc: Global, word: &[u8]) -> Result<Txt, TxtRefused>
    requires { is_word word.now ≡ true }
    ensures { IfOk result (λ text. is_word text ≡ true) }
{
    Txt::of(alloc, word)
}

/// The kinds of the account and the amount.
fn two_args(alloc: Global) -> Result<ArgKinds, Memory>
    ensures { IfOk result (λ kinds. kinds ≡ kind.Int ∷ kind.Int ∷ []) }
{
    Ok(ArgKinds::from_vec(vec![in alloc; ArgKind::Int, ArgKind::Int]?))
}

/// The kind of one number.
fn one_number(alloc: Global) -> Result<Kinds, Memory>
    ensures { IfOk result (λ kinds. length kinds ≡ 1) }
{
    Ok(Kinds::from_vec(vec![in alloc; Kind::Int]?))
}

/// The kinds of the balance, and of whether there was one.
fn two_numbers(alloc: Global) -> Result<Kinds, Memory>
    ensures { IfOk result (λ kinds. length kinds ≡ 2) }
{
    Ok(Kinds::from_vec(vec![in alloc; Kind::Int, Kind::Int]?))
}
