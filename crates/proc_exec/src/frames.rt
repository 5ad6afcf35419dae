// A run between two statements.
ghost use Rattle.std.specs.Prelude.{◌≡◌, IfOk, map, pos, slice_set};
ghost use Rattle.std.specs.declared.result.Result.TheVariants.{Ok};
ghost use Rattle.aria_base.specs.declared.values.Value.TheVariants as value;
ghost use Rattle.proc_lang.specs.Steps as step;
ghost use Rattle.proc_lang.specs.TermOf.{term_of};
ghost use Rattle.proc_lang.specs.Values.{blank, got, is_true};
ghost use Rattle.proc_lang.specs.Meaning.{Next, begun, set_to, set_all, blank_all, blank_one, key_from, row_from, parts_of};
ghost use Rattle.proc_exec.specs.Faults.{Computes};
ghost use Rattle.proc_exec.specs.Scopes.{value_in, values_in, step_in};
ghost use Rattle.proc_exec.specs.Steppings.{Counts, Goes};

use crate::early_ends::EvalFault;
use crate::evaluations::{eval, eval_all, part, test};
use crate::limits::Likely;
use crate::scopes::RunScope;
use crate::texts::kept;
use aria_base::{
    Duplicate, Key, Kind, Kinded, Kinds, MOST_COLUMNS, Memory, Part, Parts, Row, Value,
};
use proc_lang::{Expr, Exprs, Gives, MOST_ACCESSES, MOST_GIVEN, Regs, Trap};
use std::alloc::Global;
use std::marker::Model;

/// How many values there is room for from the first one on: more than most runs give.
const FIRST_GIVEN: usize = 12;

/// The registers of a run, the values that it has given, and how many accesses it has made. A contract sees nothing
/// of where its next access is likely to stand.
#[derive(Drop)]
pub struct Running {
    registers: Vec<Value>,
    given: Vec<Value>,
    made: usize,
    pub(crate) likely: Likely,
}

impl Model for Running {
    ghost use Rattle.std.specs.Prelude.{length, ◌≤◌};
    ghost use Rattle.proc_lang.specs.Meaning.{Frame};
    ghost use Rattle.proc_lang.specs.declared.limits.TheConstants.{MOST_GIVEN};

    ghost Value = { Frame };

    ghost view = { λ a. record { regs = a.registers.items; gives = a.given.items; made = a.made } };

    ghost invariant = { λ a. length a.given.items ≤ MOST_GIVEN };
}

impl Running {
    /// A run that has not begun, with registers of these kinds.
    pub fn start(alloc: Global, kinds: &Kinds) -> Result<Running, Memory>
        ensures { IfOk result (λ run. run ≡ begun kinds.now) }
    {
        Ok(Running {
            registers: blanks(alloc, kinds)?,
            given: Vec::new(alloc),
            made: 0,
            likely: Likely::first(),
        })
    }

    /// The value of an expression.
    pub fn value(&self, scope: &RunScope, expr: &Expr) -> Result<Value, EvalFault>
        ensures { Computes result (value_in scope.now self.now.regs (term_of expr.now)) }
    {
        eval(scope, &self.registers, expr)
    }

    /// Whether the value of an expression is a number other than 0.
    pub fn test(&self, scope: &RunScope, expr: &Expr) -> Result<bool, EvalFault>
        ensures { Computes result (got (value_in scope.now self.now.regs (term_of expr.now)) (λ v. Ok (is_true v))) }
    {
        test(scope, &self.registers, expr)
    }

    /// The key in this table with the values of these expressions.
    pub fn key(&self, scope: &RunScope, table: u16, exprs: &Exprs) -> Result<Key, EvalFault>
        ensures { Computes result (key_from scope.now.request.now scope.now.item.now self.now.regs table exprs.now) }
    {
        let parts = self.parts(scope, exprs)?;
        Ok(Key { table, parts })
    }

    /// The parts of a key with the values of these expressions.
    fn parts(&self, scope: &RunScope, exprs: &Exprs) -> Result<Parts, EvalFault>
        ensures { Computes result (got (values_in scope.now self.now.regs exprs.now) (λ vs. Ok (parts_of vs))) }
    {
        match exprs.as_slice() {
            [a] => Ok(Parts::one(part(scope, &self.registers, a)?)),
            [a, b] => Ok(Parts::two(
                part(scope, &self.registers, a)?,
                part(scope, &self.registers, b)?,
            )),
            [a, b, c] => Ok(Parts::three(
                scope.alloc,
                part(scope, &self.registers, a)?,
                part(scope, &self.registers, b)?,
                part(scope, &self.registers, c)?,
            )?),
            [a, b, c, d] => Ok(Parts::four(
                scope.alloc,
                part(scope, &self.registers, a)?,
                part(scope, &self.registers, b)?,
                part(scope, &self.registers, c)?,
                part(scope, &self.registers, d)?,
            )?),
            [a, b, c, d, e] => Ok(Parts::five(
                scope.alloc,
                part(scope, &self.registers, a)?,
                part(scope, &self.registers, b)?,
                part(scope, &self.registers, c)?,
                part(scope, &self.registers, d)?,
                part(scope, &self.registers, e)?,
            )?),
            // no key: all are evaluated, since one may trap, and the single 0 stands for the parts
            _ => {
                eval_all(scope, &self.registers, exprs)?;
                Ok(Parts::one(Part::Int(0)))
            }
        }
    }

    /// The row with the values of these expressions.
    pub fn row(&self, scope: &RunScope, exprs: &Exprs) -> Result<Row, EvalFault>
        ensures { Computes result (row_from scope.now.request.now scope.now.item.now self.now.regs exprs.now) }
    {
        let mut values = eval_all(scope, &self.registers, exprs)?.into_vec();
        values.truncate(MOST_COLUMNS);
        Ok(Row::from_vec(values))
    }

    /// Sets a register to the value of an expression.
    pub fn assign(&mut self, scope: &RunScope, register: u32, expr: &Expr) -> Result<(), EvalFault>
        ensures { (next : Next) → Goes result next self.new (step_in scope.now (step.Let register (term_of expr.now)) next self.old) }
    {
        let value = self.value(scope, expr)?;
        self.set(register, value);
        Ok(())
    }

    /// Sets a register, where there is one.
    #[inline(always)]
    fn set(&mut self, register: u32, value: Value)
        ensures { self.new ≡ set_to self.old (slice_set self.old.regs register value) }
    {
        if let Some(place) = self.registers.get_mut(register as usize) {
            *place = value;
        }
    }

    /// Puts the columns of a row into registers, as far as there are both.
    #[tactic(auto, using(crate::proofs::Registers::set_all_none, std::proofs::lemmas::Grind::common_steps))]
    pub fn set_row(&mut self, registers: &Regs, row: Row)
        ensures { self.new ≡ set_to self.old (set_all registers.now row self.old.regs) }
    {
        let mut values = row.into_vec().into_iter();
        for register in registers.as_slice() {
            let Some(value) = values.next() else {
                return;
            };
            self.set(*register, value);
        }
    }

    /// Puts copies of the columns of a row into registers, as far as there are both.
    #[tactic(auto, using(crate::proofs::Registers::set_all_none, std::proofs::lemmas::Grind::common_steps))]
    pub fn copy_row(&mut self, alloc: Global, registers: &Regs, row: &Row) -> Result<(), Memory>
        ensures { IfOk result (λ _. self.new ≡ set_to self.old (set_all registers.now row.now self.old.regs)) }
    {
        let mut values = row.as_slice().iter();
        for register in registers.as_slice() {
            let Some(value) = values.next() else {
                return Ok(());
            };
            let value = value.duplicate(alloc)?;
            self.set(*register, value);
        }
        Ok(())
    }

    /// Puts 1 into the flag of a row that was found.
    pub fn set_flag(&mut self, flag: u32)
        ensures { self.new ≡ set_to self.old (slice_set self.old.regs flag (value.Int (pos 1))) }
    {
        self.set(flag, Value::Int(1));
    }

    /// Registers to 0 or the empty text, by what they hold, and then 0 into the flag.
    pub fn set_missed(&mut self, alloc: Global, registers: &Regs, flag: u32) -> Result<(), Memory>
        ensures { IfOk result (λ _. self.new ≡ set_to self.old (slice_set (blank_all registers.now self.old.regs) flag (value.Int (pos 0)))) }
    {
        for register in registers.as_slice() {
            self.set_blank(alloc, *register)?;
        }
        self.set(flag, Value::Int(0));
        Ok(())
    }

    /// A register to 0 or the empty text, by what it holds.
    fn set_blank(&mut self, alloc: Global, register: u32) -> Result<(), Memory>
        ensures { IfOk result (λ _. self.new ≡ set_to self.old (blank_one register self.old.regs)) }
    {
        let kind = match self.registers.get(register as usize) {
            Some(value) => value.kind(),
            None => Kind::Int,
        };
        let blank = blank_of(alloc, kind)?;
        self.set(register, blank);
        Ok(())
    }

    /// Counts an access that is to be made; traps where it would be one too many.
    pub fn count(&mut self) -> Result<(), EvalFault>
        ensures { Counts result self.old self.new }
    {
        if MOST_ACCESSES <= self.made {
            return Err(EvalFault::Trap(Trap::Many));
        }
        self.made += 1;
        Ok(())
    }

    /// Adds the value of an expression to the reply; traps where it would be one too many.
    pub fn give(&mut self, scope: &RunScope, expr: &Expr) -> Result<(), EvalFault>
        ensures { (next : Next) → Goes result next self.new (step_in scope.now (step.Give (term_of expr.now)) next self.old) }
    {
        let value = self.value(scope, expr)?;
        if MOST_GIVEN <= self.given.len() {
            return Err(EvalFault::Trap(Trap::Many));
        }
        if self.given.capacity() == 0 {
            self.given.reserve(FIRST_GIVEN)?;
        }
        self.given.push(value)?;
        Ok(())
    }

    /// The values given.
    pub fn into_given(self) -> Gives
        ensures { result ≡ self.gives }
    {
        Gives::from_vec(self.given)
    }
}

/// 0 or the empty text.
fn blank_of(alloc: Global, kind: Kind) -> Result<Value, Memory>
    ensures { IfOk result (λ v. v ≡ blank kind) }
{
    match kind {
        Kind::Int => Ok(Value::Int(0)),
        Kind::Text => Ok(Value::Text(kept(alloc, &[])?)),
    }
}

/// For each kind 0 or the empty text.
fn blanks(alloc: Global, kinds: &Kinds) -> Result<Vec<Value>, Memory>
    ensures { IfOk result (λ values. values.items ≡ map blank kinds.now) }
{
    let mut values = Vec::with_capacity(alloc, kinds.as_slice().len())?;
    for kind in kinds.as_slice() {
        values.push(blank_of(alloc, *kind)?)?;
    }
    Ok(values)
}
