// What operators make of values.
ghost use Rattle.std.specs.Prelude.{◌≡◌, IfOk};
ghost use Rattle.proc_lang.specs.Meaning.{by_unary, by_binary};
ghost use Rattle.proc_exec.specs.Faults.{Computes};

use crate::arithmetic::{
    all_hold, at_most, difference, divided_by, holds, int, less, one_holds, product, remainder_by,
    sum, truth_value,
};
use crate::early_ends::EvalFault;
use crate::texts::{join, same, show};
use aria_base::{Memory, Value};
use proc_lang::{BinaryOp, UnaryOp};
use std::alloc::Global;

/// The operator of one operand.
pub fn by_unary(alloc: Global, operator: UnaryOp, operand: &Value) -> Result<Value, Memory>
    ensures { IfOk result (λ made. made ≡ by_unary operator operand.now) }
{
    match operator {
        UnaryOp::Not => Ok(truth_value(!holds(operand))),
        UnaryOp::Show => Ok(Value::Text(show(alloc, int(operand))?)),
    }
}

/// The operator of two operands.
pub fn by_binary(
    alloc: Global,
    operator: BinaryOp,
    operands: &(Value, Value),
) -> Result<Value, EvalFault>
    ensures { Computes result (by_binary operator operands.now) }
{
    match operator {
        BinaryOp::Add => sum(operands),
        BinaryOp::Sub => difference(operands),
        BinaryOp::Mul => product(operands),
        BinaryOp::Div => divided_by(operands),
        BinaryOp::Mod => remainder_by(operands),
        BinaryOp::Eq => Ok(truth_value(same(operands))),
        BinaryOp::Ne => Ok(truth_value(!same(operands))),
        BinaryOp::Lt => Ok(truth_value(less(operands))),
        BinaryOp::Le => Ok(truth_value(at_most(operands))),
        BinaryOp::And => Ok(truth_value(all_hold(operands))),
        BinaryOp::Or => Ok(truth_value(one_holds(operands))),
        BinaryOp::Cat => join(alloc, operands),
    }
}
