// Operations on the numbers of values.
ghost use Rattle.std.specs.Prelude.{◌≡◌, ◌≢◌, ◌&&◌, ◌||◌, int_lt, int_le, ◌*ℤ◌, ◌+ℤ◌, ◌-ℤ◌, ◌≤◌, ◌^◌, pos, unsigned_abs, neg_ℤ};
ghost use Rattle.proc_lang.specs.Values.{int_of, is_true, truth, number, quotient, divided, remainder};
ghost use Rattle.proc_exec.specs.Faults.{Computes};

use crate::early_ends::EvalFault;
use aria_base::Value;
use proc_lang::Trap;

/// The number of a value, 0 of a text.
pub fn int(value: &Value) -> i64
    ensures { result ≡ int_of value.now }
{
    match value {
        Value::Int(number) => *number,
        Value::Text(_) => 0,
    }
}

/// Both numbers of a pair.
fn ints(pair: &(Value, Value)) -> (i64, i64)
    ensures { result ≡ (int_of pair.now.0, int_of pair.now.1) }
{
    (int(&pair.0), int(&pair.1))
}

/// 1 or 0.
pub fn truth_value(holds: bool) -> Value
    ensures { result ≡ truth holds }
{
    Value::Int(if holds { 1 } else { 0 })
}

/// Whether the number is not 0.
pub fn holds(value: &Value) -> bool
    ensures { result ≡ is_true value.now }
{
    int(value) != 0
}

/// Whether the first number is less.
pub fn less(pair: &(Value, Value)) -> bool
    ensures { result ≡ int_lt (int_of pair.now.0) (int_of pair.now.1) }
{
    int(&pair.0) < int(&pair.1)
}

/// Whether the first number is at most the second.
pub fn at_most(pair: &(Value, Value)) -> bool
    ensures { result ≡ int_le (int_of pair.now.0) (int_of pair.now.1) }
{
    int(&pair.0) <= int(&pair.1)
}

/// Whether both numbers are not 0.
pub fn all_hold(pair: &(Value, Value)) -> bool
    ensures { result ≡ (is_true pair.now.0 && is_true pair.now.1) }
{
    holds(&pair.0) && holds(&pair.1)
}

/// Whether one of the numbers is not 0.
pub fn one_holds(pair: &(Value, Value)) -> bool
    ensures { result ≡ (is_true pair.now.0 || is_true pair.now.1) }
{
    holds(&pair.0) || holds(&pair.1)
}

/// The number as a value, where it is within the 64-bit numbers.
fn whole(exact: i128) -> Result<Value, EvalFault>
    ensures { Computes result (number exact) }
{
    match i64::try_from(exact) {
        Ok(small) => Ok(Value::Int(small)),
        Err(_) => Err(EvalFault::Trap(Trap::Overflow)),
    }
}

/// The sum of both numbers, or the trap `Overflow`.
pub fn sum(pair: &(Value, Value)) -> Result<Value, EvalFault>
    ensures { Computes result (number (int_of pair.now.0 +ℤ int_of pair.now.1)) }
{
    let (x, y) = ints(pair);
    whole(i128::from(x) + i128::from(y))
}

/// The first number less the second, or the trap `Overflow`.
pub fn difference(pair: &(Value, Value)) -> Result<Value, EvalFault>
    ensures { Computes result (number (int_of pair.now.0 -ℤ int_of pair.now.1)) }
{
    let (x, y) = ints(pair);
    whole(i128::from(x) - i128::from(y))
}

/// The product of both numbers, or the trap `Overflow`.
pub fn product(pair: &(Value, Value)) -> Result<Value, EvalFault>
    ensures { Computes result (number (int_of pair.now.0 *ℤ int_of pair.now.1)) }
{
    whole(exact_product(pair))
}

/// The exact product.
fn exact_product(pair: &(Value, Value)) -> i128
    ensures product { result ≡ int_of pair.now.0 *ℤ int_of pair.now.1 }
    ensures small { unsigned_abs result ≤ 2 ^ 126 }
{
    let (x, y) = ints(pair);
    i128::from(x) * i128::from(y)
}

/// The quotient rounded down, of a divisor that is not 0.
fn rounded_down(x: i128, y: i64) -> i128
    requires nonzero { y ≢ pos 0 }
    requires small { unsigned_abs x ≤ 2 ^ 126 }
    ensures quotient { result ≡ quotient x y }
{
    if 0 < y {
        x.div_euclid(i128::from(y))
    } else {
        (-x).div_euclid(-i128::from(y))
    }
}

/// The quotient rounded down, as a value.
fn divide(x: i128, y: i64) -> Result<Value, EvalFault>
    requires { unsigned_abs x ≤ 2 ^ 126 }
    ensures { Computes result (divided x y) }
{
    if y == 0 {
        return Err(EvalFault::Trap(Trap::Zero));
    }
    whole(rounded_down(x, y))
}

/// The first number divided by the second, rounded down, or the trap `Zero` or `Overflow`.
pub fn divided_by(pair: &(Value, Value)) -> Result<Value, EvalFault>
    ensures { Computes result (divided (int_of pair.now.0) (int_of pair.now.1)) }
{
    let (x, y) = ints(pair);
    divide(i128::from(x), y)
}

/// The product of both numbers divided by the divisor, rounded down, or the trap `Zero` or `Overflow`. The
/// product itself may be outside the 64-bit numbers.
pub fn product_divided_by(pair: &(Value, Value), divisor: &Value) -> Result<Value, EvalFault>
    ensures { Computes result (divided (int_of pair.now.0 *ℤ int_of pair.now.1) (int_of divisor.now)) }
{
    divide(exact_product(pair), int(divisor))
}

/// What the division rounded down leaves of the first number, or the trap `Zero`.
pub fn remainder_by(pair: &(Value, Value)) -> Result<Value, EvalFault>
    ensures { Computes result (remainder (int_of pair.now.0) (int_of pair.now.1)) }
{
    let (x, y) = ints(pair);
    if y == 0 {
        return Err(EvalFault::Trap(Trap::Zero));
    }
    Ok(Value::Int(rest(x, y)))
}

/// The negative number, which may have one bit more.
fn negated(x: i64) -> i128
    ensures { result ≡ neg_ℤ x }
{
    -i128::from(x)
}

/// What the quotient rounded down leaves. It has the divisor's sign.
#[tactic(auto, using(crate::proofs::Remainders::left_by_negative))]
fn rest(x: i64, y: i64) -> i64
    requires { y ≢ pos 0 }
    ensures { result ≡ x -ℤ y *ℤ quotient x y }
{
    if 0 < y {
        return x.rem_euclid(y);
    }
    let left = negated(x).rem_euclid(negated(y));
    (-left) as i64
}
