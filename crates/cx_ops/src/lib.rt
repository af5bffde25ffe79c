//! The strict operations: all operands of one are evaluated before it, and it gives a value of them or breaks a rule
//! ([expr], [conv]).
#![tactic(auto)]

ghost use Rattle.std.specs.Prelude.{◌≡◌, [], ◌∷◌, Some};
ghost use Rattle.cx_ops.specs.Strict.{answered, given, negated};

use cx_base::{IntType, Rule};
use cx_ints::{BinOp, Int, UnOp, binary, convert, unary};

/// A strict operation.
#[derive(Clone, Copy, Debug, PartialEq, Eq)]
pub enum StrictOp {
    /// To an integer type ([conv.prom], [conv.integral], [conv.bool]).
    Convert(IntType),
    /// `!` ([expr.unary.op]).
    Not,
    /// [expr.unary.op]
    Unary(UnOp),
    /// [expr.mul], [expr.add], [expr.shift], [expr.rel], [expr.eq], [expr.bit.and], [expr.xor], [expr.or]
    Binary(BinOp),
}

/// Why an operation gives no value.
#[derive(Clone, Copy, Debug, PartialEq, Eq)]
pub enum OpAnswer {
    /// The rule that it breaks.
    Rule(Rule),
    /// It doesn't take such operands.
    Wrong,
}

fn negated(a: Int) -> Int
    ensures { result ≡ negated a }
{
    Int {
        ty: IntType::Bool,
        value: if a.value == 0 { 1 } else { 0 },
    }
}

fn told(found: Result<Int, Rule>) -> Result<Int, OpAnswer>
    ensures { answered result ≡ Some found }
{
    match found {
        Ok(value) => Ok(value),
        Err(rule) => Err(OpAnswer::Rule(rule)),
    }
}

/// What an operation gives of one number.
pub fn of_one(op: StrictOp, a: Int) -> Result<Int, OpAnswer>
    ensures { answered result ≡ given op (a ∷ []) }
{
    match op {
        StrictOp::Convert(ty) => Ok(convert(a, ty)),
        StrictOp::Not => Ok(negated(a)),
        StrictOp::Unary(op) => told(unary(op, a)),
        StrictOp::Binary(_) => Err(OpAnswer::Wrong),
    }
}

/// What an operation gives of two numbers.
pub fn of_two(op: StrictOp, a: Int, b: Int) -> Result<Int, OpAnswer>
    ensures { answered result ≡ given op (a ∷ b ∷ []) }
{
    match op {
        StrictOp::Binary(op) => told(binary(op, a, b)),
        StrictOp::Convert(_) | StrictOp::Not | StrictOp::Unary(_) => Err(OpAnswer::Wrong),
    }
}
