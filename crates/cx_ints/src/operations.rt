//! The operations on integers, which convert their operands first.
ghost use Rattle.std.specs.Prelude.{◌≡◌, IfOk};
ghost use Rattle.cx_ints.specs.Conversions.{promote};
ghost use Rattle.cx_ints.specs.Operations.{IsOf, operation, result_type, unary_operation};

use crate::arithmetic::{add, divide, multiply, negate, remainder, subtract};
use crate::bits::{bit_and, bit_or, bit_xor, complement};
use crate::comparisons::{is_at_most, is_equal, is_less, truth};
use crate::conversions::{balanced, promoted};
use crate::int::Int;
use crate::operators::{BinOp, UnOp};
use crate::shifts::{shift_left, shift_right};
use cx_base::Rule;

/// The result of the operation, or the rule that it violates: `Overflow`, `DivideByZero`, `Quotient` or `ShiftCount`
/// ([expr.pre], [expr.mul], [expr.shift]). The operands may be any whole numbers: each is converted first.
pub fn binary(op: BinOp, a: Int, b: Int) -> Result<Int, Rule>
    ensures value { result ≡ operation op a b }
    ensures of_type { IfOk result (λ r. IsOf (result_type op a.ty b.ty) r) }
{
    operate(op, a, b)
}

#[tactic(auto, unfolding(crate::specs::Operations::operation))]
fn operate(op: BinOp, a: Int, b: Int) -> Result<Int, Rule>
    ensures { result ≡ operation op a b }
{
    let pair = balanced(a, b);
    match op {
        BinOp::Add => add(pair),
        BinOp::Sub => subtract(pair),
        BinOp::Mul => multiply(pair),
        BinOp::Div => divide(pair),
        BinOp::Rem => remainder(pair),
        BinOp::Shl => shift_left(promoted(a), promoted(b).value),
        BinOp::Shr => shift_right(promoted(a), promoted(b).value),
        BinOp::And => Ok(bit_and(pair)),
        BinOp::Or => Ok(bit_or(pair)),
        BinOp::Xor => Ok(bit_xor(pair)),
        BinOp::Eq => Ok(truth(is_equal(pair.left, pair.right))),
        BinOp::Ne => Ok(truth(!is_equal(pair.left, pair.right))),
        BinOp::Lt => Ok(truth(is_less(pair.left, pair.right))),
        BinOp::Le => Ok(truth(is_at_most(pair.left, pair.right))),
        BinOp::Gt => Ok(truth(is_less(pair.right, pair.left))),
        BinOp::Ge => Ok(truth(is_at_most(pair.right, pair.left))),
    }
}

/// The result of the operation at the promoted type ([expr.unary.op]); `Overflow` where `-` leaves a signed type.
/// The operand may be any whole number: it is converted first.
pub fn unary(op: UnOp, a: Int) -> Result<Int, Rule>
    ensures value { result ≡ unary_operation op a }
    ensures of_type { IfOk result (λ r. IsOf (promote a.ty) r) }
{
    operate_on(op, a)
}

#[tactic(auto, unfolding(crate::specs::Operations::unary_operation))]
fn operate_on(op: UnOp, a: Int) -> Result<Int, Rule>
    ensures { result ≡ unary_operation op a }
{
    let operand = promoted(a);
    match op {
        UnOp::Plus => Ok(operand),
        UnOp::Minus => negate(operand),
        UnOp::Complement => Ok(complement(operand)),
    }
}
