//! What operators do with their operands ([expr.unary.op], [expr.mul] to [expr.log.or], [expr.cond]).

ghost use Rattle.std.specs.Prelude.{◌≡◌};
ghost use Rattle.cx_exprs.specs.Operators.{arithmetic, between, comparison, is_built, logical, planned, planned_prefix, shift};

use crate::nodes::is_same_type;
use cx_base::IntType;
use cx_ints::{BinOp, UnOp, common, promote};
use cx_tree::{BinaryOp, PrefixOp};
use cx_typed::{ChainOp, StrictOp};

/// The types to which both operands are converted, that of the result, and the operation.
#[derive(Clone, Copy)]
pub struct Plan {
    pub left: IntType,
    pub right: IntType,
    pub result: IntType,
    pub op: ChainOp,
}

/// The type to which the operand is converted, which is that of the result, and the operation.
#[derive(Clone, Copy)]
pub struct UnaryPlan {
    pub operand: IntType,
    pub op: StrictOp,
}

fn arithmetic(op: BinOp, left: IntType, right: IntType) -> Plan
    ensures { result ≡ arithmetic op left right }
{
    let ty = common(left, right);
    Plan {
        left: ty,
        right: ty,
        result: ty,
        op: ChainOp::Strict(StrictOp::Binary(op)),
    }
}

fn comparison(op: BinOp, left: IntType, right: IntType) -> Plan
    ensures { result ≡ comparison op left right }
{
    let ty = common(left, right);
    Plan {
        left: ty,
        right: ty,
        result: IntType::Bool,
        op: ChainOp::Strict(StrictOp::Binary(op)),
    }
}

fn shift(op: BinOp, left: IntType, right: IntType) -> Plan
    ensures { result ≡ shift op left right }
{
    let ty = promote(left);
    Plan {
        left: ty,
        right: promote(right),
        result: ty,
        op: ChainOp::Strict(StrictOp::Binary(op)),
    }
}

fn logical(op: ChainOp) -> Plan
    ensures { result ≡ logical op }
{
    Plan {
        left: IntType::Bool,
        right: IntType::Bool,
        result: IntType::Bool,
        op,
    }
}

/// What an operator does with operands of these types.
pub fn planned(operator: BinaryOp, left: IntType, right: IntType) -> Plan
    ensures { result ≡ planned operator left right }
{
    match operator {
        BinaryOp::LogicalOr => logical(ChainOp::Or),
        BinaryOp::LogicalAnd => logical(ChainOp::And),
        BinaryOp::BitOr => arithmetic(BinOp::Or, left, right),
        BinaryOp::BitXor => arithmetic(BinOp::Xor, left, right),
        BinaryOp::BitAnd => arithmetic(BinOp::And, left, right),
        BinaryOp::Equal => comparison(BinOp::Eq, left, right),
        BinaryOp::NotEqual => comparison(BinOp::Ne, left, right),
        BinaryOp::Less => comparison(BinOp::Lt, left, right),
        BinaryOp::Greater => comparison(BinOp::Gt, left, right),
        BinaryOp::LessEqual => comparison(BinOp::Le, left, right),
        BinaryOp::GreaterEqual => comparison(BinOp::Ge, left, right),
        BinaryOp::ShiftLeft => shift(BinOp::Shl, left, right),
        BinaryOp::ShiftRight => shift(BinOp::Shr, left, right),
        BinaryOp::Add => arithmetic(BinOp::Add, left, right),
        BinaryOp::Subtract => arithmetic(BinOp::Sub, left, right),
        BinaryOp::Multiply => arithmetic(BinOp::Mul, left, right),
        BinaryOp::Divide => arithmetic(BinOp::Div, left, right),
        BinaryOp::Remainder => arithmetic(BinOp::Rem, left, right),
    }
}

/// What an operator before its operand does with one of this type.
pub fn planned_prefix(operator: PrefixOp, operand: IntType) -> UnaryPlan
    ensures { result ≡ planned_prefix operator operand }
{
    let op = match operator {
        PrefixOp::Plus => UnOp::Plus,
        PrefixOp::Minus => UnOp::Minus,
        PrefixOp::Complement => UnOp::Complement,
        _ => {
            return UnaryPlan {
                operand: IntType::Bool,
                op: StrictOp::Not,
            };
        }
    };
    UnaryPlan {
        operand: promote(operand),
        op: StrictOp::Unary(op),
    }
}

/// Whether an operator before its operand is built.
pub fn is_built(operator: PrefixOp) -> bool
    ensures { result ≡ is_built operator }
{
    match operator {
        PrefixOp::Plus | PrefixOp::Minus | PrefixOp::Complement | PrefixOp::Not => true,
        _ => false,
    }
}

/// The type of a conditional expression that is a value ([expr.cond]).
pub fn between(left: IntType, right: IntType) -> IntType
    ensures { result ≡ between left right }
{
    if is_same_type(left, right) {
        left
    } else {
        common(left, right)
    }
}
