//! Steps on what operands gave.

ghost use Rattle.std.specs.Prelude.{◌≡◌};
ghost use Rattle.cx_ops.specs.Strict.{answered};
ghost use Rattle.cx_thin_judge.specs.Evaluating as spec;

use cx_base::{Rule, Span};
use cx_ints::{Int, convert};
use cx_ops::{OpAnswer, StrictOp, of_one, of_two};
use cx_typed::{ChainOp, Conversion};
use cx_types::VarId;

/// What an expression gives: a number, or the object of a variable.
#[derive(Clone, Copy, Debug)]
pub enum Seen {
    Number(Int),
    Place(VarId),
}

/// Why an expression gives nothing: the rule that is broken and where, or it isn't well typed.
#[derive(Clone, Copy, Debug)]
pub enum Stop {
    Broken(Rule, Span),
    Stuck,
}

/// What comes of the left operand of an operation.
#[derive(Clone, Copy, Debug)]
pub enum Opening {
    /// The whole gives this; the right operand isn't evaluated.
    Whole(Seen),
    /// The right operand is evaluated next.
    Right(Seen),
    Stuck,
}

/// A rule that is broken, and where.
#[derive(Clone, Copy, Debug)]
pub struct Broken {
    pub rule: Rule,
    pub span: Span,
}

/// What a full-expression gives by what evaluating it gave: a number, where it is well typed.
pub fn number(found: Result<Seen, Stop>, at: Span) -> Result<Int, Broken>
    ensures { result ≡ spec.number_of found at }
{
    match found {
        Ok(Seen::Number(value)) => Ok(value),
        Err(Stop::Broken(rule, span)) => Err(Broken { rule, span }),
        Ok(Seen::Place(_)) | Err(Stop::Stuck) => Err(Broken {
            rule: Rule::LeftOutForm,
            span: at,
        }),
    }
}

fn told(found: Result<Int, OpAnswer>, at: Span) -> Result<Seen, Stop>
    ensures { result ≡ spec.seen_of (answered found) at }
{
    match found {
        Ok(value) => Ok(Seen::Number(value)),
        Err(OpAnswer::Rule(rule)) => Err(Stop::Broken(rule, at)),
        Err(OpAnswer::Wrong) => Err(Stop::Stuck),
    }
}

/// What a strict operation gives of one operand.
pub fn operated(op: StrictOp, operand: Seen, at: Span) -> Result<Seen, Stop>
    ensures { result ≡ spec.operated op operand at }
{
    match operand {
        Seen::Number(a) => told(of_one(op, a), at),
        Seen::Place(_) => Err(Stop::Stuck),
    }
}

/// What a condition is; None where it is no number.
pub fn truth(condition: Seen) -> Option<bool>
    ensures { result ≡ spec.truth_of condition }
{
    match condition {
        Seen::Number(a) => Some(a.value != 0),
        Seen::Place(_) => None,
    }
}

fn converted(left: Seen, to: Option<Conversion>) -> Option<Seen>
    ensures { result ≡ spec.converted left to }
{
    let Some(conversion) = to else {
        return Some(left);
    };
    match left {
        Seen::Number(a) => Some(Seen::Number(convert(a, conversion.to))),
        Seen::Place(_) => None,
    }
}

fn shortened(left: Seen, ends: bool) -> Opening
    ensures { result ≡ spec.shortened left ends (spec.truth_of left) }
{
    match truth(left) {
        None => Opening::Stuck,
        Some(value) => {
            if value == ends {
                Opening::Whole(left)
            } else {
                Opening::Right(left)
            }
        }
    }
}

/// What comes of the left operand of an operation, which may be converted first.
pub fn opened(left: Seen, to: Option<Conversion>, op: ChainOp) -> Opening
    ensures { result ≡ spec.opened (spec.converted left to) op }
{
    let Some(left) = converted(left, to) else {
        return Opening::Stuck;
    };
    match op {
        ChainOp::Strict(_) | ChainOp::Comma => Opening::Right(left),
        ChainOp::And => shortened(left, false),
        ChainOp::Or => shortened(left, true),
    }
}

fn joined(op: StrictOp, left: Seen, right: Seen, at: Span) -> Result<Seen, Stop>
    ensures { result ≡ spec.joined op left right at }
{
    match left {
        Seen::Place(_) => Err(Stop::Stuck),
        Seen::Number(a) => match right {
            Seen::Place(_) => Err(Stop::Stuck),
            Seen::Number(b) => told(of_two(op, a, b), at),
        },
    }
}

/// What an operation gives of both operands.
pub fn closed(op: ChainOp, left: Seen, right: Seen, at: Span) -> Result<Seen, Stop>
    ensures { result ≡ spec.closed op left right at }
{
    match op {
        ChainOp::Strict(op) => joined(op, left, right, at),
        ChainOp::And | ChainOp::Or | ChainOp::Comma => Ok(right),
    }
}
