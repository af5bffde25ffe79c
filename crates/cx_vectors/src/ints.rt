//! Cases of the operations on integers.
ghost use Rattle.std.specs.Prelude.{◌≡◌, ◌↔◌, IsTrue};
ghost use Rattle.cx_ints.specs.Operations.{operation};

use cx_base::Rule;
use cx_ints::{BinOp, Int, binary};

/// An operation on two operands, and its answer: a value with its type, or the rule that is violated.
#[derive(Clone, Copy, Debug, PartialEq, Eq)]
pub struct IntCase {
    pub op: BinOp,
    pub a: Int,
    pub b: Int,
    pub answer: Result<Int, Rule>,
}

/// A table of cases.
#[derive(Clone, Copy, Debug)]
pub struct IntCases<const N: usize> {
    pub rows: [IntCase; N],
}

/// Whether the operation gives exactly the case's answer ([expr]).
pub fn int_case(case: &IntCase) -> bool
    ensures { IsTrue result ↔ (operation case.now.op case.now.a case.now.b ≡ case.now.answer) }
{
    is_same_answer(binary(case.op, case.a, case.b), case.answer)
}

fn is_same_answer(answer: Result<Int, Rule>, wanted: Result<Int, Rule>) -> bool
    ensures { IsTrue result ↔ (answer ≡ wanted) }
{
    match (answer, wanted) {
        (Ok(value), Ok(wanted)) => is_same_int(value, wanted),
        (Err(rule), Err(wanted)) => is_same_rule(rule, wanted),
        _ => false,
    }
}

fn is_same_int(value: Int, wanted: Int) -> bool
    ensures { IsTrue result ↔ (value ≡ wanted) }
{
    value == wanted
}

fn is_same_rule(rule: Rule, wanted: Rule) -> bool
    ensures { IsTrue result ↔ (rule ≡ wanted) }
{
    rule == wanted
}
