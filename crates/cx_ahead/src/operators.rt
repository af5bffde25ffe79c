//! Binary operators by their level.

ghost use Rattle.std.specs.Prelude.{◌≡◌, ◌&&◌};
ghost use Rattle.cx_syntax.specs.Sets as sets;
ghost use Rattle.cx_ahead.specs.Operators.{operator_in};

use cx_grammar::{Pick, Test};
use cx_syntax::{Class, Lexeme};
use cx_tree::BinaryOp;

// [expr.mul]
fn multiplying(class: Class) -> Option<BinaryOp>
    ensures { result ≡ operator_in sets.is_multiplying class }
{
    match class {
        Class::Star => Some(BinaryOp::Multiply),
        Class::Slash => Some(BinaryOp::Divide),
        Class::Percent => Some(BinaryOp::Remainder),
        _ => None,
    }
}

// [expr.add]
fn adding(class: Class) -> Option<BinaryOp>
    ensures { result ≡ operator_in sets.is_adding class }
{
    match class {
        Class::Plus => Some(BinaryOp::Add),
        Class::Minus => Some(BinaryOp::Subtract),
        _ => None,
    }
}

// [expr.shift]
fn shifting(class: Class) -> Option<BinaryOp>
    ensures { result ≡ operator_in sets.is_shifting class }
{
    match class {
        Class::ShiftLeft => Some(BinaryOp::ShiftLeft),
        Class::ShiftRight => Some(BinaryOp::ShiftRight),
        _ => None,
    }
}

// [expr.rel]
fn comparing(class: Class) -> Option<BinaryOp>
    ensures { result ≡ operator_in sets.is_comparing class }
{
    match class {
        Class::Less => Some(BinaryOp::Less),
        Class::Greater => Some(BinaryOp::Greater),
        Class::LessEqual => Some(BinaryOp::LessEqual),
        Class::GreaterEqual => Some(BinaryOp::GreaterEqual),
        _ => None,
    }
}

// [expr.eq]
fn equating(class: Class) -> Option<BinaryOp>
    ensures { result ≡ operator_in sets.is_equating class }
{
    match class {
        Class::EqualEqual => Some(BinaryOp::Equal),
        Class::NotEqual => Some(BinaryOp::NotEqual),
        _ => None,
    }
}

// [expr.bit.and]
fn bit_and(class: Class) -> Option<BinaryOp>
    ensures { result ≡ operator_in sets.is_bit_and class }
{
    match class {
        Class::Amp => Some(BinaryOp::BitAnd),
        _ => None,
    }
}

// [expr.xor]
fn bit_xor(class: Class) -> Option<BinaryOp>
    ensures { result ≡ operator_in sets.is_bit_xor class }
{
    match class {
        Class::Caret => Some(BinaryOp::BitXor),
        _ => None,
    }
}

// [expr.or]
fn bit_or(class: Class) -> Option<BinaryOp>
    ensures { result ≡ operator_in sets.is_bit_or class }
{
    match class {
        Class::Pipe => Some(BinaryOp::BitOr),
        _ => None,
    }
}

// [expr.log.and]
fn logical_and(class: Class) -> Option<BinaryOp>
    ensures { result ≡ operator_in sets.is_logical_and class }
{
    match class {
        Class::AmpAmp => Some(BinaryOp::LogicalAnd),
        _ => None,
    }
}

// [expr.log.or]
fn logical_or(class: Class) -> Option<BinaryOp>
    ensures { result ≡ operator_in sets.is_logical_or class }
{
    match class {
        Class::PipePipe => Some(BinaryOp::LogicalOr),
        _ => None,
    }
}

/// The operator that a class is on a level, tightest first.
pub fn operator_at(level: usize, class: Class) -> Option<BinaryOp>
    ensures { result ≡ operator_in (sets.operators level) class }
{
    match level {
        0 => multiplying(class),
        1 => adding(class),
        2 => shifting(class),
        3 => comparing(class),
        4 => equating(class),
        5 => bit_and(class),
        6 => bit_xor(class),
        7 => bit_or(class),
        8 => logical_and(class),
        9 => logical_or(class),
        _ => None,
    }
}

fn follows_no_new(class: Class) -> bool
    ensures { result ≡ sets.is_after_new class }
{
    matches!(class, Class::Star | Class::Amp | Class::AmpAmp)
}

/// A binary operator of a level that may follow an operand, given whether this ends in the type of a `new` ([expr.new]).
#[derive(Clone, Copy)]
pub struct Allowed {
    pub level: usize,
    pub open_new: bool,
}

impl Allowed {
    fn blocks(&self, class: Class) -> bool
        ensures { result ≡ self.now.open_new && sets.is_after_new class }
    {
        self.open_new && follows_no_new(class)
    }

    #[tactic(auto, using(crate::proofs::Following::kept, crate::proofs::Following::blocked))]
    fn operator(&self, class: Class) -> Option<BinaryOp>
        ensures { result ≡ operator_in (sets.allowed self.now.level self.now.open_new) class }
    {
        if self.blocks(class) {
            return None;
        }
        operator_at(self.level, class)
    }
}

impl Test<Lexeme> for Allowed {
    ghost use Rattle.cx_syntax.specs.Classes.{class_at};
    ghost use Rattle.cx_syntax.specs.Sets.{allowed};

    ghost holds = { λ s t. allowed s.level s.open_new (class_at t) };

    #[tactic(auto, using(crate::proofs::Following::found, crate::proofs::Following::missing))]
    fn test(&self, token: &Lexeme) -> bool {
        match self.operator(token.class) {
            Some(_) => true,
            None => false,
        }
    }
}

impl Pick<Lexeme> for Allowed {
    type Value = BinaryOp;

    ghost use Rattle.cx_syntax.specs.Sets.{allowed};
    ghost use Rattle.cx_syntax.specs.Values.{pick, binary_of};

    ghost picks = { λ s t. pick (allowed s.level s.open_new) binary_of t };

    fn pick(&self, token: &Lexeme) -> Option<BinaryOp> {
        self.operator(token.class)
    }
}
