//! A value of an integer type.
use cx_base::IntType;

/// A whole number with its integer type.
///
/// The number is meant to be in the type's range, and every operation's result is. No call asks it of its operands:
/// each converts them first, and a conversion is defined on every whole number.
#[derive(Clone, Copy, Debug, PartialEq, Eq)]
pub struct Int {
    pub ty: IntType,
    pub value: i128,
}

/// Two operands, converted to their common type.
#[derive(Clone, Copy)]
pub(crate) struct Pair {
    pub(crate) ty: IntType,
    pub(crate) left: i128,
    pub(crate) right: i128,
}
