//! Operators.

/// An operator of the ten levels of binary operators, loosest first ([expr.log.or] to [expr.mul]).
#[derive(Clone, Copy, Debug, PartialEq, Eq)]
pub enum BinaryOp {
    LogicalOr,
    LogicalAnd,
    BitOr,
    BitXor,
    BitAnd,
    Equal,
    NotEqual,
    Less,
    Greater,
    LessEqual,
    GreaterEqual,
    ShiftLeft,
    ShiftRight,
    Add,
    Subtract,
    Multiply,
    Divide,
    Remainder,
}

/// An assignment operator ([expr.ass]).
#[derive(Clone, Copy, Debug, PartialEq, Eq)]
pub enum AssignOp {
    Plain,
    Add,
    Subtract,
    Multiply,
    Divide,
    Remainder,
    ShiftLeft,
    ShiftRight,
    BitAnd,
    BitXor,
    BitOr,
}

/// An operator before its operand ([expr.unary.op], [expr.pre.incr]).
#[derive(Clone, Copy, Debug, PartialEq, Eq)]
pub enum PrefixOp {
    Increment,
    Decrement,
    Indirection,
    Address,
    Plus,
    Minus,
    Not,
    Complement,
}

/// An operator that a function's name stands for ([over.oper]).
#[derive(Clone, Copy, Debug, PartialEq, Eq)]
pub enum Overloaded {
    /// `()`
    Call,
    /// `[]`
    Subscript,
    /// `->`
    Arrow,
    Complement,
    Not,
    Increment,
    Decrement,
    Binary(BinaryOp),
    Assign(AssignOp),
}
