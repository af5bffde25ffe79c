//! Operations on one number and on two.

use cx_base::IntType;
use cx_ints::{BinOp, Int, UnOp};
use cx_ops::{StrictOp, of_one, of_two};
use std::io::{self, Write};

const fn int(value: i128) -> Int {
    Int {
        ty: IntType::Int,
        value,
    }
}

const ONE: [(StrictOp, i128); 6] = [
    (StrictOp::Convert(IntType::UChar), 300),
    (StrictOp::Convert(IntType::Bool), 300),
    (StrictOp::Not, 300),
    (StrictOp::Unary(UnOp::Complement), 0),
    (StrictOp::Unary(UnOp::Minus), -2_147_483_648),
    (StrictOp::Binary(BinOp::Add), 1),
];

const TWO: [(StrictOp, i128, i128); 5] = [
    (StrictOp::Binary(BinOp::Sub), 2, 5),
    (StrictOp::Binary(BinOp::Lt), 2, 5),
    (StrictOp::Binary(BinOp::Mul), 65_536, 65_536),
    (StrictOp::Binary(BinOp::Div), 1, 0),
    (StrictOp::Not, 1, 0),
];

/// Tells what the operations give of ints.
pub fn tell<W: Write>(out: &mut W) -> io::Result<()> {
    for (op, a) in ONE {
        let found = of_one(op, int(a));
        writeln!(out, "{op:?} of {a}: {found:?}")?;
    }
    for (op, a, b) in TWO {
        let found = of_two(op, int(a), int(b));
        writeln!(out, "{op:?} of {a} and {b}: {found:?}")?;
    }
    Ok(())
}
