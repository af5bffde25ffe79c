//! The values of integer literals.

ghost use Rattle.std.specs.Prelude.{◌≡◌, pos};

use crate::Int;
use cx_base::IntType;
use std::marker::Model;

/// The value of an integer literal ([lex.icon]), which is never negative and has 64 bits at most. Contracts see it as an `Int`.
#[derive(Clone, Copy, Debug, PartialEq, Eq)]
pub struct Literal {
    ty: IntType,
    value: u64,
}

impl Model for Literal {
    ghost use Rattle.cx_ints.specs.declared.int.Int.{Int};
    ghost use Rattle.std.specs.Prelude.{pos};
    ghost use Rattle.std.proofs.Math.IntN.{nat_abs};

    ghost Value = { Int };

    ghost view = { λ l. record { ty = l.ty; value = pos l.value } };

    ghost inverse = { λ i. record { ty = i.ty; value = nat_abs i.value } };
}

impl Literal {
    /// A literal of this type and value.
    pub fn new(ty: IntType, value: u64) -> Literal
        ensures { result ≡ record { ty = ty; value = pos value } }
    {
        Literal { ty, value }
    }

    /// The value with its type.
    pub fn int(self) -> Int
        ensures { result ≡ self }
    {
        Int {
            ty: self.ty,
            value: i128::from(self.value),
        }
    }
}
