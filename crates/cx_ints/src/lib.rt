//! The integer operations of the target, over whole numbers: ranges, conversions, promotions, the common type,
//! the types of literals, and the operations with the rules that they violate ([expr], [conv]).
#![tactic(auto)]

mod arithmetic;
mod bits;
mod comparisons;
mod conversions;
mod int;
mod literal;
mod literals;
mod operations;
mod operators;
mod ranges;
mod shifts;

pub use conversions::{common, convert, promote};
pub use cx_base::IntType;
pub use int::Int;
pub use literal::Literal;
pub use literals::{Suffix, literal_type};
pub use operations::{binary, unary};
pub use operators::{BinOp, UnOp};
pub use ranges::fits;
