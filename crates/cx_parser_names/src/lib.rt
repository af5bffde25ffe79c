//! Parses names, specifiers and pointers ([expr.prim.id], [dcl.spec], [dcl.ptr]): the parts of expressions and declarations that nest nothing.
#![tactic(auto)]

mod names;
mod repeats;
mod specifiers;

pub use names::{
    destructor_name, fname, fname_parts, ident, is_there, maybe_one, piece, qtype, scopes,
};
pub use repeats::{Piece, Taken, or_none, read_more};
pub use specifiers::{modifiers, ptrs, specs, stars, typed};
