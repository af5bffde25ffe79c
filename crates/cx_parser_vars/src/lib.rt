//! Parses attributes, the declarations without statements, variables and parameters ([dcl.attr], [dcl.pre], [dcl.typedef],
//! [dcl.enum], [dcl.decl], [dcl.init], [dcl.fct]).
#![tactic(auto)]

mod attributes;
mod below;
mod declarations;
mod enums;
mod inits;
mod locals;
mod parameters;
mod sets;
mod specifiers;
mod typedefs;
mod variables;
mod words;

pub use attributes::{attribute, attrs, counted, noex};
pub use below::room;
pub use declarations::{alias, static_assert};
pub use enums::enumeration;
pub use inits::init;
pub use locals::{bare_local, declared, local};
pub use parameters::{param, params};
pub use sets::{AccessIn, AnyAccess, AnyVirtual, StartsTail, TailIn, VirtualIn};
pub use specifiers::{Follows, TypeNext, specs_before};
pub use typedefs::typedef;
pub use variables::{var, vars};
pub use words::{access, tail, virt};
