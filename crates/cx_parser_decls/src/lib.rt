//! Parses functions and variables, classes with their bases and members, namespaces, declarations and units ([dcl.fct], [class],
//! [namespace.def], [dcl.pre], [basic.link]). No rule is inlined into another, so that frames stay small: 512 levels, which may
//! nest, take little of the stack.
#![tactic(auto)]

mod ahead;
mod bases;
mod classes;
mod decls;
mod entities;
mod functions;
mod inits;
mod kinds;
mod member_functions;
mod members;
mod sets;
mod units;

pub use ahead::class_ahead;
pub use bases::maybe_bases;
pub use entities::entity;
pub use member_functions::member_function;
pub use members::{class, member};
pub use sets::{Final, Key, KeyIn, StartsDecl, StartsMember};
pub use units::{LEVELS, decl, parse, within};
