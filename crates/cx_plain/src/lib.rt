//! Syntax trees as plain data for definitions, and where expressions and their operations stand ([expr], [dcl.init], [dcl.dcl]).
#![tactic(auto)]

mod spans;

pub use spans::{operation_span, span};
