//! Cuts a source that comes by pieces into tokens, or finds its first lexical fault.
#![tactic(auto)]

mod fed;

pub use fed::Lexer;
