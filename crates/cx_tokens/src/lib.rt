//! Cuts a source into tokens, or finds its first lexical fault.
#![tactic(auto)]

mod bytes;
mod decided;
mod found;
mod laws;
mod lexer;
mod literals;
mod marks;
mod names;
mod numbers;
mod punctuators;
mod quoted;
mod scan;
mod shapes;
mod space;
mod step;

use cx_base::Diag;
pub use cx_token_defs::{Token, TokenKind};
pub use laws::tokens_or_fault;
pub use lexer::{advance, finish, lex, start};
pub use step::Here;

/// Why there are no tokens.
#[derive(Debug, Drop)]
pub enum LexAnswer {
    /// The source's first lexical fault.
    Fault(Diag),
    Memory,
}
