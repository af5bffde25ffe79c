//! Sources with their tokens and names of types, and the table of rules, tried on the crates below the parser.
#![tactic(auto)]

pub use cx_lexer::Lexer;
pub use cx_tokens::lex;
pub use cx_type_names::type_names;

#[cfg(test)]
mod tests;
