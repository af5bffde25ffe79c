//! The grammar of expressions: what each token is for it, the languages of its rules, and readers that are exact.
#![tactic(auto)]

mod class;
mod classes;
mod laws;
mod lexeme;
mod parts;
mod spans;
mod spellings;

pub use class::Class;
pub use classes::{TypeNames, class_of, lexeme_of, lexemes};
pub use laws::{ends_nowhere, fronts_go_on, one_tree, readers_are_exact};
pub use lexeme::Lexeme;
pub use parts::{MemberPart, Tail};
pub use spans::span_of;
