//! What every other crate shares: marks and spans, rules with their tags, limits, integer types, and lists and
//! texts that contracts see as lists.
#![tactic(auto)]

mod diag;
mod int_type;
mod limits;
mod list;
mod rule;
mod table;
mod text;

pub use diag::{Diag, Frame, Mark, Span};
pub use int_type::IntType;
pub use limits::{Limits, limits_allowed, standard_limits};
pub use list::List;
pub use rule::Rule;
pub use table::{RULES, RuleRow, Table, rule_tag};
pub use text::Text;

/// Memory ran out.
#[derive(Clone, Copy, Debug, PartialEq, Eq)]
pub struct Memory;
