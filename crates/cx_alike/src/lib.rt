//! The two ways of saying that types are the same, const aside, say the same ([basic.compound], [conv.qual]).
#![tactic(auto)]

mod laws;

pub use laws::alike_is_same_aside;
