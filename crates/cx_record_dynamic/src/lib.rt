//! The most derived classes of the plain store's objects ([class.virtual], [class.cdtor]).
#![tactic(auto)]

mod chain;
mod decide;

pub use decide::dynamic_class;
