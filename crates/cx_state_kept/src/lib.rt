//! What the steps on objects keep, in the words of what a store promises, and how its conditions are met ([basic.life],
//! [basic.compound]).
#![tactic(auto)]

pub mod conditions;
pub mod held;
pub mod places;
pub mod reads;
