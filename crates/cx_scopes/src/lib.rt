//! What names mean: scopes, declarations and the lookup of names ([basic.scope], [basic.lookup]).
#![tactic(auto)]

mod arguments;
mod candidates;
mod entered;
mod kept;
mod kinds;
mod laws;
mod members;
mod scopes;
mod spaces;
mod steps;
mod table;
mod tables;

pub use candidates::unite;
pub use kinds::{Entity, Found, LookAnswer, ScopeId, ScopeKind, Sought};
pub use laws::{
    candidates_are_a_set, declarations_stay, declared_names_are_found, lookups_in_other_words,
    scopes_name_what_is, scopes_stay_nested,
};
pub use scopes::Scopes;
