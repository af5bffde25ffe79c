//! Objects as flat rows of slots that descriptors explain ([intro.object], [basic.life], [class.union]).
#![tactic(auto)]

mod access;
mod fill;
pub mod laws;
mod life;
mod union;
mod way;
mod whole;

pub use access::{init_at, load_at, store_at};
pub use life::advance_at;
pub use union::{activate_at, deactivate_at};
pub use way::{Found, find_part};
pub use whole::renew;
