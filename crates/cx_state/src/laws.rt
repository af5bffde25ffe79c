//! Laws of the definitions, for what stands above: each is a function whose contract it is.

pub mod alike;
pub mod counts;
pub mod elsewhere;
pub mod finished;
pub mod forms;
pub mod growth;
pub mod known;
pub mod names;
pub mod paths;
pub mod pointers;
pub mod reads;
pub mod rules;
pub mod types;
