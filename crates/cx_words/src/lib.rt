//! The words of the command line, and the job that they ask for.
#![tactic(auto)]

mod command;
mod job;
mod matched;
mod reading;

pub use job::{Job, JobMode, WordsAnswer};
pub use reading::words;
