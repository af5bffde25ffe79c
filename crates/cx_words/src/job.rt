use cx_base::Limits;
use thiserror::Error;

/// What is done with a unit.
#[derive(Clone, Copy, Debug, PartialEq, Eq)]
pub enum JobMode {
    /// A line for each constant and their number, or the diagnostic.
    Print,
    /// The number of constants, or the diagnostic.
    Check,
    /// As `Print`, with the calls that lead to the diagnostic.
    Notes,
    /// A unit is made, run and summed up.
    Make,
}

/// What the words of the command line ask for.
#[derive(Clone, Copy, Debug, PartialEq, Eq)]
pub struct Job {
    pub mode: JobMode,
    /// How far the evaluation may go.
    pub limits: Limits,
    /// Where the numbers of a made unit begin.
    pub seed: u32,
    /// How many constants a made unit has.
    pub count: u32,
}

/// Why there is no job.
#[derive(Clone, Copy, Debug, PartialEq, Eq, Error)]
pub enum WordsAnswer {
    /// The words ask for no job.
    #[error("words refused")]
    Refused,
    /// Memory ran out.
    #[error("out of memory")]
    Memory,
}
