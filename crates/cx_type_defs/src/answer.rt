use thiserror::Error;

/// Why a type or a class isn't taken.
#[derive(Clone, Copy, Debug, PartialEq, Eq, Error)]
pub enum TypeAnswer {
    /// A part of it is incomplete.
    #[error("a part of the type is incomplete")]
    Incomplete,
    /// It has more than 2^30 cells, a depth above 512 or more than 1,048,576 nodes.
    #[error("the type is too large")]
    TooLarge,
    #[error("out of memory")]
    Memory,
}
