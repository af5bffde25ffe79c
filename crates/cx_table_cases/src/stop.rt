//! Why the cases stop.

use cx_base::Memory;
use cx_types::TypeAnswer;
use std::alloc::AllocError;
use std::io;

/// Why a call gives nothing.
#[derive(Clone, Copy, Debug, PartialEq, Eq)]
pub enum Stop {
    /// The tables refuse a type or a class.
    Type(TypeAnswer),
    /// What the call asks for doesn't hold.
    NotAsked,
    Memory,
    Output,
}

impl From<Memory> for Stop {
    fn from(_: Memory) -> Stop {
        Stop::Memory
    }
}

impl From<AllocError> for Stop {
    fn from(_: AllocError) -> Stop {
        Stop::Memory
    }
}

impl From<io::Error> for Stop {
    fn from(_: io::Error) -> Stop {
        Stop::Output
    }
}
