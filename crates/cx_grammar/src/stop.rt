//! Why a function that reads tokens gives no value.

ghost use Rattle.std.specs.Prelude.{◌≡◌};

use cx_base::{Memory, Rule};
use std::alloc::AllocError;

/// Why no value was read.
#[derive(Clone, Copy, Debug, PartialEq, Eq)]
pub enum ParseStop {
    /// The rule, `Syntax` or `Nesting`, and how many tokens there are from the fault on.
    Fault(Rule, usize),
    Memory,
}

impl From<AllocError> for ParseStop {
    ghost use Rattle.std.specs.Prelude.{◌≡◌};
    ghost use Rattle.cx_grammar.specs.declared.stop.ParseStop.TheVariants.{Memory};

    ghost from_gives = { λ _ e. e ≡ Memory };

    fn from(_: AllocError) -> ParseStop {
        ParseStop::Memory
    }
}

impl From<Memory> for ParseStop {
    ghost use Rattle.std.specs.Prelude.{◌≡◌};
    ghost use Rattle.cx_grammar.specs.declared.stop.ParseStop.TheVariants.{Memory};

    ghost from_gives = { λ _ e. e ≡ Memory };

    fn from(_: Memory) -> ParseStop {
        ParseStop::Memory
    }
}
