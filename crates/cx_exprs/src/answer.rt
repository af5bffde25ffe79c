//! Why typing ends.

use cx_base::Diag;

/// Why typing ended.
#[derive(Drop)]
pub enum ElabAnswer {
    /// The first rule that is broken.
    Fault(Diag),
    Memory,
}
