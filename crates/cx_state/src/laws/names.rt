//! The names of objects that an evaluation starts from ([lex.string], [class.temporary]).

ghost use Rattle.std.specs.Prelude.{◌≡◌, ◌↔◌, true};
ghost use Rattle.cx_state.specs.States.{same_mark, same_root};

use crate::root::Root;
use cx_base::Mark;

/// Marks, and so names, compare equal exactly where they are the same in all that they have.
pub fn names_compare_whole()
    ensures mark { (a b : Mark) → (same_mark a b ≡ true) ↔ (a ≡ b) }
    ensures root { (a b : Root) → (same_root a b ≡ true) ↔ (a ≡ b) }
{}
