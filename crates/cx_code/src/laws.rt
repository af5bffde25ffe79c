//! Laws of what code means, for what stands above: each is a function whose contract it is.

ghost use Rattle.std.specs.Prelude.{◌≡◌, ℕ, ◌<◌, ◌≤◌};
ghost use Rattle.cx_state.specs.States.{State, Value};
ghost use Rattle.cx_code.specs.declared.code.Code.{Code};
ghost use Rattle.cx_code.specs.Cells.{Cells};
ghost use Rattle.cx_code.specs.Means.{Around, code_means};

/// Each bound above the turns that are left gives the same meaning, and no code gives back turns ([implimits]).
pub fn bounds_agree()
    ensures same { (g : Around) (n m : ℕ) (c : Code) (args : Cells) (s : State) → s.left < n → s.left < m → code_means g n c args s ≡ code_means g m c args s }
    ensures turns { (g : Around) (n : ℕ) (c : Code) (args given : Cells) (s now : State) → code_means g n c args s ≡ Value given now → now.left ≤ s.left }
{}
