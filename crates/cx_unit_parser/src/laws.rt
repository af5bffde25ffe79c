//! What holds of the grammar of units.

ghost use Rattle.std.specs.Prelude.{◌≡◌, ◌⊎◌, List};
ghost use Rattle.cx_base.specs.declared.diag.Diag.{Diag};
ghost use Rattle.cx_token_defs.specs.declared.Token.{Token as OfToken};
ghost use Rattle.cx_tree.specs.declared.decls.Unit.{Unit as Tree};
ghost use Rattle.cx_unit_parser.specs.Parsing.{EndsInEnd, IsTree, IsFault};

/// A list of tokens has a tree or a fault, never both, and one of either.
pub fn one_answer()
    ensures either { (tokens : List OfToken) → EndsInEnd tokens → ((tree : Tree) × IsTree tokens tree) ⊎ ((fault : Diag) × IsFault tokens fault) }
    ensures never_both { (tokens : List OfToken) (tree : Tree) (fault : Diag) → IsTree tokens tree → IsFault tokens fault → ⊥ }
    ensures one_tree { (tokens : List OfToken) (a b : Tree) → IsTree tokens a → IsTree tokens b → a ≡ b }
    ensures one_fault { (tokens : List OfToken) (a b : Diag) → IsFault tokens a → IsFault tokens b → a ≡ b }
{}
