//! What holds of every source.
ghost use Rattle.std.specs.Prelude.{◌≡◌, ◌⊎◌, ℕ, List, All};
ghost use Rattle.cx_base.specs.declared.diag.Diag.{Diag};
ghost use Rattle.cx_token_defs.specs.declared.Token.{Token};
ghost use Rattle.cx_tokens.specs.Tokens.{EndsOnce, HoldsItsValue, LexFault, Lexes};

/// Every text has tokens or a first fault, never both, and one of either. Among its tokens each number has a value of
/// its type, and the last one, but no other, is the text's end.
pub fn tokens_or_fault()
    ensures either { (bytes : List ℕ) → ((tokens : List Token) × Lexes bytes tokens) ⊎ ((d : Diag) × LexFault bytes d) }
    ensures never_both { (bytes : List ℕ) (tokens : List Token) (d : Diag) → Lexes bytes tokens → LexFault bytes d → ⊥ }
    ensures one_list { (bytes : List ℕ) (tokens others : List Token) → Lexes bytes tokens → Lexes bytes others → tokens ≡ others }
    ensures one_fault { (bytes : List ℕ) (d e : Diag) → LexFault bytes d → LexFault bytes e → d ≡ e }
    ensures in_range { (bytes : List ℕ) (tokens : List Token) → Lexes bytes tokens → All (λ t. HoldsItsValue t.kind) tokens }
    ensures end_once { (bytes : List ℕ) (tokens : List Token) → Lexes bytes tokens → EndsOnce tokens }
{}
