//! What holds of the grammar of expressions.

ghost use Rattle.std.specs.Prelude.{ℕ, List};
ghost use Rattle.cx_syntax.specs.Goes.{goes_args, goes_assign, goes_operand, goes_typeid};
ghost use Rattle.cx_syntax.specs.Symbols as symbols;
ghost use Rattle.cx_syntax.specs.Symbols.{EndsNowhere, GoesOn, IsExact, OneTree, after, nothing};

/// Each reader finds the one tree of the tokens, or the first token with which they are the front of no spelling.
pub fn readers_are_exact()
    ensures expr { IsExact symbols.expr (after goes_args) symbols.exprs }
    ensures assign { IsExact symbols.assign (after goes_assign) symbols.assigns }
    ensures cond { IsExact symbols.cond (after goes_assign) symbols.conds }
    ensures chain { (p : ℕ) → IsExact (symbols.chain p) (goes_operand p) (symbols.chains p) }
    ensures cast { IsExact symbols.cast (goes_operand 0) symbols.casts }
    ensures unary { IsExact symbols.unary (goes_operand 0) symbols.unaries }
    ensures braces { IsExact symbols.braces nothing symbols.braces_read }
    ensures typeid { IsExact symbols.typeid (after goes_typeid) symbols.typeids }
{}

/// A list of tokens spells one tree of a symbol at most.
pub fn one_tree()
    ensures expr { OneTree symbols.expr }
    ensures assign { OneTree symbols.assign }
    ensures cond { OneTree symbols.cond }
    ensures braces { OneTree symbols.braces }
    ensures typeid { OneTree symbols.typeid }
{}

/// The token that ends every list is in no front of a spelling.
pub fn ends_nowhere()
    ensures expr { EndsNowhere symbols.expr }
    ensures assign { EndsNowhere symbols.assign }
    ensures cond { EndsNowhere symbols.cond }
    ensures braces { EndsNowhere symbols.braces }
    ensures typeid { EndsNowhere symbols.typeid }
{}

/// What begins a symbol can be continued to a spelling, with no level more.
pub fn fronts_go_on()
    ensures expr { GoesOn symbols.expr }
    ensures assign { GoesOn symbols.assign }
    ensures cond { GoesOn symbols.cond }
    ensures braces { GoesOn symbols.braces }
    ensures typeid { GoesOn symbols.typeid }
{}
