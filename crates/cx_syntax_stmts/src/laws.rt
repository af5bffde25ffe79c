//! What holds of the grammar of statements.

ghost use Rattle.cx_syntax.specs.Symbols.{EndsNowhere, GoesOn, IsExact, OneTree, nothing};
ghost use Rattle.cx_syntax_stmts.specs.Goes.{goes_item, goes_stmt};
ghost use Rattle.cx_syntax_stmts.specs.Symbols as symbols;

/// Each reader finds the one tree of the tokens, or the first token with which they are the front of no spelling.
pub fn readers_are_exact()
    ensures label { IsExact symbols.label nothing symbols.labels }
    ensures stmt { IsExact symbols.stmt goes_stmt symbols.stmts }
    ensures item { IsExact symbols.item goes_item symbols.items }
    ensures block { IsExact symbols.block nothing symbols.blocks }
{}

/// A list of tokens spells one tree of a symbol at most: each `else` belongs to one `if` ([stmt.if]).
pub fn one_tree()
    ensures label { OneTree symbols.label }
    ensures stmt { OneTree symbols.stmt }
    ensures item { OneTree symbols.item }
    ensures block { OneTree symbols.block }
{}

/// The token that ends every list is in no front of a spelling.
pub fn ends_nowhere()
    ensures label { EndsNowhere symbols.label }
    ensures stmt { EndsNowhere symbols.stmt }
    ensures item { EndsNowhere symbols.item }
    ensures block { EndsNowhere symbols.block }
{}

/// What begins a symbol can be continued to a spelling, with no level more.
pub fn fronts_go_on()
    ensures label { GoesOn symbols.label }
    ensures stmt { GoesOn symbols.stmt }
    ensures item { GoesOn symbols.item }
    ensures block { GoesOn symbols.block }
{}
