//! What holds of the grammar of variables and parameters.

ghost use Rattle.cx_syntax.specs.Symbols.{EndsNowhere, GoesOn, IsExact, OneTree, after, nothing};
ghost use Rattle.cx_syntax_vars.specs.Goes.{goes_param, goes_params, goes_var, goes_vars};
ghost use Rattle.cx_syntax_vars.specs.Symbols as symbols;

/// Each reader finds the one tree of the tokens, or the first token with which they are the front of no spelling.
pub fn readers_are_exact()
    ensures typedef { IsExact symbols.typedef nothing symbols.typedefs }
    ensures init { IsExact symbols.init (after goes_var) symbols.inits }
    ensures var { IsExact symbols.var (after goes_var) symbols.var_reads }
    ensures vars { IsExact symbols.vars (after goes_vars) symbols.vars_read }
    ensures param { IsExact symbols.param (after goes_param) symbols.param_reads }
    ensures params { IsExact symbols.params (after goes_params) symbols.params_read }
    ensures declared { IsExact symbols.declared nothing symbols.declared_read }
    ensures local { IsExact symbols.local nothing symbols.locals }
    ensures bare_local { IsExact symbols.bare_local nothing symbols.bare_locals }
{}

/// A list of tokens spells one tree of a symbol at most.
pub fn one_tree()
    ensures typedef { OneTree symbols.typedef }
    ensures init { OneTree symbols.init }
    ensures var { OneTree symbols.var }
    ensures vars { OneTree symbols.vars }
    ensures param { OneTree symbols.param }
    ensures params { OneTree symbols.params }
    ensures declared { OneTree symbols.declared }
    ensures local { OneTree symbols.local }
    ensures bare_local { OneTree symbols.bare_local }
{}

/// The token that ends every list is in no front of a spelling.
pub fn ends_nowhere()
    ensures typedef { EndsNowhere symbols.typedef }
    ensures init { EndsNowhere symbols.init }
    ensures var { EndsNowhere symbols.var }
    ensures vars { EndsNowhere symbols.vars }
    ensures param { EndsNowhere symbols.param }
    ensures params { EndsNowhere symbols.params }
    ensures declared { EndsNowhere symbols.declared }
    ensures local { EndsNowhere symbols.local }
    ensures bare_local { EndsNowhere symbols.bare_local }
{}

/// What begins a symbol can be continued to a spelling, with no level more.
pub fn fronts_go_on()
    ensures typedef { GoesOn symbols.typedef }
    ensures init { GoesOn symbols.init }
    ensures var { GoesOn symbols.var }
    ensures vars { GoesOn symbols.vars }
    ensures param { GoesOn symbols.param }
    ensures params { GoesOn symbols.params }
    ensures declared { GoesOn symbols.declared }
    ensures local { GoesOn symbols.local }
    ensures bare_local { GoesOn symbols.bare_local }
{}
