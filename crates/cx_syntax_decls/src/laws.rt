//! What holds of the grammar of declarations.

ghost use Rattle.cx_syntax.specs.Goes.{goes_name};
ghost use Rattle.cx_syntax.specs.Symbols.{EndsNowhere, GoesOn, IsExact, OneTree, after, nothing};
ghost use Rattle.cx_syntax_decls.specs.Symbols as symbols;

/// Each reader finds the one tree of the tokens, or the first token with which they are the front of no spelling.
pub fn readers_are_exact()
    ensures minit { IsExact symbols.minit nothing symbols.minits_read }
    ensures entity_kind { IsExact symbols.entity_kind nothing symbols.entity_kinds }
    ensures ctor { IsExact symbols.ctor nothing symbols.ctors }
    ensures dtor { IsExact symbols.dtor nothing symbols.dtors }
    ensures base { IsExact symbols.base (after goes_name) symbols.bases }
    ensures class { IsExact symbols.class nothing symbols.classes }
    ensures member { IsExact symbols.member nothing symbols.members }
    ensures space { IsExact symbols.space nothing symbols.spaces }
    ensures decl { IsExact symbols.decl nothing symbols.decls }
    ensures unit { IsExact symbols.unit nothing symbols.units }
    ensures entity { symbols.IsExactEntity }
{}

/// A list of tokens spells one tree of a symbol at most.
pub fn one_tree()
    ensures minit { OneTree symbols.minit }
    ensures entity_kind { OneTree symbols.entity_kind }
    ensures ctor { OneTree symbols.ctor }
    ensures dtor { OneTree symbols.dtor }
    ensures base { OneTree symbols.base }
    ensures class { OneTree symbols.class }
    ensures member { OneTree symbols.member }
    ensures space { OneTree symbols.space }
    ensures decl { OneTree symbols.decl }
    ensures unit { OneTree symbols.unit }
    ensures entity { OneTree symbols.entity }
{}

/// The token that ends every list is in no front of a spelling; a unit's own spelling ends in it.
pub fn ends_nowhere()
    ensures minit { EndsNowhere symbols.minit }
    ensures ctor { EndsNowhere symbols.ctor }
    ensures dtor { EndsNowhere symbols.dtor }
    ensures base { EndsNowhere symbols.base }
    ensures class { EndsNowhere symbols.class }
    ensures member { EndsNowhere symbols.member }
    ensures space { EndsNowhere symbols.space }
    ensures decl { EndsNowhere symbols.decl }
    ensures entity { EndsNowhere symbols.entity }
{}

/// What begins a symbol can be continued to a spelling, with no level more.
pub fn fronts_go_on()
    ensures minit { GoesOn symbols.minit }
    ensures ctor { GoesOn symbols.ctor }
    ensures dtor { GoesOn symbols.dtor }
    ensures base { GoesOn symbols.base }
    ensures class { GoesOn symbols.class }
    ensures member { GoesOn symbols.member }
    ensures space { GoesOn symbols.space }
    ensures decl { GoesOn symbols.decl }
    ensures unit { GoesOn symbols.unit }
    ensures entity { GoesOn symbols.entity }
{}
