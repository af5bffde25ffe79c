//! What holds of the grammar of attributes and of the declarations without statements.

ghost use Rattle.cx_syntax.specs.Symbols.{EndsNowhere, GoesOn, IsExact, OneTree, after, nothing};
ghost use Rattle.cx_syntax_parts.specs.Goes.{goes_attrs, goes_enumr, goes_noex};
ghost use Rattle.cx_syntax_parts.specs.Sets.{is_virtual};
ghost use Rattle.cx_syntax_parts.specs.Symbols as symbols;
ghost use Rattle.cx_syntax_parts.specs.Symbols.{Counts};

/// Each reader finds the one tree of the tokens, or the first token with which they are the front of no spelling.
pub fn readers_are_exact()
    ensures soup { IsExact symbols.soup nothing symbols.soups }
    ensures attrs { IsExact symbols.attrs (after goes_attrs) symbols.attributes }
    ensures noex { IsExact symbols.noex (after goes_noex) symbols.noexcepts }
    ensures assert { IsExact symbols.assert nothing symbols.asserts }
    ensures alias { IsExact symbols.alias nothing symbols.aliases }
    ensures enumr { IsExact symbols.enumr (after goes_enumr) symbols.enumrs }
    ensures enums { IsExact symbols.enums nothing symbols.enums_read }
    ensures enumeration { IsExact symbols.enum nothing symbols.enumerations }
    ensures tail { IsExact symbols.tail nothing symbols.tails }
    ensures virt { IsExact symbols.virt (after is_virtual) symbols.virtuals }
    ensures access { IsExact symbols.access nothing symbols.accesses }
{}

/// A list of tokens spells one tree of a symbol at most.
pub fn one_tree()
    ensures attrs { OneTree symbols.attrs }
    ensures noex { OneTree symbols.noex }
    ensures assert { OneTree symbols.assert }
    ensures alias { OneTree symbols.alias }
    ensures enums { OneTree symbols.enums }
    ensures enumeration { OneTree symbols.enum }
    ensures tail { OneTree symbols.tail }
    ensures virt { OneTree symbols.virt }
{}

/// The token that ends every list is in no front of a spelling.
pub fn ends_nowhere()
    ensures attrs { EndsNowhere symbols.attrs }
    ensures noex { EndsNowhere symbols.noex }
    ensures assert { EndsNowhere symbols.assert }
    ensures alias { EndsNowhere symbols.alias }
    ensures enums { EndsNowhere symbols.enums }
    ensures enumeration { EndsNowhere symbols.enum }
    ensures tail { EndsNowhere symbols.tail }
    ensures virt { EndsNowhere symbols.virt }
{}

/// What begins a symbol can be continued to a spelling, with no level more.
pub fn fronts_go_on()
    ensures attrs { GoesOn symbols.attrs }
    ensures noex { GoesOn symbols.noex }
    ensures assert { GoesOn symbols.assert }
    ensures alias { GoesOn symbols.alias }
    ensures enums { GoesOn symbols.enums }
    ensures enumeration { GoesOn symbols.enum }
    ensures tail { GoesOn symbols.tail }
    ensures virt { GoesOn symbols.virt }
{}

/// The value of attributes and of `noexcept` is the least number of levels within which they are spelled ([implimits]).
pub fn levels_are_counted()
    ensures attrs { Counts symbols.attrs }
    ensures noex { Counts symbols.noex }
{}
