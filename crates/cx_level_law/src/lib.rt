//! How many levels a unit needs ([implimits]): those that its tree goes deep.
#![tactic(auto)]

ghost use Rattle.cx_levels.specs.DeclLevels.{levels_of_unit};
ghost use Rattle.cx_level_law.specs.Law.{Limited, Needed, Within};
ghost use Rattle.cx_syntax_decls.specs.Symbols as symbols;

/// Tokens that spell a unit within some number of levels spell it within exactly those numbers that are at least the levels of its tree.
/// So what is a unit at all is one within the 512 levels that may nest ([implimits]) exactly where its tree goes no deeper.
pub fn levels_are_those_needed()
    ensures needed { Needed symbols.unit levels_of_unit }
    ensures limited { Limited 512 }
    ensures within { Within 512 }
{}
