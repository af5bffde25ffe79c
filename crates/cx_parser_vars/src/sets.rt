//! Sets of tokens, and what single tokens give.

use cx_grammar::{Pick, Test};
use cx_syntax::{Class, Lexeme};
use cx_tree::{Access, Tail, Virtual};

/// A token that stands by itself in an attribute: any but a bracket and the end ([dcl.attr.grammar]).
pub struct Plain;

impl Test<Lexeme> for Plain {
    ghost use Rattle.cx_syntax.specs.Classes.{class_at};
    ghost use Rattle.cx_syntax_parts.specs.Sets.{is_plain};

    ghost holds = { λ _ t. is_plain (class_at t) };

    fn test(&self, token: &Lexeme) -> bool {
        !matches!(
            token.class,
            Class::OpenParen
                | Class::CloseParen
                | Class::OpenBracket
                | Class::CloseBracket
                | Class::OpenBrace
                | Class::CloseBrace
                | Class::End
        )
    }
}

/// Such a token, which nests no level.
pub struct PlainIn;

impl Pick<Lexeme> for PlainIn {
    type Value = usize;

    ghost use Rattle.cx_syntax.specs.Values.{pick};
    ghost use Rattle.cx_syntax_parts.specs.Sets.{is_plain};
    ghost use Rattle.cx_syntax_parts.specs.Values.{no_levels};

    ghost picks = { λ _ t. pick is_plain no_levels t };

    fn pick(&self, token: &Lexeme) -> Option<usize> {
        if Plain.test(token) { Some(0) } else { None }
    }
}

/// What a token or a group of an attribute begins with.
pub struct StartsSoup;

impl Test<Lexeme> for StartsSoup {
    ghost use Rattle.cx_syntax.specs.Classes.{class_at};
    ghost use Rattle.cx_syntax_parts.specs.Sets.{starts_soup};

    ghost holds = { λ _ t. starts_soup (class_at t) };

    fn test(&self, token: &Lexeme) -> bool {
        !matches!(
            token.class,
            Class::CloseParen | Class::CloseBracket | Class::CloseBrace | Class::End
        )
    }
}

/// `class` or `struct` behind `enum` ([dcl.enum]).
pub struct EnumKey;

impl Test<Lexeme> for EnumKey {
    ghost use Rattle.cx_syntax.specs.Classes.{class_at};
    ghost use Rattle.cx_syntax_parts.specs.Sets.{is_enum_key};

    ghost holds = { λ _ t. is_enum_key (class_at t) };

    fn test(&self, token: &Lexeme) -> bool {
        matches!(token.class, Class::Class | Class::Struct)
    }
}

/// What a tail begins with.
pub struct StartsTail;

impl Test<Lexeme> for StartsTail {
    ghost use Rattle.cx_syntax.specs.Classes.{class_at};
    ghost use Rattle.cx_syntax_parts.specs.Sets.{starts_tail};

    ghost holds = { λ _ t. starts_tail (class_at t) };

    fn test(&self, token: &Lexeme) -> bool {
        matches!(token.class, Class::Semicolon | Class::Equal)
    }
}

/// What stands between `=` and `;` at the end of a function's declaration ([dcl.fct.def.general], [class.abstract]).
pub struct TailIn;

impl Pick<Lexeme> for TailIn {
    type Value = Tail;

    ghost use Rattle.cx_syntax.specs.Values.{pick};
    ghost use Rattle.cx_syntax_parts.specs.Sets.{is_tail_word};
    ghost use Rattle.cx_syntax_parts.specs.Values.{tail_of};

    ghost picks = { λ _ t. pick is_tail_word tail_of t };

    fn pick(&self, token: &Lexeme) -> Option<Tail> {
        Some(match token.class {
            Class::Default => Tail::Default,
            Class::Delete => Tail::Delete,
            Class::Zero => Tail::Pure,
            _ => return None,
        })
    }
}

/// `override` or `final` ([class.virtual]).
pub struct AnyVirtual;

impl Test<Lexeme> for AnyVirtual {
    ghost use Rattle.cx_syntax.specs.Classes.{class_at};
    ghost use Rattle.cx_syntax_parts.specs.Sets.{is_virtual};

    ghost holds = { λ _ t. is_virtual (class_at t) };

    fn test(&self, token: &Lexeme) -> bool {
        matches!(
            token.class,
            Class::OverrideType | Class::OverrideIdent | Class::FinalType | Class::FinalIdent
        )
    }
}

/// Which of both it is.
pub struct VirtualIn;

impl Pick<Lexeme> for VirtualIn {
    type Value = Virtual;

    ghost use Rattle.cx_syntax.specs.Values.{pick};
    ghost use Rattle.cx_syntax_parts.specs.Sets.{is_virtual};
    ghost use Rattle.cx_syntax_parts.specs.Values.{virtual_of};

    ghost picks = { λ _ t. pick is_virtual virtual_of t };

    fn pick(&self, token: &Lexeme) -> Option<Virtual> {
        Some(match token.class {
            Class::OverrideType | Class::OverrideIdent => Virtual::Override,
            Class::FinalType | Class::FinalIdent => Virtual::Final,
            _ => return None,
        })
    }
}

/// [class.access]
pub struct AnyAccess;

impl Test<Lexeme> for AnyAccess {
    ghost use Rattle.cx_syntax.specs.Classes.{class_at};
    ghost use Rattle.cx_syntax_parts.specs.Sets.{is_access};

    ghost holds = { λ _ t. is_access (class_at t) };

    fn test(&self, token: &Lexeme) -> bool {
        matches!(
            token.class,
            Class::Public | Class::Protected | Class::Private
        )
    }
}

/// Which access it is.
pub struct AccessIn;

impl Pick<Lexeme> for AccessIn {
    type Value = Access;

    ghost use Rattle.cx_syntax.specs.Values.{pick};
    ghost use Rattle.cx_syntax_parts.specs.Sets.{is_access};
    ghost use Rattle.cx_syntax_parts.specs.Values.{access_of};

    ghost picks = { λ _ t. pick is_access access_of t };

    fn pick(&self, token: &Lexeme) -> Option<Access> {
        Some(match token.class {
            Class::Public => Access::Public,
            Class::Protected => Access::Protected,
            Class::Private => Access::Private,
            _ => return None,
        })
    }
}
