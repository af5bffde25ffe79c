//! Sets of tokens, and what single tokens give.

use cx_ahead::{AnyElaboration, AnyTypeWord, BeginsType, Type};
use cx_grammar::{Pick, Test};
use cx_parser_stmts::StartsSpecs;
use cx_parser_vars::AnyAccess;
use cx_syntax::{Class, Lexeme};
use cx_tree::ClassKey;

/// What a parameter begins with ([dcl.fct]).
pub struct StartsParam;

impl Test<Lexeme> for StartsParam {
    ghost use Rattle.cx_syntax.specs.Classes.{class_at};
    ghost use Rattle.cx_syntax_vars.specs.Sets.{starts_param};

    ghost holds = { λ _ t. starts_param (class_at t) };

    fn test(&self, token: &Lexeme) -> bool {
        Class::OpenBracket.test(token) || StartsSpecs.test(token)
    }
}

/// What only a type begins with behind modifiers: a word, a key, `enum` or `::`.
pub struct LeadsTyped;

impl Test<Lexeme> for LeadsTyped {
    ghost use Rattle.cx_syntax.specs.Classes.{class_at};
    ghost use Rattle.cx_syntax_decls.specs.Sets.{leads_typed};

    ghost holds = { λ _ t. leads_typed (class_at t) };

    fn test(&self, token: &Lexeme) -> bool {
        AnyTypeWord.test(token) || AnyElaboration.test(token) || Class::ColonColon.test(token)
    }
}

/// What stands behind `(` only where parameters do.
pub struct BeginsParams;

impl Test<Lexeme> for BeginsParams {
    ghost use Rattle.cx_syntax.specs.Classes.{class_at};
    ghost use Rattle.cx_syntax_decls.specs.Sets.{begins_params};

    ghost holds = { λ _ t. begins_params (class_at t) };

    fn test(&self, token: &Lexeme) -> bool {
        Class::CloseParen.test(token)
            || Class::OpenBracket.test(token)
            || AnyTypeWord.test(token)
            || BeginsType.test(token)
    }
}

/// What a declarator's name begins with in a function alone.
pub struct BeginsQualified;

impl Test<Lexeme> for BeginsQualified {
    ghost use Rattle.cx_syntax.specs.Classes.{class_at};
    ghost use Rattle.cx_syntax_decls.specs.Sets.{begins_qualified};

    ghost holds = { λ _ t. begins_qualified (class_at t) };

    fn test(&self, token: &Lexeme) -> bool {
        Type.test(token) || Class::Operator.test(token)
    }
}

/// The word that begins a class ([class.pre]).
pub struct Key;

impl Test<Lexeme> for Key {
    ghost use Rattle.cx_syntax.specs.Classes.{class_at};
    ghost use Rattle.cx_syntax_decls.specs.Sets.{is_key};

    ghost holds = { λ _ t. is_key (class_at t) };

    fn test(&self, token: &Lexeme) -> bool {
        matches!(token.class, Class::Struct | Class::Class | Class::Union)
    }
}

/// Which word it is.
pub struct KeyIn;

impl Pick<Lexeme> for KeyIn {
    type Value = ClassKey;

    ghost use Rattle.cx_syntax.specs.Values.{pick};
    ghost use Rattle.cx_syntax_decls.specs.Sets.{is_key};
    ghost use Rattle.cx_syntax_decls.specs.Values.{key_of};

    ghost picks = { λ _ t. pick is_key key_of t };

    fn pick(&self, token: &Lexeme) -> Option<ClassKey> {
        Some(match token.class {
            Class::Struct => ClassKey::Struct,
            Class::Class => ClassKey::Class,
            Class::Union => ClassKey::Union,
            _ => return None,
        })
    }
}

/// `final`, be it a type's name or not ([class.pre]).
pub struct Final;

impl Test<Lexeme> for Final {
    ghost use Rattle.cx_syntax.specs.Classes.{class_at};
    ghost use Rattle.cx_syntax_decls.specs.Sets.{is_final};

    ghost holds = { λ _ t. is_final (class_at t) };

    fn test(&self, token: &Lexeme) -> bool {
        matches!(token.class, Class::FinalType | Class::FinalIdent)
    }
}

/// What a class has behind its name and perhaps `final`: bases or members.
pub struct BeginsBody;

impl Test<Lexeme> for BeginsBody {
    ghost use Rattle.cx_syntax.specs.Classes.{class_at};
    ghost use Rattle.cx_syntax_decls.specs.Sets.{begins_class_body};

    ghost holds = { λ _ t. begins_class_body (class_at t) };

    fn test(&self, token: &Lexeme) -> bool {
        matches!(token.class, Class::Colon | Class::OpenBrace)
    }
}

/// What a class has directly behind its name: `;`, bases or members.
pub struct BeginsEnd;

impl Test<Lexeme> for BeginsEnd {
    ghost use Rattle.cx_syntax.specs.Classes.{class_at};
    ghost use Rattle.cx_syntax_decls.specs.Sets.{begins_class_end};

    ghost holds = { λ _ t. begins_class_end (class_at t) };

    fn test(&self, token: &Lexeme) -> bool {
        Class::Semicolon.test(token) || BeginsBody.test(token)
    }
}

/// What an entity begins with: attributes or specifiers ([dcl.pre]).
pub struct StartsEntity;

impl Test<Lexeme> for StartsEntity {
    ghost use Rattle.cx_syntax.specs.Classes.{class_at};
    ghost use Rattle.cx_syntax_decls.specs.Sets.{starts_entity};

    ghost holds = { λ _ t. starts_entity (class_at t) };

    fn test(&self, token: &Lexeme) -> bool {
        Class::OpenBracket.test(token) || StartsSpecs.test(token)
    }
}

/// What a member of a class begins with ([class.mem]).
pub struct StartsMember;

impl Test<Lexeme> for StartsMember {
    ghost use Rattle.cx_syntax.specs.Classes.{class_at};
    ghost use Rattle.cx_syntax_decls.specs.Sets.{starts_member};

    ghost holds = { λ _ t. starts_member (class_at t) };

    fn test(&self, token: &Lexeme) -> bool {
        AnyAccess.test(token)
            || Class::Semicolon.test(token)
            || Class::StaticAssert.test(token)
            || Class::Using.test(token)
            || Class::Typedef.test(token)
            || Class::Tilde.test(token)
            || StartsEntity.test(token)
    }
}

/// What a declaration begins with ([dcl.pre]).
pub struct StartsDecl;

impl Test<Lexeme> for StartsDecl {
    ghost use Rattle.cx_syntax.specs.Classes.{class_at};
    ghost use Rattle.cx_syntax_decls.specs.Sets.{starts_decl};

    ghost holds = { λ _ t. starts_decl (class_at t) };

    fn test(&self, token: &Lexeme) -> bool {
        Class::Semicolon.test(token)
            || Class::Namespace.test(token)
            || Class::StaticAssert.test(token)
            || Class::Using.test(token)
            || Class::Typedef.test(token)
            || StartsEntity.test(token)
    }
}
