//! Classes and their members ([class]).

ghost use Rattle.std.specs.Prelude.{◌≡◌, true};
ghost use Rattle.cx_grammar.specs.Nests.{Nests};
ghost use Rattle.cx_grammar.specs.Reads.{Reads};
ghost use Rattle.cx_parser_decls.specs.Parts as parts;
ghost use Rattle.cx_syntax_decls.specs.Readers as spec;
ghost use Rattle.cx_syntax_decls.specs.Readers.{deeper_member};

use crate::ahead::class_ahead;
use crate::bases::maybe_bases;
use crate::kinds::{
    access_member, alias_member, assert_member, empty_member, enum_member, function_member,
    new_member, typedef_member,
};
use crate::sets::{Final, KeyIn, StartsMember};
use cx_ahead::Type;
use cx_base::List;
use cx_grammar::{Cursor, ParseStop, Part, read_many};
use cx_parser_names::{ident, is_there, or_none};
use cx_parser_stmts::enum_ahead;
use cx_parser_vars::{AnyAccess, attrs};
use cx_syntax::{Class as Token, Lexeme, span_of};
use cx_tree::{Class, ClassBody, Member, MemberKind};
use sqlite_items::Boxed;
use std::alloc::Global;

/// The rules with so many levels left, over that of a member one level deeper.
#[derive(Drop)]
pub struct Classes<M> {
    pub alloc: Global,
    pub left: usize,
    pub member: M,
}

impl<M: Fn(Global, &mut Cursor<'_, Lexeme>, usize) -> Result<Boxed<Member>, ParseStop>> Classes<M> {
    fn room(&self) -> bool
        ensures { result ≡ (deeper_member self.now.left).room }
    {
        self.left != 0
    }

    #[inline(never)]
    fn member_below(&self, tokens: &mut Cursor<'_, Lexeme>) -> Result<Boxed<Member>, ParseStop>
        requires room { (deeper_member self.now.left).room ≡ true }
        requires nests { Nests (λ n. spec.member n) self.now.left (M.pre self.now.member) (M.post self.now.member) }
        ensures { Reads ((deeper_member self.now.left).member tokens.old) result tokens.new }
    {
        (self.member)(self.alloc, tokens, self.left - 1)
    }

    #[inline(never)]
    fn deeper(&self, tokens: &mut Cursor<'_, Lexeme>) -> Result<Boxed<Member>, ParseStop>
        requires { Nests (λ n. spec.member n) self.now.left (M.pre self.now.member) (M.post self.now.member) }
        ensures { Reads (parts.guarded_member self.now.left tokens.old) result tokens.new }
    {
        if !self.room() {
            return Err(tokens.too_deep());
        }
        self.member_below(tokens)
    }

    #[inline(never)]
    #[tactic(auto, unfolding(cx_syntax_decls::specs::Readers::members))]
    fn members(&self, tokens: &mut Cursor<'_, Lexeme>) -> Result<List<Member>, ParseStop>
        requires { Nests (λ n. spec.member n) self.now.left (M.pre self.now.member) (M.post self.now.member) }
        ensures { Reads (spec.members self.now.left (deeper_member self.now.left) tokens.old) result tokens.new }
    {
        read_many(
            self.alloc,
            tokens,
            &StartsMember,
            &MemberPart { grammar: self },
        )
    }

    /// Members in braces, and `;`.
    #[inline(never)]
    fn braced(&self, tokens: &mut Cursor<'_, Lexeme>) -> Result<List<Member>, ParseStop>
        requires { Nests (λ n. spec.member n) self.now.left (M.pre self.now.member) (M.post self.now.member) }
        ensures { Reads (spec.braced self.now.left (deeper_member self.now.left) tokens.old) result tokens.new }
    {
        tokens.expect(&Token::OpenBrace)?;
        let members = self.members(tokens)?;
        tokens.expect(&Token::CloseBrace)?;
        tokens.expect(&Token::Semicolon)?;
        Ok(members)
    }

    fn maybe_final(&self, tokens: &mut Cursor<'_, Lexeme>) -> Result<Option<()>, ParseStop>
        ensures { Reads (spec.maybe_final self.now.left (deeper_member self.now.left) tokens.old) result tokens.new }
    {
        if !tokens.sees(&Final) {
            return Ok(None);
        }
        tokens.expect(&Final)?;
        Ok(Some(()))
    }

    /// The definition of a class behind its name ([class.derived], [class.mem]).
    #[inline(never)]
    #[tactic(auto, unfolding(cx_syntax_decls::specs::Readers::class_body))]
    fn class_body(&self, tokens: &mut Cursor<'_, Lexeme>) -> Result<ClassBody, ParseStop>
        requires { Nests (λ n. spec.member n) self.now.left (M.pre self.now.member) (M.post self.now.member) }
        ensures { Reads (spec.class_body self.now.left (deeper_member self.now.left) tokens.old) result tokens.new }
    {
        let word = self.maybe_final(tokens)?;
        let bases = maybe_bases(self.alloc, tokens, self.left)?;
        let members = self.braced(tokens)?;
        Ok(ClassBody {
            is_final: is_there(word),
            bases: or_none(self.alloc, bases),
            members,
        })
    }

    #[inline(never)]
    #[tactic(auto, unfolding(cx_syntax_decls::specs::Readers::class_end))]
    fn class_end(&self, tokens: &mut Cursor<'_, Lexeme>) -> Result<Option<ClassBody>, ParseStop>
        requires { Nests (λ n. spec.member n) self.now.left (M.pre self.now.member) (M.post self.now.member) }
        ensures { Reads (spec.class_end self.now.left (deeper_member self.now.left) tokens.old) result tokens.new }
    {
        if tokens.sees(&Token::Semicolon) {
            tokens.expect(&Token::Semicolon)?;
            return Ok(None);
        }
        Ok(Some(self.class_body(tokens)?))
    }

    /// A class ([class.pre]).
    #[inline(never)]
    #[tactic(auto, unfolding(cx_syntax_decls::specs::Readers::class_over))]
    pub fn class(&self, tokens: &mut Cursor<'_, Lexeme>) -> Result<Class, ParseStop>
        requires { Nests (λ n. spec.member n) self.now.left (M.pre self.now.member) (M.post self.now.member) }
        ensures { Reads (spec.class_over self.now.left (deeper_member self.now.left) tokens.old) result tokens.new }
    {
        let from = tokens.rest();
        let key = tokens.take(&KeyIn)?;
        let attrs = attrs(tokens, self.left)?;
        let name = ident(self.alloc, tokens, &Type)?;
        let body = self.class_end(tokens)?;
        Ok(Class {
            key,
            attrs,
            name,
            body,
            span: span_of(tokens.since(from)),
        })
    }

    /// An enumeration, a class, or what else is declared.
    #[inline(never)]
    #[tactic(auto, unfolding(cx_syntax_decls::specs::Readers::declared_member))]
    fn declared_member(
        &self,
        tokens: &mut Cursor<'_, Lexeme>,
    ) -> Result<Boxed<MemberKind>, ParseStop>
        requires { Nests (λ n. spec.member n) self.now.left (M.pre self.now.member) (M.post self.now.member) }
        ensures { Reads (spec.declared_member self.now.left (deeper_member self.now.left) tokens.old) result tokens.new }
    {
        if enum_ahead(tokens.rest()) {
            enum_member(self.alloc, tokens, self.left)
        } else if class_ahead(tokens.rest()) {
            let class = self.class(tokens)?;
            Ok(Boxed::new(self.alloc, MemberKind::Class(class))?)
        } else {
            function_member(self.alloc, tokens, self.left)
        }
    }

    #[inline(never)]
    #[tactic(auto, unfolding(cx_syntax_decls::specs::Readers::member_kind))]
    fn member_kind(&self, tokens: &mut Cursor<'_, Lexeme>) -> Result<Boxed<MemberKind>, ParseStop>
        requires { Nests (λ n. spec.member n) self.now.left (M.pre self.now.member) (M.post self.now.member) }
        ensures { Reads (spec.member_kind self.now.left (deeper_member self.now.left) tokens.old) result tokens.new }
    {
        if tokens.sees(&AnyAccess) {
            access_member(self.alloc, tokens)
        } else if tokens.sees(&Token::Semicolon) {
            empty_member(self.alloc, tokens)
        } else if tokens.sees(&Token::StaticAssert) {
            assert_member(self.alloc, tokens, self.left)
        } else if tokens.sees(&Token::Using) {
            alias_member(self.alloc, tokens, self.left)
        } else if tokens.sees(&Token::Typedef) {
            typedef_member(self.alloc, tokens)
        } else {
            self.declared_member(tokens)
        }
    }

    /// A member of a class, or what stands between members ([class.mem]).
    #[inline(never)]
    #[tactic(auto, unfolding(cx_syntax_decls::specs::Readers::member_over))]
    pub fn member(&self, tokens: &mut Cursor<'_, Lexeme>) -> Result<Boxed<Member>, ParseStop>
        requires { Nests (λ n. spec.member n) self.now.left (M.pre self.now.member) (M.post self.now.member) }
        ensures { Reads (spec.member_over self.now.left (deeper_member self.now.left) tokens.old) result tokens.new }
    {
        let from = tokens.rest();
        let kind = self.member_kind(tokens)?;
        let span = span_of(tokens.since(from));
        Ok(new_member(self.alloc, kind, span)?)
    }
}

/// A member one level deeper, as a part that a loop reads.
#[derive(Drop)]
struct MemberPart<'g, M> {
    grammar: &'g Classes<M>,
}

impl<'g, M: Fn(Global, &mut Cursor<'_, Lexeme>, usize) -> Result<Boxed<Member>, ParseStop>> Part<
    Lexeme,
> for MemberPart<'g, M> {
    type Value = Member;

    ghost ready = { λ s. Nests (λ n. spec.member n) s.grammar.now.left (M.pre s.grammar.now.member) (M.post s.grammar.now.member) };

    ghost reader = { λ s. parts.guarded_member s.grammar.now.left };

    fn read(&self, tokens: &mut Cursor<'_, Lexeme>) -> Result<Member, ParseStop> {
        Ok(self.grammar.deeper(tokens)?.into_inner())
    }
}
