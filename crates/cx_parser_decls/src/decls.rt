//! Namespaces, declarations and units ([namespace.def], [dcl.pre], [basic.link]).

ghost use Rattle.std.specs.Prelude.{◌≡◌, true};
ghost use Rattle.cx_grammar.specs.Nests.{Nests};
ghost use Rattle.cx_grammar.specs.Reads.{Reads};
ghost use Rattle.cx_parser_decls.specs.Parts as parts;
ghost use Rattle.cx_syntax_decls.specs.Readers as spec;
ghost use Rattle.cx_syntax_decls.specs.Readers.{deeper_decl};

use crate::ahead::class_ahead;
use crate::kinds::{
    alias_decl, assert_decl, empty_decl, entity_decl, enum_decl, new_decl, typedef_decl,
};
use crate::members::class;
use crate::sets::StartsDecl;
use cx_ahead::Id;
use cx_base::List;
use cx_grammar::{Cursor, ParseStop, Part, read_many};
use cx_parser_names::{ident, read_more};
use cx_parser_stmts::enum_ahead;
use cx_parser_vars::attrs;
use cx_syntax::{Class, Lexeme, span_of};
use cx_tree::{Decl, DeclKind, Ident, Namespace};
use sqlite_items::Boxed;
use std::alloc::Global;

/// `::` and a name, as a part that a loop reads.
#[derive(Drop)]
struct OtherName {
    alloc: Global,
}

impl Part<Lexeme> for OtherName {
    type Value = Ident;

    ghost ready = { λ _. Unit {0} };

    ghost reader = { λ _. spec.other_name };

    fn read(&self, tokens: &mut Cursor<'_, Lexeme>) -> Result<Ident, ParseStop> {
        tokens.expect(&Class::ColonColon)?;
        ident(self.alloc, tokens, &Id)
    }
}

/// The names of a namespace, `::` between them.
#[inline(never)]
#[tactic(auto, unfolding(cx_syntax_decls::specs::Readers::space_names))]
fn space_names(alloc: Global, tokens: &mut Cursor<'_, Lexeme>) -> Result<List<Ident>, ParseStop>
    ensures { Reads (spec.space_names tokens.old) result tokens.new }
{
    let mut first = List::new(alloc);
    first.push(ident(alloc, tokens, &Id)?)?;
    read_more(tokens, first, &Class::ColonColon, &OtherName { alloc })
}

/// The rules with so many levels left, over that of a declaration one level deeper.
#[derive(Drop)]
pub struct Spaces<D> {
    pub alloc: Global,
    pub left: usize,
    pub decl: D,
}

impl<D: Fn(Global, &mut Cursor<'_, Lexeme>, usize) -> Result<Boxed<Decl>, ParseStop>> Spaces<D> {
    fn room(&self) -> bool
        ensures { result ≡ (deeper_decl self.now.left).room }
    {
        self.left != 0
    }

    #[inline(never)]
    fn decl_below(&self, tokens: &mut Cursor<'_, Lexeme>) -> Result<Boxed<Decl>, ParseStop>
        requires room { (deeper_decl self.now.left).room ≡ true }
        requires nests { Nests (λ n. spec.decl n) self.now.left (D.pre self.now.decl) (D.post self.now.decl) }
        ensures { Reads ((deeper_decl self.now.left).decl tokens.old) result tokens.new }
    {
        (self.decl)(self.alloc, tokens, self.left - 1)
    }

    #[inline(never)]
    fn deeper(&self, tokens: &mut Cursor<'_, Lexeme>) -> Result<Boxed<Decl>, ParseStop>
        requires { Nests (λ n. spec.decl n) self.now.left (D.pre self.now.decl) (D.post self.now.decl) }
        ensures { Reads (parts.guarded_decl self.now.left tokens.old) result tokens.new }
    {
        if !self.room() {
            return Err(tokens.too_deep());
        }
        self.decl_below(tokens)
    }

    #[inline(never)]
    #[tactic(auto, unfolding(cx_syntax_decls::specs::Readers::decls))]
    fn decls(&self, tokens: &mut Cursor<'_, Lexeme>) -> Result<List<Decl>, ParseStop>
        requires { Nests (λ n. spec.decl n) self.now.left (D.pre self.now.decl) (D.post self.now.decl) }
        ensures { Reads (spec.decls self.now.left (deeper_decl self.now.left) tokens.old) result tokens.new }
    {
        read_many(self.alloc, tokens, &StartsDecl, &DeclPart { grammar: self })
    }

    /// Declarations in braces.
    #[inline(never)]
    fn space_body(&self, tokens: &mut Cursor<'_, Lexeme>) -> Result<List<Decl>, ParseStop>
        requires { Nests (λ n. spec.decl n) self.now.left (D.pre self.now.decl) (D.post self.now.decl) }
        ensures { Reads (spec.space_body self.now.left (deeper_decl self.now.left) tokens.old) result tokens.new }
    {
        tokens.expect(&Class::OpenBrace)?;
        let decls = self.decls(tokens)?;
        tokens.expect(&Class::CloseBrace)?;
        Ok(decls)
    }

    /// A namespace ([namespace.def]).
    #[inline(never)]
    #[tactic(auto, unfolding(cx_syntax_decls::specs::Readers::space_over))]
    fn space(&self, tokens: &mut Cursor<'_, Lexeme>) -> Result<Namespace, ParseStop>
        requires { Nests (λ n. spec.decl n) self.now.left (D.pre self.now.decl) (D.post self.now.decl) }
        ensures { Reads (spec.space_over self.now.left (deeper_decl self.now.left) tokens.old) result tokens.new }
    {
        tokens.expect(&Class::Namespace)?;
        let attrs = attrs(tokens, self.left)?;
        let names = space_names(self.alloc, tokens)?;
        let decls = self.space_body(tokens)?;
        Ok(Namespace {
            attrs,
            names,
            decls,
        })
    }

    #[inline(never)]
    fn space_decl(&self, tokens: &mut Cursor<'_, Lexeme>) -> Result<Boxed<DeclKind>, ParseStop>
        requires { Nests (λ n. spec.decl n) self.now.left (D.pre self.now.decl) (D.post self.now.decl) }
        ensures { Reads (parts.space_decl self.now.left (deeper_decl self.now.left) tokens.old) result tokens.new }
    {
        let space = self.space(tokens)?;
        Ok(Boxed::new(self.alloc, DeclKind::Namespace(space))?)
    }

    /// An enumeration, a class, or what else is declared.
    #[inline(never)]
    #[tactic(auto, unfolding(cx_syntax_decls::specs::Readers::declared))]
    fn declared(&self, tokens: &mut Cursor<'_, Lexeme>) -> Result<Boxed<DeclKind>, ParseStop>
        ensures { Reads (spec.declared self.now.left (deeper_decl self.now.left) tokens.old) result tokens.new }
    {
        if enum_ahead(tokens.rest()) {
            enum_decl(self.alloc, tokens, self.left)
        } else if class_ahead(tokens.rest()) {
            let class = class(self.alloc, tokens, self.left)?;
            Ok(Boxed::new(self.alloc, DeclKind::Class(class))?)
        } else {
            entity_decl(self.alloc, tokens, self.left)
        }
    }

    #[inline(never)]
    #[tactic(auto, unfolding(cx_syntax_decls::specs::Readers::decl_kind))]
    fn decl_kind(&self, tokens: &mut Cursor<'_, Lexeme>) -> Result<Boxed<DeclKind>, ParseStop>
        requires { Nests (λ n. spec.decl n) self.now.left (D.pre self.now.decl) (D.post self.now.decl) }
        ensures { Reads (spec.decl_kind self.now.left (deeper_decl self.now.left) tokens.old) result tokens.new }
    {
        if tokens.sees(&Class::Semicolon) {
            empty_decl(self.alloc, tokens)
        } else if tokens.sees(&Class::Namespace) {
            self.space_decl(tokens)
        } else if tokens.sees(&Class::StaticAssert) {
            assert_decl(self.alloc, tokens, self.left)
        } else if tokens.sees(&Class::Using) {
            alias_decl(self.alloc, tokens, self.left)
        } else if tokens.sees(&Class::Typedef) {
            typedef_decl(self.alloc, tokens)
        } else {
            self.declared(tokens)
        }
    }

    /// A declaration ([dcl.pre]).
    #[inline(never)]
    #[tactic(auto, unfolding(cx_syntax_decls::specs::Readers::decl_over))]
    pub fn decl(&self, tokens: &mut Cursor<'_, Lexeme>) -> Result<Boxed<Decl>, ParseStop>
        requires { Nests (λ n. spec.decl n) self.now.left (D.pre self.now.decl) (D.post self.now.decl) }
        ensures { Reads (spec.decl_over self.now.left (deeper_decl self.now.left) tokens.old) result tokens.new }
    {
        let from = tokens.rest();
        let kind = self.decl_kind(tokens)?;
        let span = span_of(tokens.since(from));
        Ok(new_decl(self.alloc, kind, span)?)
    }
}

/// A declaration one level deeper, as a part that a loop reads.
#[derive(Drop)]
struct DeclPart<'g, D> {
    grammar: &'g Spaces<D>,
}

impl<'g, D: Fn(Global, &mut Cursor<'_, Lexeme>, usize) -> Result<Boxed<Decl>, ParseStop>> Part<
    Lexeme,
> for DeclPart<'g, D> {
    type Value = Decl;

    ghost ready = { λ s. Nests (λ n. spec.decl n) s.grammar.now.left (D.pre s.grammar.now.decl) (D.post s.grammar.now.decl) };

    ghost reader = { λ s. parts.guarded_decl s.grammar.now.left };

    fn read(&self, tokens: &mut Cursor<'_, Lexeme>) -> Result<Decl, ParseStop> {
        Ok(self.grammar.deeper(tokens)?.into_inner())
    }
}
