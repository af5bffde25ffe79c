//! The rules over those one level deeper.

ghost use Rattle.std.specs.Prelude.{◌≡◌, true};
ghost use Rattle.cx_grammar.specs.Nests.{Nests};
ghost use Rattle.cx_grammar.specs.Reads.{Reads};
ghost use Rattle.cx_syntax_stmts.specs.Readers as spec;
ghost use Rattle.cx_syntax_stmts.specs.Readers.{deeper};

use cx_grammar::{Cursor, ParseStop};
use cx_syntax::Lexeme;
use cx_tree::{Item, Stmt};
use sqlite_items::Boxed;
use std::alloc::Global;

/// The rules one level deeper than so many levels left.
pub trait Nested {
    ghost use Rattle.std.specs.Prelude.{ℕ};

    ghost ready: { Self → ℕ → Type 0 };

    /// A statement one level deeper.
    fn stmt(
        &self,
        alloc: Global,
        tokens: &mut Cursor<'_, Lexeme>,
        left: usize,
    ) -> Result<Boxed<Stmt>, ParseStop>
        requires ready { ready self.now left }
        requires room { spec.room left ≡ true }
        ensures { Reads ((deeper left).stmt tokens.old) result tokens.new };

    /// What stands in a block one level deeper.
    fn item(
        &self,
        alloc: Global,
        tokens: &mut Cursor<'_, Lexeme>,
        left: usize,
    ) -> Result<Boxed<Item>, ParseStop>
        requires ready { ready self.now left }
        requires room { spec.room left ≡ true }
        ensures { Reads ((deeper left).item tokens.old) result tokens.new };
}

/// The rules as functions, each called with one level less.
#[derive(Drop)]
pub struct Functions<S, I> {
    pub stmt: S,
    pub item: I,
}

impl<
    S: Fn(Global, &mut Cursor<'_, Lexeme>, usize) -> Result<Boxed<Stmt>, ParseStop>,
    I: Fn(Global, &mut Cursor<'_, Lexeme>, usize) -> Result<Boxed<Item>, ParseStop>,
> Nested for Functions<S, I> {
    ghost ready = { λ s left. Nests (λ n. spec.stmt n) left (S.pre s.stmt) (S.post s.stmt) × Nests (λ n. spec.item n) left (I.pre s.item) (I.post s.item) };

    fn stmt(
        &self,
        alloc: Global,
        tokens: &mut Cursor<'_, Lexeme>,
        left: usize,
    ) -> Result<Boxed<Stmt>, ParseStop> {
        (self.stmt)(alloc, tokens, left - 1)
    }

    fn item(
        &self,
        alloc: Global,
        tokens: &mut Cursor<'_, Lexeme>,
        left: usize,
    ) -> Result<Boxed<Item>, ParseStop> {
        (self.item)(alloc, tokens, left - 1)
    }
}

/// The rules with so many levels left, over those one level deeper.
#[derive(Drop)]
pub struct Statements<R> {
    pub alloc: Global,
    pub left: usize,
    pub rules: R,
}

impl<R> Statements<R> {
    /// Whether there is a level deeper.
    pub fn room(&self) -> bool
        ensures { result ≡ spec.room self.now.left }
    {
        self.left != 0
    }
}
