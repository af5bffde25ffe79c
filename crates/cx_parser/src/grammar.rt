//! The rules over those one level deeper.

ghost use Rattle.std.specs.Prelude.{◌≡◌, true};
ghost use Rattle.cx_grammar.specs.Reads.{Reads};
ghost use Rattle.cx_parser.specs.Below.{Below};
ghost use Rattle.cx_syntax.specs.Readers.{deeper};

use cx_grammar::{Cursor, ParseStop};
use cx_syntax::Lexeme;
use cx_tree::{Braces, Expr};
use sqlite_items::Boxed;
use std::alloc::Global;

/// The rules one level deeper than so many levels left.
pub trait Deeper {
    ghost use Rattle.std.specs.Prelude.{ℕ};

    ghost ready: { Self → ℕ → Type 0 };

    /// An expression.
    fn expr(
        &self,
        alloc: Global,
        tokens: &mut Cursor<'_, Lexeme>,
        left: usize,
    ) -> Result<Boxed<Expr>, ParseStop>
        requires ready { ready self.now left }
        requires room { (deeper left).room ≡ true }
        ensures { Reads ((deeper left).expr tokens.old) result tokens.new };

    /// An assignment expression.
    fn assign(
        &self,
        alloc: Global,
        tokens: &mut Cursor<'_, Lexeme>,
        left: usize,
    ) -> Result<Boxed<Expr>, ParseStop>
        requires ready { ready self.now left }
        requires room { (deeper left).room ≡ true }
        ensures { Reads ((deeper left).assign tokens.old) result tokens.new };

    /// A conditional expression.
    fn cond(
        &self,
        alloc: Global,
        tokens: &mut Cursor<'_, Lexeme>,
        left: usize,
    ) -> Result<Boxed<Expr>, ParseStop>
        requires ready { ready self.now left }
        requires room { (deeper left).room ≡ true }
        ensures { Reads ((deeper left).cond tokens.old) result tokens.new };

    /// A cast.
    fn cast(
        &self,
        alloc: Global,
        tokens: &mut Cursor<'_, Lexeme>,
        left: usize,
    ) -> Result<(Boxed<Expr>, bool), ParseStop>
        requires ready { ready self.now left }
        requires room { (deeper left).room ≡ true }
        ensures { Reads ((deeper left).cast tokens.old) result tokens.new };

    /// An operand.
    fn unary(
        &self,
        alloc: Global,
        tokens: &mut Cursor<'_, Lexeme>,
        left: usize,
    ) -> Result<(Boxed<Expr>, bool), ParseStop>
        requires ready { ready self.now left }
        requires room { (deeper left).room ≡ true }
        ensures { Reads ((deeper left).unary tokens.old) result tokens.new };

    /// Clauses in braces.
    fn braces(
        &self,
        alloc: Global,
        tokens: &mut Cursor<'_, Lexeme>,
        left: usize,
    ) -> Result<Braces, ParseStop>
        requires ready { ready self.now left }
        requires room { (deeper left).room ≡ true }
        ensures { Reads ((deeper left).braces tokens.old) result tokens.new };
}

/// A rule for an expression.
#[derive(Clone, Copy)]
pub enum ExprRule {
    Expr,
    Assign,
    Cond,
}

/// A rule for an operand.
#[derive(Clone, Copy)]
pub enum OperandRule {
    Cast,
    Unary,
}

/// The rules as functions, each called with one level less.
#[derive(Drop)]
pub struct Functions<E, O, B> {
    pub expr: E,
    pub operand: O,
    pub braces: B,
}

impl<
    E: Fn(Global, &mut Cursor<'_, Lexeme>, usize, ExprRule) -> Result<Boxed<Expr>, ParseStop>,
    O: Fn(
        Global,
        &mut Cursor<'_, Lexeme>,
        usize,
        OperandRule,
    ) -> Result<(Boxed<Expr>, bool), ParseStop>,
    B: Fn(Global, &mut Cursor<'_, Lexeme>, usize) -> Result<Braces, ParseStop>,
> Deeper for Functions<E, O, B> {
    ghost ready = { λ s left. Below left (E.pre s.expr) (E.post s.expr) (O.pre s.operand) (O.post s.operand) (B.pre s.braces) (B.post s.braces) };

    fn expr(
        &self,
        alloc: Global,
        tokens: &mut Cursor<'_, Lexeme>,
        left: usize,
    ) -> Result<Boxed<Expr>, ParseStop> {
        (self.expr)(alloc, tokens, left - 1, ExprRule::Expr)
    }

    fn assign(
        &self,
        alloc: Global,
        tokens: &mut Cursor<'_, Lexeme>,
        left: usize,
    ) -> Result<Boxed<Expr>, ParseStop> {
        (self.expr)(alloc, tokens, left - 1, ExprRule::Assign)
    }

    fn cond(
        &self,
        alloc: Global,
        tokens: &mut Cursor<'_, Lexeme>,
        left: usize,
    ) -> Result<Boxed<Expr>, ParseStop> {
        (self.expr)(alloc, tokens, left - 1, ExprRule::Cond)
    }

    fn cast(
        &self,
        alloc: Global,
        tokens: &mut Cursor<'_, Lexeme>,
        left: usize,
    ) -> Result<(Boxed<Expr>, bool), ParseStop> {
        (self.operand)(alloc, tokens, left - 1, OperandRule::Cast)
    }

    fn unary(
        &self,
        alloc: Global,
        tokens: &mut Cursor<'_, Lexeme>,
        left: usize,
    ) -> Result<(Boxed<Expr>, bool), ParseStop> {
        (self.operand)(alloc, tokens, left - 1, OperandRule::Unary)
    }

    fn braces(
        &self,
        alloc: Global,
        tokens: &mut Cursor<'_, Lexeme>,
        left: usize,
    ) -> Result<Braces, ParseStop> {
        (self.braces)(alloc, tokens, left - 1)
    }
}

/// The rules with so many levels left, over those one level deeper.
#[derive(Drop)]
pub struct Grammar<R> {
    pub alloc: Global,
    pub left: usize,
    pub rules: R,
}

impl<R: Deeper> Grammar<R> {
    /// Whether there is a level deeper.
    pub fn room(&self) -> bool
        ensures { result ≡ (deeper self.now.left).room }
    {
        self.left != 0
    }

    /// Whether there are two.
    pub fn room_for_two(&self) -> bool
        ensures { result ≡ (deeper self.now.left).room_for_two }
    {
        self.left > 1
    }
}
