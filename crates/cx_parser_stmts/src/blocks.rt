//! Blocks ([stmt.block]).

ghost use Rattle.std.specs.Prelude.{◌≡◌};
ghost use Rattle.cx_grammar.specs.Reads.{Reads};
ghost use Rattle.cx_parser_stmts.specs.Parts as parts;
ghost use Rattle.cx_syntax_stmts.specs.Readers as spec;

use crate::exprs::place;
use crate::sets::StartsItem;
use crate::statements::{Nested, Statements};
use cx_grammar::{Cursor, ParseStop, Part, read_many};
use cx_syntax::{Class, Lexeme, span_of};
use cx_tree::{Block, Item};

impl<R: Nested> Statements<R> {
    /// A block ([stmt.block]).
    #[inline(never)]
    #[tactic(auto, unfolding(cx_syntax_stmts::specs::Readers::block_with))]
    pub fn block(&self, tokens: &mut Cursor<'_, Lexeme>) -> Result<Block, ParseStop>
        requires ready { R.ready self.now.rules self.now.left }
        ensures { Reads (spec.block self.now.left tokens.old) result tokens.new }
    {
        let from = tokens.rest();
        tokens.expect(&Class::OpenBrace)?;
        let items = read_many(
            self.alloc,
            tokens,
            &StartsItem,
            &ItemPart { statements: self },
        )?;
        let close = place(tokens, Class::CloseBrace)?;
        Ok(Block {
            items,
            close,
            span: span_of(tokens.since(from)),
        })
    }
}

/// What stands in a block, as a part that a loop reads.
#[derive(Drop)]
struct ItemPart<'g, R> {
    statements: &'g Statements<R>,
}

impl<'g, R: Nested> Part<Lexeme> for ItemPart<'g, R> {
    type Value = Item;

    ghost ready = { λ s. R.ready s.statements.now.rules s.statements.now.left };

    ghost reader = { λ s. parts.item_there s.statements.now.left };

    fn read(&self, tokens: &mut Cursor<'_, Lexeme>) -> Result<Item, ParseStop> {
        let statements = self.statements;
        if !statements.room() {
            return Err(tokens.too_deep());
        }
        let item = statements
            .rules
            .item(statements.alloc, tokens, statements.left)?;
        Ok(item.into_inner())
    }
}
