//! Attributes ([dcl.attr.grammar]) and `noexcept` ([except.spec]): no tree keeps them but for how many levels they nest.

ghost use Rattle.std.specs.Prelude.{◌≡◌};
ghost use Rattle.cx_grammar.specs.Reads.{Reads};
ghost use Rattle.cx_parser_vars.specs.Parts as parts;
ghost use Rattle.cx_syntax_parts.specs.Readers as spec;
ghost use Rattle.cx_syntax_parts.specs.Readers.{deeper_soup};

use crate::sets::{Plain, PlainIn, StartsSoup};
use cx_grammar::{Cursor, ParseStop};
use cx_syntax::{Class, Lexeme};

// Whether there is a level deeper.
fn room(left: usize) -> bool
    ensures { result ≡ (deeper_soup left).room }
{
    left != 0
}

// A token of an attribute, or a group with the tokens in it one level deeper.
#[cycle(soup)]
#[tactic(auto, unfolding(cx_syntax_parts::specs::Readers::soup_over))]
fn soup(tokens: &mut Cursor<'_, Lexeme>, left: usize) -> Result<usize, ParseStop>
    ensures { Reads (spec.soup left tokens.old) result tokens.new }
{
    if tokens.sees(&Plain) {
        return tokens.take(&PlainIn);
    }
    if tokens.sees(&Class::OpenParen) {
        return group(tokens, left, Class::OpenParen, Class::CloseParen);
    }
    if tokens.sees(&Class::OpenBracket) {
        return group(tokens, left, Class::OpenBracket, Class::CloseBracket);
    }
    group(tokens, left, Class::OpenBrace, Class::CloseBrace)
}

#[cycle(soup)]
fn group(
    tokens: &mut Cursor<'_, Lexeme>,
    left: usize,
    open: Class,
    close: Class,
) -> Result<usize, ParseStop>
    ensures { Reads (spec.group (deeper_soup left) «open» close tokens.old) result tokens.new }
{
    tokens.expect(&open)?;
    let levels = soups_below(tokens, left)?;
    tokens.expect(&close)?;
    Ok(levels)
}

#[cycle(soup)]
fn soups_below(tokens: &mut Cursor<'_, Lexeme>, left: usize) -> Result<usize, ParseStop>
    ensures { Reads (spec.soups_below (deeper_soup left) tokens.old) result tokens.new }
{
    let mut most: usize = 0;
    while tokens.sees(&StartsSoup) {
        most = most.max(soup_below(tokens, left)?);
    }
    Ok(most)
}

#[cycle(soup)]
fn soup_below(tokens: &mut Cursor<'_, Lexeme>, left: usize) -> Result<usize, ParseStop>
    ensures { Reads (parts.soup_below left tokens.old) result tokens.new }
{
    if !room(left) {
        return Err(tokens.too_deep());
    }
    Ok(1 + soup(tokens, left - 1)?)
}

fn soups(tokens: &mut Cursor<'_, Lexeme>, left: usize) -> Result<usize, ParseStop>
    ensures { Reads (spec.soups left tokens.old) result tokens.new }
{
    let mut most: usize = 0;
    while tokens.sees(&StartsSoup) {
        most = most.max(soup(tokens, left)?);
    }
    Ok(most)
}

/// One attribute: how many levels it nests.
#[tactic(auto, unfolding(cx_syntax_parts::specs::Readers::attribute))]
pub fn attribute(tokens: &mut Cursor<'_, Lexeme>, left: usize) -> Result<usize, ParseStop>
    ensures { Reads (spec.attribute left tokens.old) result tokens.new }
{
    tokens.expect(&Class::OpenBracket)?;
    tokens.expect(&Class::OpenBracket)?;
    let levels = soups(tokens, left)?;
    tokens.expect(&Class::CloseBracket)?;
    tokens.expect(&Class::CloseBracket)?;
    Ok(levels)
}

/// The number as the tree keeps it. More levels than that have no memory.
pub fn counted(levels: usize) -> Result<u32, ParseStop>
    ensures { parts.Counted levels result }
{
    match u32::try_from(levels) {
        Ok(levels) => Ok(levels),
        Err(_) => Err(ParseStop::Memory),
    }
}

/// Attributes with so many levels left, perhaps none: how many levels they nest.
#[inline(never)]
#[tactic(auto, unfolding(cx_syntax_parts::specs::Readers::attrs))]
pub fn attrs(tokens: &mut Cursor<'_, Lexeme>, left: usize) -> Result<u32, ParseStop>
    ensures { Reads (spec.attrs left tokens.old) result tokens.new }
{
    let mut most: usize = 0;
    while tokens.sees(&Class::OpenBracket) {
        most = most.max(attribute(tokens, left)?);
    }
    counted(most)
}

fn noex_soups(tokens: &mut Cursor<'_, Lexeme>, left: usize) -> Result<Option<usize>, ParseStop>
    ensures { Reads (spec.noex_soups left tokens.old) result tokens.new }
{
    if !tokens.sees(&Class::OpenParen) {
        return Ok(None);
    }
    tokens.expect(&Class::OpenParen)?;
    let levels = soups(tokens, left)?;
    tokens.expect(&Class::CloseParen)?;
    Ok(Some(levels))
}

/// `noexcept` with so many levels left, perhaps none: how many levels it nests.
#[inline(never)]
#[tactic(auto, unfolding(cx_syntax_parts::specs::Readers::noex))]
pub fn noex(tokens: &mut Cursor<'_, Lexeme>, left: usize) -> Result<u32, ParseStop>
    ensures { Reads (spec.noex left tokens.old) result tokens.new }
{
    if !tokens.sees(&Class::Noexcept) {
        return Ok(0);
    }
    tokens.expect(&Class::Noexcept)?;
    match noex_soups(tokens, left)? {
        Some(levels) => counted(levels),
        None => Ok(0),
    }
}
