//! What begins at a place of the text.
ghost use Rattle.std.specs.Prelude.{◌≡◌};
ghost use Rattle.cx_tokens.specs.Shapes.{shape_of};
ghost use Rattle.cx_tokens.specs.Cut.{found_at};

use crate::bytes::{begins_name, byte_at, is_blank, is_splice};
use crate::names::{is_quote, name};
use crate::numbers::{begins_number, number};
use crate::punctuators::punctuator;
use crate::quoted::quoted;
use crate::shapes::{Shape, broken};
use crate::space::{begins_block_comment, begins_line_comment, block_comment, hash, line_comment};
use cx_base::Rule;

/// The longest of its kind that begins here; `opens` says that only white space stands before it in its line.
#[tactic(auto, unfolding(crate::specs::Cut::found_at))]
pub fn found_at(opens: bool, rest: &[u8]) -> Shape
    ensures { result ≡ shape_of (found_at opens rest.now) }
{
    let first = byte_at(rest, 0);
    if is_blank(first) {
        Shape::White(1)
    } else if begins_name(first) {
        name(rest)
    } else if begins_number(rest) {
        number(rest)
    } else if is_quote(first) {
        quoted(rest)
    } else if begins_line_comment(rest) {
        line_comment(rest)
    } else if begins_block_comment(rest) {
        block_comment(rest)
    } else if first == b'#' {
        hash(opens, rest)
    } else if is_splice(rest) {
        broken(1, Rule::LeftOut)
    } else {
        punctuator(rest)
    }
}
