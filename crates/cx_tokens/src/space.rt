//! White space: comments and marker lines.
ghost use Rattle.std.specs.Prelude.{◌≡◌};
ghost use Rattle.cx_tokens.specs.Pieces.{white, unless_faulty};
ghost use Rattle.cx_tokens.specs.Shapes.{shape_of};
ghost use Rattle.cx_tokens.specs.Space.{begins_block_comment, begins_line_comment, block_comment, hash, is_marker, line_comment, splices};

use crate::bytes::{byte_at, front_of, is_digit, rest_from};
use crate::scan::{Stop, place_of, place_within};
use crate::shapes::{Flaw, Shape, broken};
use cx_base::Rule;

pub fn begins_line_comment(rest: &[u8]) -> bool
    ensures { result ≡ begins_line_comment rest.now }
{
    byte_at(rest, 0) == b'/' && byte_at(rest, 1) == b'/'
}

pub fn begins_block_comment(rest: &[u8]) -> bool
    ensures { result ≡ begins_block_comment rest.now }
{
    byte_at(rest, 0) == b'/' && byte_at(rest, 1) == b'*'
}

// So many bytes of white space, unless a line is spliced among them.
fn unless_spliced(rest: &[u8], size: usize) -> Shape
    ensures { result ≡ shape_of (unless_faulty (splices size rest.now) (white size)) }
{
    let at = place_within(Stop::Splice, rest, size);
    if at < size && at < rest.len() {
        let flaw = Flaw {
            start: at,
            size: 1,
            rule: Rule::LeftOut,
        };
        Shape::Faulty(size, flaw)
    } else {
        Shape::White(size)
    }
}

#[tactic(auto, unfolding(crate::specs::Space::line_comment))]
pub fn line_comment(rest: &[u8]) -> Shape
    ensures { result ≡ shape_of (line_comment rest.now) }
{
    unless_spliced(rest, 2 + place_of(Stop::LineFeed, rest_from(rest, 2)))
}

#[tactic(auto, unfolding(crate::specs::Space::block_comment))]
pub fn block_comment(rest: &[u8]) -> Shape
    ensures { result ≡ shape_of (block_comment rest.now) }
{
    let inner = rest_from(rest, 2);
    let body = place_of(Stop::CommentEnd, inner);
    if body < inner.len() {
        unless_spliced(rest, body + 4)
    } else {
        let flaw = Flaw {
            start: 0,
            size: 2,
            rule: Rule::OpenComment,
        };
        Shape::Faulty(body + 2, flaw)
    }
}

fn is_marker(rest: &[u8]) -> bool
    ensures { result ≡ is_marker rest.now }
{
    let behind = rest_from(rest, 1);
    let behind = rest_from(behind, place_of(Stop::NotSpaceOrTab, behind));
    let word = front_of(behind, place_of(Stop::NotName, behind));
    is_digit(byte_at(behind, 0)) || (word == b"pragma".as_slice() || word == b"line".as_slice())
}

#[tactic(auto, unfolding(crate::specs::Space::hash))]
pub fn hash(opens: bool, rest: &[u8]) -> Shape
    ensures { result ≡ shape_of (hash opens rest.now) }
{
    if opens && is_marker(rest) {
        Shape::White(1 + place_of(Stop::LineFeed, rest_from(rest, 1)))
    } else {
        broken(1, Rule::Directive)
    }
}
