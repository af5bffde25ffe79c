//! Whether further bytes can change what begins a rest of the text.
ghost use Rattle.std.specs.Prelude.{◌≡◌};
ghost use Rattle.cx_tokens.specs.Cut.{found_at};
ghost use Rattle.cx_tokens.specs.Decided.{is_decided};
ghost use Rattle.cx_tokens.specs.Shapes.{shape_of, shape_size};

use crate::bytes::{byte_at, rest_from};
use crate::scan::{Stop, place_of};
use crate::shapes::Shape;

fn size_of(shape: &Shape) -> usize
    ensures { result ≡ shape_size shape.now }
{
    match shape {
        Shape::White(size) => *size,
        Shape::Token(size, _) => *size,
        Shape::Faulty(size, _) => *size,
    }
}

/// Whether the piece with which the rest begins, of this shape, stays the same whatever bytes come behind the rest.
#[tactic(auto, using(crate::proofs::Sizes::size_is))]
pub fn is_decided(opens: bool, rest: &[u8], shape: &Shape) -> bool
    requires { shape.now ≡ shape_of (found_at opens rest.now) }
    ensures { result ≡ is_decided opens rest.now }
{
    let size = if opens && byte_at(rest, 0) == b'#' {
        1 + place_of(Stop::LineFeed, rest_from(rest, 1))
    } else {
        size_of(shape)
    };
    3 <= rest.len() && size <= rest.len() - 3
}
