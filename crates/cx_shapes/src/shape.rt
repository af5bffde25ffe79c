ghost use Rattle.std.specs.Prelude.{◌≡◌, ℕ, ◌+◌, ◌*◌, ◌^◌, ◌<◌, ◌≤◌, map, length, slice_get, Option, Some, None};
ghost use Rattle.cx_shapes.specs.Forms.{form_of, told, start_at, size, sizes};

use sqlite_items::{Boxed, Items};

/// What an object of a type is made of ([basic.types]). Beside a list of shapes stands where each of them ends, counted
/// in parts from the list's first on: so an item is found without a look at those before it.
#[derive(Drop)]
pub enum Shape {
    /// A scalar or a reference.
    Leaf,
    /// So many elements.
    Row(u32, Boxed<Shape>),
    /// Bases and their ends, members and their ends.
    Class(Items<Shape>, Items<u64>, Items<Shape>, Items<u64>),
    /// Members and their ends.
    Union(Items<Shape>, Items<u64>),
}

/// How many parts there are, itself and each element and member counted.
pub fn size_of(shape: &Shape) -> u64
    requires { size (form_of shape.now) < 2 ^ 62 }
    ensures { result ≡ size (form_of shape.now) }
{
    match shape {
        Shape::Leaf => 1,
        Shape::Row(count, element) => {
            if *count == 0 {
                1
            } else {
                1 + u64::from(*count) * size_of(element.get())
            }
        }
        Shape::Class(bases, base_ends, members, member_ends) => 1
            + sizes_of(bases.as_slice(), base_ends.as_slice())
            + sizes_of(members.as_slice(), member_ends.as_slice()),
        Shape::Union(members, ends) => 1 + sizes_of(members.as_slice(), ends.as_slice()),
    }
}

pub(crate) fn sizes_of(shapes: &[Shape], ends: &[u64]) -> u64
    requires { sizes (told ends.now (map form_of shapes.now)) < 2 ^ 62 }
    ensures { result ≡ sizes (told ends.now (map form_of shapes.now)) }
{
    before(ends, shapes.len())
}

/// Where an item begins.
pub(crate) fn before(ends: &[u64], index: usize) -> u64
    requires { index ≤ length ends.now }
    ensures { result ≡ start_at 0 ends.now index }
{
    if index == 0 { 0 } else { ends[index - 1] }
}
