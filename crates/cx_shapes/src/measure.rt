//! Whether a shape is small enough for the numbers of the code.

ghost use Rattle.std.specs.Prelude.{◌≡◌, ℕ, ◌+◌, ◌*◌, ◌^◌, ◌<◌, map, Option, Some, None, IfSome};
ghost use Rattle.cx_shapes.specs.Forms.{form_of, told, size, sizes, nodes, nodes_in};

use crate::shape::Shape;

/// How many parts a shape has, and how many shapes there are in it.
#[derive(Clone, Copy, Drop)]
pub struct Measure {
    pub parts: u64,
    pub nodes: u32,
}

fn within(parts: u128, nodes: u64) -> Option<Measure>
    ensures { IfSome result (λ m. (m.parts ≡ parts) × (m.nodes ≡ nodes) × (parts < 2 ^ 62) × (nodes < 2 ^ 32)) }
{
    if parts < (1 << 62) && nodes < (1 << 32) {
        Some(Measure {
            parts: parts as u64,
            nodes: nodes as u32,
        })
    } else {
        None
    }
}

/// The measure of a shape that is small enough; None may come only for one of which a part isn't.
#[cycle(measured)]
pub fn measured(shape: &Shape) -> Option<Measure>
    ensures { IfSome result (λ m. (m.parts ≡ size (form_of shape.now)) × (m.nodes ≡ nodes (form_of shape.now)) × (size (form_of shape.now) < 2 ^ 62) × (nodes (form_of shape.now) < 2 ^ 32)) }
{
    match shape {
        Shape::Leaf => within(1, 1),
        Shape::Row(count, element) => {
            let element = measured(element.get())?;
            within(
                1 + u128::from(*count) * u128::from(element.parts),
                1 + u64::from(element.nodes),
            )
        }
        Shape::Class(bases, base_ends, members, member_ends) => {
            let bases = all_measured(bases.as_slice(), base_ends.as_slice())?;
            let members = all_measured(members.as_slice(), member_ends.as_slice())?;
            within(
                1 + u128::from(bases.parts) + u128::from(members.parts),
                1 + u64::from(bases.nodes) + u64::from(members.nodes),
            )
        }
        Shape::Union(members, ends) => {
            let members = all_measured(members.as_slice(), ends.as_slice())?;
            within(1 + u128::from(members.parts), 1 + u64::from(members.nodes))
        }
    }
}

#[cycle(measured)]
#[tactic(auto, using(crate::proofs::Counting::sizes_more, crate::proofs::Counting::nodes_more))]
fn all_measured(shapes: &[Shape], ends: &[u64]) -> Option<Measure>
    ensures { IfSome result (λ m. (m.parts ≡ sizes (told ends.now (map form_of shapes.now))) × (m.nodes ≡ nodes_in (told ends.now (map form_of shapes.now))) × (m.parts < 2 ^ 62)) }
{
    if shapes.len() != ends.len() {
        return None;
    }
    let mut total = Measure { parts: 0, nodes: 0 };
    for (i, shape) in shapes.iter().enumerate() {
        let next = measured(shape)?;
        total = within(
            u128::from(total.parts) + u128::from(next.parts),
            u64::from(total.nodes) + u64::from(next.nodes),
        )?;
        if ends[i] != total.parts {
            return None;
        }
    }
    Some(total)
}
