//! From a number to the part that has it, and back.

ghost use Rattle.std.specs.Prelude.{◌≡◌, ℕ, suc, ◌+◌, ◌/◌, ◌*◌, ◌^◌, ◌<◌, ◌≤◌, map, length, slice_get, Option, Some, None, option_map, IfSome, MatchOption};
ghost use Rattle.cx_shapes.specs.Forms.{form_of, told, start_at, size, sizes, nodes_in, Small, AllSmall, Form, Row, item, search, by, further, part_of, way, steps_at, below_of, Leads, Stands};
ghost use Rattle.cx_type_defs.specs.declared.ids.Step.TheVariants as Step;
ghost use Rattle.std.specs.List.Sorted.{IsNonDecreasing};
ghost use Rattle.cx_shapes.specs.Ways.{piece_seen, found_seen, way_seen};

use crate::shape::{Shape, before, size_of, sizes_of};
use cx_types::Step;

/// A part of a shape: its number there, and its shape.
#[derive(Clone, Copy, Drop)]
pub struct Piece<'a> {
    pub from: u64,
    pub shape: &'a Shape,
}

/// An item of a list: its index, its number from the list's first on, and its shape.
#[derive(Clone, Copy, Drop)]
struct Found<'a> {
    index: u32,
    from: u64,
    shape: &'a Shape,
}

/// A step to a part, and the part.
#[derive(Clone, Copy, Drop)]
pub struct Way<'a> {
    pub step: Step,
    pub from: u64,
    pub shape: &'a Shape,
}

/// The item with an index.
fn item_at<'a>(shapes: &'a [Shape], ends: &[u64], index: u32) -> Option<Piece<'a>>
    requires { AllSmall (told ends.now (map form_of shapes.now)) }
    ensures gives { option_map piece_seen result ≡ item (told ends.now (map form_of shapes.now)) index }
    ensures within { IfSome result (λ p. p.from + size (form_of p.shape.now) ≤ sizes (told ends.now (map form_of shapes.now))) }
{
    match sqlite_items::at(shapes, index as usize) {
        None => None,
        Some(shape) => Some(Piece {
            from: before(ends, index as usize),
            shape,
        }),
    }
}

/// The first item that ends behind a number; the length of the list where none does.
fn index_at(ends: &[u64], at: u64) -> usize
    requires { IsNonDecreasing ends.now }
    ensures bound { result ≤ length ends.now }
    ensures from { start_at 0 ends.now result ≤ at }
    ensures behind { result < length ends.now → at < start_at 0 ends.now (suc result) }
{
    ends.partition_point(|end| *end <= at)
}

/// The item that holds a number.
fn search_at<'a>(shapes: &'a [Shape], ends: &[u64], at: u64) -> Option<Found<'a>>
    requires { AllSmall (told ends.now (map form_of shapes.now)) }
    ensures gives { option_map found_seen result ≡ search (told ends.now (map form_of shapes.now)) at }
    ensures within { IfSome result (λ x. x.from ≤ at) }
    ensures few { IfSome result (λ x. x.index < nodes_in (told ends.now (map form_of shapes.now))) }
{
    let index = index_at(ends, at);
    match sqlite_items::at(shapes, index) {
        None => None,
        Some(shape) => Some(Found {
            index: index as u32,
            from: before(ends, index),
            shape,
        }),
    }
}

// an element of so many, by its number
#[tactic(auto, using(crate::proofs::Ways::quotient_small, crate::proofs::Ways::quotient_fits, crate::proofs::Numbering::size_pos))]
fn row_way(count: u32, element: &Shape, at: u64) -> Option<Way<'_>>
    requires { count * size (form_of element.now) < 2 ^ 62 }
    ensures { option_map way_seen result ≡ way (Row count (form_of element.now)) at }
{
    if count == 0 {
        return None;
    }
    let size = size_of(element);
    if at < u64::from(count) * size {
        let index = at / size;
        Some(Way {
            step: Step::Elem(index as u32),
            from: index * size + 1,
            shape: element,
        })
    } else {
        None
    }
}

fn base_way(found: Option<Found<'_>>) -> Option<Way<'_>>
    requires { IfSome found (λ x. x.from < 2 ^ 62) }
    ensures { option_map way_seen result ≡ option_map (by Step.Base 1) (option_map found_seen found.entry) }
{
    match found {
        None => None,
        Some(found) => Some(Way {
            step: Step::Base(found.index),
            from: found.from + 1,
            shape: found.shape,
        }),
    }
}

fn field_way(found: Option<Found<'_>>, before: u64) -> Option<Way<'_>>
    requires few { before < 2 ^ 62 }
    requires within { IfSome found (λ x. x.from < 2 ^ 62) }
    ensures { option_map way_seen result ≡ option_map (by Step.Field (suc before)) (option_map found_seen found.entry) }
{
    match found {
        None => None,
        Some(found) => Some(Way {
            step: Step::Field(found.index),
            from: before + 1 + found.from,
            shape: found.shape,
        }),
    }
}

fn way_in(shape: &Shape, at: u64) -> Option<Way<'_>>
    requires few { at < 2 ^ 62 }
    requires small { Small (form_of shape.now) }
    ensures { option_map way_seen result ≡ way (form_of shape.now) at }
{
    match shape {
        Shape::Leaf => None,
        Shape::Row(count, element) => row_way(*count, element.get(), at),
        Shape::Class(bases, base_ends, members, member_ends) => {
            let before = sizes_of(bases.as_slice(), base_ends.as_slice());
            if at < before {
                base_way(search_at(bases.as_slice(), base_ends.as_slice(), at))
            } else {
                field_way(
                    search_at(members.as_slice(), member_ends.as_slice(), at - before),
                    before,
                )
            }
        }
        Shape::Union(members, ends) => {
            field_way(search_at(members.as_slice(), ends.as_slice(), at), 0)
        }
    }
}

fn moved(piece: Option<Piece<'_>>, by: u64) -> Option<Piece<'_>>
    requires few { by ≤ 2 ^ 62 }
    requires within { IfSome piece (λ p. p.from < 2 ^ 62) }
    ensures { option_map piece_seen result ≡ option_map (further by) (option_map piece_seen piece.entry) }
{
    match piece {
        None => None,
        Some(piece) => Some(Piece {
            from: by + piece.from,
            shape: piece.shape,
        }),
    }
}

#[tactic(auto, using(crate::proofs::Ways::multiple_fits, crate::proofs::Numbering::size_pos))]
fn element_at(count: u32, element: &Shape, index: u32) -> Option<Piece<'_>>
    requires { count * size (form_of element.now) < 2 ^ 62 }
    ensures { option_map piece_seen result ≡ part_of (Row count (form_of element.now)) (Step.Elem index) }
{
    if index < count {
        Some(Piece {
            from: u64::from(index) * size_of(element) + 1,
            shape: element,
        })
    } else {
        None
    }
}

fn base_at<'a>(bases: &'a [Shape], ends: &[u64], index: u32) -> Option<Piece<'a>>
    requires { AllSmall (told ends.now (map form_of bases.now)) }
    ensures { option_map piece_seen result ≡ option_map (further 1) (item (told ends.now (map form_of bases.now)) index) }
{
    moved(item_at(bases, ends, index), 1)
}

fn field_at<'a>(members: &'a [Shape], ends: &[u64], index: u32, before: u64) -> Option<Piece<'a>>
    requires few { before < 2 ^ 62 }
    requires small { AllSmall (told ends.now (map form_of members.now)) }
    ensures { option_map piece_seen result ≡ option_map (further (suc before)) (item (told ends.now (map form_of members.now)) index) }
{
    moved(item_at(members, ends, index), before + 1)
}

/// The part that a step leads to; None where it leads to none.
pub fn part_at(shape: &Shape, step: Step) -> Option<Piece<'_>>
    requires { Small (form_of shape.now) }
    ensures { option_map piece_seen result ≡ part_of (form_of shape.now) step }
{
    match (shape, step) {
        (Shape::Row(count, element), Step::Elem(index)) => element_at(*count, element.get(), index),
        (Shape::Class(bases, ends, _, _), Step::Base(index)) => {
            base_at(bases.as_slice(), ends.as_slice(), index)
        }
        (Shape::Class(bases, base_ends, members, member_ends), Step::Field(index)) => {
            let before = sizes_of(bases.as_slice(), base_ends.as_slice());
            field_at(members.as_slice(), member_ends.as_slice(), index, before)
        }
        (Shape::Union(members, ends), Step::Field(index)) => {
            field_at(members.as_slice(), ends.as_slice(), index, 0)
        }
        _ => None,
    }
}

/// The step to the part that holds a number, which is counted from the first part on, and that part; None where the
/// number is no part's.
pub fn way_of(shape: &Shape, at: u64) -> Option<Way<'_>>
    requires few { at < 2 ^ 62 }
    requires small { Small (form_of shape.now) }
    ensures gives { option_map way_seen result ≡ way (form_of shape.now) at }
    ensures leads { IfSome result (λ w. Leads (form_of shape.now) at (way_seen w)) }
    ensures small { IfSome result (λ w. Small (form_of w.shape.now)) }
{
    way_in(shape, at)
}

/// The shape of the part with a number; None where the number is no part's.
pub fn seek(shape: &Shape, at: u64) -> Option<&Shape>
    requires few { at < 2 ^ 62 }
    requires small { Small (form_of shape.now) }
    ensures { MatchOption result (steps_at (form_of shape.now) at ≡ None) (λ s. Stands (form_of shape.now) at (form_of s.now) × Small (form_of s.now)) }
{
    if at == 0 {
        return Some(shape);
    }
    match way_of(shape, at - 1) {
        None => None,
        Some(way) => seek(way.shape, at - way.from),
    }
}
