//! What stands at a part's number, and what one passes on the way to it.

ghost use Rattle.std.specs.Prelude.{◌≡◌, ◌&&◌, ◌||◌, ℕ, ◌+◌, ◌^◌, ◌<◌, List, Option, Some, None, MatchOption};
ghost use Rattle.cx_shapes.specs.Forms.{Form, Small, form_of, steps_at};
ghost use Rattle.cx_shapes.specs.Contents.{Cell, is_open, is_dead_class};
ghost use Rattle.cx_state.specs.Conditions.{is_dead_phase};
ghost use Rattle.cx_records.specs.Records.{content_at, cells_of, path_in};
ghost use Rattle.cx_records.specs.Walks.{Walked};
ghost use Rattle.cx_store.specs.Stores.{seen};

use crate::place::Place;
use crate::record::{Content, Contents};
use cx_shapes::{Shape, way_of};
use cx_state::{Phase, Scalar};
use cx_types::Step;

impl Contents {
    fn at(&self, number: u64) -> Option<Content>
        ensures { result ≡ content_at self.now number }
    {
        match self {
            Contents::Same(_) => None,
            Contents::Each(items) => items.get(number as usize).copied(),
        }
    }

    /// The value of a scalar.
    pub fn value(&self, number: u64) -> Scalar<Place>
        ensures { (fs : List Form) → seen (path_in fs) result ≡ (cells_of fs self.now number).value }
    {
        match self.at(number) {
            Some(Content::Value(value)) => value,
            _ => Scalar::Indeterminate,
        }
    }

    /// The phase of a class.
    pub fn phase(&self, number: u64) -> Phase
        ensures { (fs : List Form) → result ≡ (cells_of fs self.now number).phase }
    {
        match self {
            Contents::Same(phase) => *phase,
            Contents::Each(_) => match self.at(number) {
                Some(Content::Phase(phase)) => phase,
                _ => Phase::Unborn,
            },
        }
    }

    /// The active member of a union.
    pub fn member(&self, number: u64) -> Option<u32>
        ensures { (fs : List Form) → result ≡ (cells_of fs self.now number).member }
    {
        match self.at(number) {
            Some(Content::Member(member)) => Some(member),
            _ => None,
        }
    }
}

/// The shape of a part, whether it is there, and whether one passes a class that isn't alive on the way to it.
#[derive(Clone, Copy, Drop)]
pub struct Standing<'a> {
    pub shape: &'a Shape,
    pub there: bool,
    pub dead: bool,
}

/// Whether both are so.
pub fn both(a: bool, b: bool) -> bool
    ensures { result ≡ (a && b) }
{
    a && b
}

/// Whether one of them is so.
pub fn either(a: bool, b: bool) -> bool
    ensures { result ≡ (a || b) }
{
    a || b
}

/// Whether the step leads to a part that is there, by the union's active member.
pub fn open_at(shape: &Shape, member: Option<u32>, step: Step) -> bool
    ensures { (c : Cell) → c.member ≡ member → result ≡ is_open (form_of shape.now) c step }
{
    match (shape, step) {
        (Shape::Union(..), Step::Field(index)) => member == Some(index),
        _ => true,
    }
}

/// Whether the phase is that of a class whose lifetime hasn't begun, or has ended ([basic.life]).
pub fn is_dead_phase(phase: Phase) -> bool
    ensures { result ≡ is_dead_phase phase }
{
    matches!(phase, Phase::Unborn | Phase::Ended)
}

/// Whether there is a class that isn't alive.
pub fn dead_at(shape: &Shape, phase: Phase) -> bool
    ensures { (c : Cell) → c.phase ≡ phase → result ≡ is_dead_class (form_of shape.now) c }
{
    match shape {
        Shape::Class(..) => is_dead_phase(phase),
        _ => false,
    }
}

/// What stands at a number, counted from a shape with number `base`; None where the number is no part's.
pub fn walk<'a>(shape: &'a Shape, contents: &Contents, base: u64, rest: u64) -> Option<Standing<'a>>
    requires few { base + rest < 2 ^ 62 }
    requires small { Small (form_of shape.now) }
    ensures { MatchOption result (steps_at (form_of shape.now) rest ≡ None) (λ s. ((fs : List Form) → Walked (form_of shape.now) (cells_of fs contents.now) base rest (form_of s.shape.now) s.there s.dead) × Small (form_of s.shape.now)) }
{
    if rest == 0 {
        return Some(Standing {
            shape,
            there: true,
            dead: false,
        });
    }
    match way_of(shape, rest - 1) {
        None => None,
        Some(way) => {
            let here = open_at(shape, contents.member(base), way.step);
            let dead = dead_at(shape, contents.phase(base));
            match walk(way.shape, contents, base + way.from, rest - way.from) {
                None => None,
                Some(standing) => Some(Standing {
                    shape: standing.shape,
                    there: both(here, standing.there),
                    dead: either(dead, both(here, standing.dead)),
                }),
            }
        }
    }
}
