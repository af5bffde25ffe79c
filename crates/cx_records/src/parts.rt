//! From a place to the places of its parts ([expr.ref], [expr.sub], [class.derived]).

ghost use Rattle.std.specs.Prelude.{◌≡◌, ◌<◌, ◌≤◌, ◌^◌, ℕ, List, false, length, Some, option_and_then, slice_get, IfOk};
ghost use Rattle.cx_state.specs.Conditions.{broken};
ghost use Rattle.cx_state.specs.Conditions as on;
ghost use Rattle.cx_state.specs.Steps as steps;
ghost use Rattle.cx_state.specs.Forms.{Knows};
ghost use Rattle.cx_store.specs.Stores as says;
ghost use Rattle.cx_store.specs.Stores.{result_seen};
ghost use Rattle.cx_type_defs.specs.declared.ids.Step.{Step as StepOf};
ghost use Rattle.std.specs.Prelude.{[]};
ghost use Rattle.cx_shapes.specs.Forms.{Small, form_of, steps_at};
ghost use Rattle.cx_records.specs.Records.{objects_of, forms_in, path_in, marked};
ghost use Rattle.cx_records.specs.Fits.{Fits};
ghost use Rattle.cx_records.specs.Parts.{IsPartAt, row_count};

use crate::check::first_broken;
use crate::place::{End, Place};
use crate::store::Records;
use cx_base::Rule;
use cx_shapes::{Shape, part_at, way_of};
use cx_types::{Step, Types};

impl Records {
    /// The rule that a step from a place to a part of it breaks.
    pub fn part_rule(&self, types: &Types, at: Place) -> Option<Rule>
        requires fits { Fits types.now self.now.records.items self.now.live }
        requires known { Knows types.now (objects_of self.now.records.items) (path_in (forms_in self.now.records.items) at) }
        ensures { result ≡ broken types.now (objects_of self.now.records.items) (path_in (forms_in self.now.records.items) at) on.Part }
    {
        let condition = self.condition(types, at);
        first_broken(&[
            (condition.released, Rule::Dangling),
            (condition.past, Rule::PastEnd),
        ])
    }

    /// The place of a part that there is.
    pub fn part(&self, types: &Types, at: Place, step: Step) -> Place
        requires fits { Fits types.now self.now.records.items self.now.live }
        requires known { Knows types.now (objects_of self.now.records.items) (path_in (forms_in self.now.records.items) at) }
        requires there { IsPartAt self.now.records.items at step }
        ensures gives { path_in (forms_in self.now.records.items) result ≡ steps.deeper (path_in (forms_in self.now.records.items) at) step false }
        ensures known { Knows types.now (objects_of self.now.records.items) (path_in (forms_in self.now.records.items) result) }
    {
        let shape = self.found(types, at).shape;
        match part_at(shape, step) {
            Some(piece) => Place {
                object: at.object,
                part: at.part + piece.from,
                end: End::At,
            },
            None => unreachable!(),
        }
    }

    /// The place of a member.
    pub fn field_at(&self, types: &Types, at: Place, index: u32) -> Result<Place, Rule>
        requires fits { Fits types.now self.now.records.items self.now.live }
        requires known { Knows types.now (objects_of self.now.records.items) (path_in (forms_in self.now.records.items) at) }
        requires there { says.HasField types.now (objects_of self.now.records.items) (path_in (forms_in self.now.records.items) at) index }
        ensures gives { result_seen (path_in (forms_in self.now.records.items)) result ≡ steps.to_field types.now (objects_of self.now.records.items) (path_in (forms_in self.now.records.items) at) index }
        ensures known { IfOk result (λ p. Knows types.now (objects_of self.now.records.items) (path_in (forms_in self.now.records.items) p)) }
    {
        match self.part_rule(types, at) {
            Some(rule) => Err(rule),
            None => Ok(self.part(types, at, Step::Field(index))),
        }
    }

    /// The place of a base.
    pub fn base_at(&self, types: &Types, at: Place, index: u32) -> Result<Place, Rule>
        requires fits { Fits types.now self.now.records.items self.now.live }
        requires known { Knows types.now (objects_of self.now.records.items) (path_in (forms_in self.now.records.items) at) }
        requires there { says.HasBase types.now (objects_of self.now.records.items) (path_in (forms_in self.now.records.items) at) index }
        ensures gives { result_seen (path_in (forms_in self.now.records.items)) result ≡ steps.to_base types.now (objects_of self.now.records.items) (path_in (forms_in self.now.records.items) at) index }
        ensures known { IfOk result (λ p. Knows types.now (objects_of self.now.records.items) (path_in (forms_in self.now.records.items) p)) }
    {
        match self.part_rule(types, at) {
            Some(rule) => Err(rule),
            None => Ok(self.part(types, at, Step::Base(index))),
        }
    }

    /// The place of an element, or past the last one.
    pub fn elem_at(&self, types: &Types, at: Place, index: u32) -> Result<Place, Rule>
        requires fits { Fits types.now self.now.records.items self.now.live }
        requires known { Knows types.now (objects_of self.now.records.items) (path_in (forms_in self.now.records.items) at) }
        requires there { says.HasElem types.now (objects_of self.now.records.items) (path_in (forms_in self.now.records.items) at) index }
        ensures gives { result_seen (path_in (forms_in self.now.records.items)) result ≡ steps.to_elem types.now (objects_of self.now.records.items) (path_in (forms_in self.now.records.items) at) index }
        ensures known { IfOk result (λ p. Knows types.now (objects_of self.now.records.items) (path_in (forms_in self.now.records.items) p)) }
    {
        match self.part_rule(types, at) {
            Some(rule) => Err(rule),
            None => {
                if elements(self.found(types, at).shape) == index {
                    Ok(Place {
                        object: at.object,
                        part: at.part,
                        end: End::Last,
                    })
                } else {
                    Ok(self.part(types, at, Step::Elem(index)))
                }
            }
        }
    }

    /// Step k of a place's path, from 0.
    pub fn step_at(&self, types: &Types, at: Place, k: u32) -> Option<Step>
        requires fits { Fits types.now self.now.records.items self.now.live }
        requires known { Knows types.now (objects_of self.now.records.items) (path_in (forms_in self.now.records.items) at) }
        ensures step { result ≡ slice_get (path_in (forms_in self.now.records.items) at).steps k }
    {
        nth_step(&self.record(at).shape, at.end, at.part, k)
    }
}

fn elements(shape: &Shape) -> u32
    ensures { result ≡ row_count (form_of shape.now) }
{
    match shape {
        Shape::Row(count, _) => *count,
        _ => 0,
    }
}

fn last_step(shape: &Shape, end: End, k: u32) -> Option<Step>
    ensures { (us : List StepOf) → marked (form_of shape.now) end [] ≡ Some us → result ≡ slice_get us k }
{
    match (shape, end) {
        (Shape::Row(count, _), End::Last) => {
            if k == 0 {
                Some(Step::Elem(*count))
            } else {
                None
            }
        }
        _ => None,
    }
}

fn nth_step(shape: &Shape, end: End, rest: u64, k: u32) -> Option<Step>
    requires few { rest < 2 ^ 62 }
    requires small { Small (form_of shape.now) }
    ensures { (us : List StepOf) → option_and_then (marked (form_of shape.now) end) (steps_at (form_of shape.now) rest) ≡ Some us → result ≡ slice_get us k }
{
    if rest == 0 {
        return last_step(shape, end, k);
    }
    match way_of(shape, rest - 1) {
        None => None,
        Some(way) => {
            if k == 0 {
                Some(way.step)
            } else {
                nth_step(way.shape, end, rest - way.from, k - 1)
            }
        }
    }
}
