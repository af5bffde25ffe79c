//! Reading ([conv.lval], [class.union], [expr.ref]).

ghost use Rattle.std.specs.Prelude.{◌≡◌, ◌&&◌, ◌<◌, length, IfOk};
ghost use Rattle.cx_state.specs.Steps as steps;
ghost use Rattle.cx_state.specs.Forms.{Knows, KnowsIn};
ghost use Rattle.cx_store.specs.Stores as says;
ghost use Rattle.cx_store.specs.Stores.{result_seen, seen};
ghost use Rattle.cx_records.specs.Records.{objects_of, forms_in, path_in};
ghost use Rattle.cx_records.specs.Fits.{Fits};
ghost use Rattle.cx_records.specs.Checks.{is_nothing, HasMember};

use crate::check::first_broken;
use crate::place::Place;
use crate::store::Records;
use crate::walk::both;
use cx_base::Rule;
use cx_shapes::part_at;
use cx_store::Scalar;
use cx_types::{Step, Types};

fn is_nothing(value: Scalar<Place>) -> bool
    ensures { result ≡ is_nothing value }
{
    matches!(value, Scalar::Indeterminate)
}

impl Records {
    /// The value of a scalar or reference.
    pub fn load_at(&self, types: &Types, at: Place) -> Result<Scalar<Place>, Rule>
        requires fits { Fits types.now self.now.records.items self.now.live }
        requires known { Knows types.now (objects_of self.now.records.items) (path_in (forms_in self.now.records.items) at) }
        requires scalar { says.IsScalarAt types.now (objects_of self.now.records.items) (path_in (forms_in self.now.records.items) at) }
        ensures gives { result_seen (seen (path_in (forms_in self.now.records.items))) result ≡ steps.load types.now (objects_of self.now.records.items) (path_in (forms_in self.now.records.items) at) }
    {
        let condition = self.condition(types, at);
        let value = self.record(at).contents.value(at.part);
        let nothing = both(condition.there, is_nothing(value));
        let broken = first_broken(&[
            (condition.released, Rule::Dangling),
            (condition.past, Rule::PastEnd),
            (condition.opaque, Rule::NotUsable),
            (condition.inactive, Rule::InactiveMember),
            (condition.lifeless, Rule::OutOfLifetime),
            (nothing, Rule::Indeterminate),
        ]);
        match broken {
            Some(rule) => Err(rule),
            None => Ok(value),
        }
    }

    /// Whether a member function may be called on what is there.
    pub fn call_at(&self, types: &Types, at: Place) -> Result<(), Rule>
        requires fits { Fits types.now self.now.records.items self.now.live }
        requires known { Knows types.now (objects_of self.now.records.items) (path_in (forms_in self.now.records.items) at) }
        ensures gives { result ≡ steps.call_on types.now (objects_of self.now.records.items) (path_in (forms_in self.now.records.items) at) }
    {
        let condition = self.condition(types, at);
        let broken = first_broken(&[
            (condition.released, Rule::Dangling),
            (condition.past, Rule::PastEnd),
            (condition.inactive, Rule::InactiveMember),
            (condition.lifeless, Rule::OutOfLifetime),
        ]);
        match broken {
            Some(rule) => Err(rule),
            None => Ok(()),
        }
    }

    /// The active member of a union.
    pub fn active_at(&self, types: &Types, at: Place) -> Result<Option<u32>, Rule>
        requires fits { Fits types.now self.now.records.items self.now.live }
        requires known { Knows types.now (objects_of self.now.records.items) (path_in (forms_in self.now.records.items) at) }
        requires union { says.IsUnionAt types.now (objects_of self.now.records.items) (path_in (forms_in self.now.records.items) at) }
        ensures gives { result ≡ steps.active types.now (objects_of self.now.records.items) (path_in (forms_in self.now.records.items) at) }
    {
        let condition = self.condition(types, at);
        let broken = first_broken(&[
            (condition.released, Rule::Dangling),
            (condition.past, Rule::PastEnd),
            (condition.opaque, Rule::NotUsable),
            (condition.inactive, Rule::InactiveMember),
            (condition.lifeless, Rule::OutOfLifetime),
        ]);
        match broken {
            Some(rule) => Err(rule),
            None => Ok(self.member_at(types, at)),
        }
    }

    /// The active member of what stands at a place, if that is a union.
    pub fn member_at(&self, types: &Types, at: Place) -> Option<u32>
        requires fits { Fits types.now self.now.records.items self.now.live }
        requires known { Knows types.now (objects_of self.now.records.items) (path_in (forms_in self.now.records.items) at) }
        ensures { HasMember self.now.records.items at result }
    {
        let shape = self.found(types, at).shape;
        match self.record(at).contents.member(at.part) {
            None => None,
            Some(member) => match part_at(shape, Step::Field(member)) {
                None => None,
                Some(_) => Some(member),
            },
        }
    }
}
