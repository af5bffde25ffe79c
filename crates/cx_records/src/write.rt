//! Writing ([dcl.init], [expr.ass], [class.base.init]).

ghost use Rattle.std.specs.Prelude.{◌≡◌, ◌==◌, ◌||◌, Some, slice_get, option_map, suc, ◌&&◌, ◌<◌, length};
ghost use Rattle.cx_state.specs.Steps as steps;
ghost use Rattle.cx_type_defs.specs.declared.kind.TypeRow.{TypeRow as Row};
ghost use Rattle.cx_state.specs.Places.{whole_kind};
ghost use Rattle.cx_state.specs.Conditions.{broken};
ghost use Rattle.cx_state.specs.Conditions as on;
ghost use Rattle.cx_state.specs.Forms.{Knows};
ghost use Rattle.cx_store.specs.Stores as says;
ghost use Rattle.cx_store.specs.Stores.{Changed, seen};
ghost use Rattle.cx_records.specs.Records.{objects_of, forms_in, path_in};
ghost use Rattle.cx_records.specs.Fits.{Fits};
ghost use Rattle.cx_records.specs.Writes.{Puts, HasRoom, HasRoomAt, Written};

use crate::check::{first_broken, without};
use crate::place::Place;
use crate::record::{Content, Contents};
use crate::seal::sealed_at;
use crate::store::Records;
use crate::walk::{both, either};
use cx_base::Rule;
use cx_state::Phase;
use cx_store::Scalar;
use cx_types::{TypeId, TypeKind, TypeRow, Types};

impl Contents {
    /// Puts something at a part's number.
    pub fn put(&mut self, number: u64, content: Content)
        requires { HasRoom number self.old }
        ensures { Puts number content self.old self.new }
    {
        match self {
            Contents::Same(_) => {}
            Contents::Each(items) => {
                items[number as usize] = content;
            }
        }
    }
}

impl Records {
    /// Puts something at a place.
    pub fn put(&mut self, at: Place, content: Content)
        requires { HasRoomAt self.old.records.items at }
        ensures written { Written self.old.records.items self.new.records.items at content }
        ensures live { self.new.live ≡ self.old.live }
    {
        let record = &mut self.records[at.object as usize];
        record.contents.put(at.part, content);
    }

    /// The rule that a first value, or another active member, breaks at a place.
    pub fn init_rule(&self, types: &Types, at: Place) -> Option<Rule>
        requires fits { Fits types.now self.now.records.items self.now.live }
        requires known { Knows types.now (objects_of self.now.records.items) (path_in (forms_in self.now.records.items) at) }
        ensures init { result ≡ broken types.now (objects_of self.now.records.items) (path_in (forms_in self.now.records.items) at) on.Init }
        ensures activate { result ≡ broken types.now (objects_of self.now.records.items) (path_in (forms_in self.now.records.items) at) on.Activate }
    {
        let condition = self.condition(types, at);
        first_broken(&[
            (condition.released, Rule::Dangling),
            (condition.past, Rule::PastEnd),
            (condition.outside, Rule::OutsideWrite),
            (condition.inactive, Rule::InactiveMember),
        ])
    }

    /// Gives a scalar or reference its first value.
    pub fn init_at(&mut self, types: &Types, at: Place, value: Scalar<Place>) -> Result<(), Rule>
        requires fits { Fits types.now self.old.records.items self.old.live }
        requires known { Knows types.now (objects_of self.old.records.items) (path_in (forms_in self.old.records.items) at) }
        requires scalar { says.IsScalarAt types.now (objects_of self.old.records.items) (path_in (forms_in self.old.records.items) at) }
        requires holds { says.MayTake types.now (objects_of self.old.records.items) (path_in (forms_in self.old.records.items) at) (seen (path_in (forms_in self.old.records.items)) value) }
        ensures changed { Changed (steps.init types.now (objects_of self.old.records.items) (path_in (forms_in self.old.records.items) at) (seen (path_in (forms_in self.old.records.items)) value)) (objects_of self.old.records.items) (objects_of self.new.records.items) result }
        ensures paths { forms_in self.new.records.items ≡ forms_in self.old.records.items }
        ensures fit { Fits types.now self.new.records.items self.new.live }
    {
        match self.init_rule(types, at) {
            Some(rule) => Err(rule),
            None => {
                self.put(at, Content::Value(value));
                Ok(())
            }
        }
    }

    fn store_rule(&self, types: &Types, at: Place) -> Option<Rule>
        requires fits { Fits types.now self.now.records.items self.now.live }
        requires known { Knows types.now (objects_of self.now.records.items) (path_in (forms_in self.now.records.items) at) }
        ensures { result ≡ broken types.now (objects_of self.now.records.items) (path_in (forms_in self.now.records.items) at) on.Store }
    {
        let condition = self.condition(types, at);
        let record = self.record(at);
        let row = whole_row(types, record.ty, record.count, record.konst);
        let fast = sealed_at(types, row, &record.shape, &record.contents, 0, at.part);
        first_broken(&[
            (condition.released, Rule::Dangling),
            (condition.past, Rule::PastEnd),
            (condition.outside, Rule::OutsideWrite),
            (condition.inactive, Rule::InactiveMember),
            (condition.lifeless, Rule::OutOfLifetime),
            (fast, Rule::ConstWrite),
        ])
    }

    /// Gives a scalar another value.
    pub fn store_at(&mut self, types: &Types, at: Place, value: Scalar<Place>) -> Result<(), Rule>
        requires fits { Fits types.now self.old.records.items self.old.live }
        requires known { Knows types.now (objects_of self.old.records.items) (path_in (forms_in self.old.records.items) at) }
        requires scalar { says.IsScalarAt types.now (objects_of self.old.records.items) (path_in (forms_in self.old.records.items) at) }
        requires holds { says.MayTake types.now (objects_of self.old.records.items) (path_in (forms_in self.old.records.items) at) (seen (path_in (forms_in self.old.records.items)) value) }
        ensures changed { Changed (steps.store types.now (objects_of self.old.records.items) (path_in (forms_in self.old.records.items) at) (seen (path_in (forms_in self.old.records.items)) value)) (objects_of self.old.records.items) (objects_of self.new.records.items) result }
        ensures paths { forms_in self.new.records.items ≡ forms_in self.old.records.items }
        ensures fit { Fits types.now self.new.records.items self.new.live }
    {
        match self.store_rule(types, at) {
            Some(rule) => Err(rule),
            None => {
                self.put(at, Content::Value(value));
                Ok(())
            }
        }
    }

    fn advance_rule(&self, types: &Types, at: Place, to: Phase) -> Option<Rule>
        requires fits { Fits types.now self.now.records.items self.now.live }
        requires known { Knows types.now (objects_of self.now.records.items) (path_in (forms_in self.now.records.items) at) }
        requires class { says.IsClassAt types.now (objects_of self.now.records.items) (path_in (forms_in self.now.records.items) at) }
        ensures { result ≡ broken types.now (objects_of self.now.records.items) (path_in (forms_in self.now.records.items) at) (on.Advance to) }
    {
        let condition = self.condition(types, at);
        let phase = self.record(at).contents.phase(at.part);
        let before = both(condition.there, is_before(phase, to));
        let late = either(condition.dead, without(!before, condition.opaque));
        first_broken(&[
            (condition.released, Rule::Dangling),
            (condition.past, Rule::PastEnd),
            (condition.outside, Rule::OutsideWrite),
            (condition.inactive, Rule::InactiveMember),
            (late, Rule::OutOfLifetime),
        ])
    }

    /// Takes a class to the next phase of its life.
    pub fn advance_at(&mut self, types: &Types, at: Place, to: Phase) -> Result<(), Rule>
        requires fits { Fits types.now self.old.records.items self.old.live }
        requires known { Knows types.now (objects_of self.old.records.items) (path_in (forms_in self.old.records.items) at) }
        requires class { says.IsClassAt types.now (objects_of self.old.records.items) (path_in (forms_in self.old.records.items) at) }
        ensures changed { Changed (steps.advance types.now (objects_of self.old.records.items) (path_in (forms_in self.old.records.items) at) to) (objects_of self.old.records.items) (objects_of self.new.records.items) result }
        ensures paths { forms_in self.new.records.items ≡ forms_in self.old.records.items }
        ensures fit { Fits types.now self.new.records.items self.new.live }
    {
        match self.advance_rule(types, at, to) {
            Some(rule) => Err(rule),
            None => {
                self.put(at, Content::Phase(to));
                Ok(())
            }
        }
    }
}

fn phase_number(phase: Phase) -> u32
    ensures { result ≡ on.phase_number phase }
{
    match phase {
        Phase::Unborn => 0,
        Phase::Bases => 1,
        Phase::Body => 2,
        Phase::Alive => 3,
        Phase::Ending => 4,
        Phase::EndingBases => 5,
        Phase::Ended => 6,
    }
}

/// Whether the one phase comes just before the other.
fn is_before(phase: Phase, to: Phase) -> bool
    ensures { result ≡ (suc (on.phase_number phase) == on.phase_number to) }
{
    phase_number(phase) + 1 == phase_number(to)
}

/// The type of a whole object, or of so many of its type.
pub fn whole_row(types: &Types, ty: TypeId, count: Option<u32>, konst: bool) -> TypeRow
    requires { ty.0 < length types.now.rows }
    ensures { option_map (λ (r : Row). record { kind = whole_kind count ty r.kind; konst = konst || r.konst }) (slice_get types.now.rows ty.0) ≡ Some result }
{
    let row = types.row(ty);
    let kind = match count {
        None => row.kind,
        Some(count) => TypeKind::Array(ty, count),
    };
    TypeRow {
        kind,
        konst: either(konst, row.konst),
    }
}
