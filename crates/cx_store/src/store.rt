ghost use Rattle.std.specs.Prelude.{◌≡◌, ◌≤◌, length, slice_get, IfOk};
ghost use Rattle.cx_type_defs.specs.Tables.{Tables};
ghost use Rattle.cx_state.specs.Steps as steps;
ghost use Rattle.cx_state.specs.Pointers as pointers;
ghost use Rattle.cx_state.specs.Counts as counts;
ghost use Rattle.cx_state.specs.Forms.{HoldsBelow, Knows, KnowsIn};
ghost use Rattle.cx_store.specs.Stores as says;
ghost use Rattle.cx_store.specs.Stores.{Changed, result_seen, seen};

use cx_base::{Limits, Rule};
use cx_state::{Birth, Kind, Phase, Scalar};
use cx_types::{ClassId, Step, TypeId, Types};

/// Why nothing was made.
#[derive(Clone, Copy, Debug, PartialEq, Eq)]
pub enum StoreAnswer {
    Rule(Rule),
    Memory,
}

/// How many numbers were drawn.
#[derive(Clone, Copy, Debug, PartialEq, Eq)]
pub struct StoreMark {
    pub objects: u32,
}

/// What is told of the object that a place is in: the place of the whole, its number, kind and birth, whether it is
/// released, the length that it was made with, and whether the place asked of is one past an end.
#[derive(Clone, Copy, Debug, PartialEq, Eq)]
pub struct RootView<P> {
    pub place: P,
    pub number: u32,
    pub kind: Kind,
    pub birth: Birth,
    pub released: bool,
    pub length: Option<u32>,
    pub past: bool,
}

/// Objects, each access to which is checked ([basic.life], [expr.const]). Each call answers the first rule that it
/// breaks, and then changes nothing, or what the step of its name on the objects gives.
pub trait Store {
    type Place: Copy + Drop;

    ghost use Rattle.cx_type_defs.specs.Tables.{Tables, Grows};
    ghost use Rattle.cx_state.specs.Objects.{Objects, Path};
    ghost use Rattle.cx_state.specs.Forms.{Fit};

    /// The objects, each at its number.
    ghost objects: { Self → Objects };

    /// The path of a place.
    ghost path: { Self → Self.Place → Path };

    /// The objects have the forms of their types in these types.
    ghost fits: { Self → Tables → Type 0 };

    /// Then each part of an object is of its type's form, and so it stays where the types grow.
    ghost fits_objects: { (s : Self) (t : Tables) → fits s t → Fit t (objects s) };

    ghost fits_grown: { (s : Self) (t u : Tables) → Grows t u → fits s t → fits s u };

    /// Makes an object of a complete type, or an array of so many of it. A limit's rule comes exactly where one unit
    /// more would pass it, also where there is no memory for the object.
    fn make(
        &mut self,
        types: &Types,
        ty: TypeId,
        length: Option<u32>,
        kind: Kind,
        konst: bool,
        birth: Birth,
        limits: &Limits,
    ) -> Result<Self::Place, StoreAnswer>
        requires fits { fits self.old types.now }
        requires whole { says.IsWhole types.now ty length }
        ensures made { says.Made types.now limits.now (says.request ty length kind konst birth) (objects self.old) (objects self.new) (path self.new) result }
        ensures known { IfOk result (λ p. Knows types.now (objects self.new) (path self.new p)) }
        ensures paths { says.KeepsPaths (objects self.old) (path self.old) (path self.new) }
        ensures fit { fits self.new types.now }
        ensures knows { says.StillKnows (objects self.old) (objects self.new) };

    /// The object that a place is in, which must be there.
    fn root(&self, at: Self::Place) -> RootView<Self::Place>
        requires present { says.IsPresent (objects self.now) (path self.now at) }
        ensures root { says.Tells (objects self.now) (path self.now) at result };

    /// Step k of a place's path, from 0.
    fn step(&self, types: &Types, at: Self::Place, k: u32) -> Option<Step>
        requires fits { fits self.now types.now }
        requires known { Knows types.now (objects self.now) (path self.now at) }
        ensures step { result ≡ slice_get (path self.now at).steps k };

    /// The place of a member.
    fn field(&self, types: &Types, at: Self::Place, index: u32) -> Result<Self::Place, Rule>
        requires fits { fits self.now types.now }
        requires known { Knows types.now (objects self.now) (path self.now at) }
        requires there { says.HasField types.now (objects self.now) (path self.now at) index }
        ensures gives { result_seen (path self.now) result ≡ steps.to_field types.now (objects self.now) (path self.now at) index }
        ensures known { IfOk result (λ p. Knows types.now (objects self.now) (path self.now p)) };

    /// The place of a base.
    fn base(&self, types: &Types, at: Self::Place, index: u32) -> Result<Self::Place, Rule>
        requires fits { fits self.now types.now }
        requires known { Knows types.now (objects self.now) (path self.now at) }
        requires there { says.HasBase types.now (objects self.now) (path self.now at) index }
        ensures gives { result_seen (path self.now) result ≡ steps.to_base types.now (objects self.now) (path self.now at) index }
        ensures known { IfOk result (λ p. Knows types.now (objects self.now) (path self.now p)) };

    /// The place of an element, or past the last one.
    fn elem(&self, types: &Types, at: Self::Place, index: u32) -> Result<Self::Place, Rule>
        requires fits { fits self.now types.now }
        requires known { Knows types.now (objects self.now) (path self.now at) }
        requires there { says.HasElem types.now (objects self.now) (path self.now at) index }
        ensures gives { result_seen (path self.now) result ≡ steps.to_elem types.now (objects self.now) (path self.now at) index }
        ensures known { IfOk result (λ p. Knows types.now (objects self.now) (path self.now p)) };

    /// The nearest object of the class that encloses a place through bases.
    fn outer(&self, types: &Types, at: Self::Place, to: ClassId) -> Result<Self::Place, Rule>
        requires fits { fits self.now types.now }
        requires known { Knows types.now (objects self.now) (path self.now at) }
        ensures gives { result_seen (path self.now) result ≡ steps.outer types.now (objects self.now) (path self.now at) to }
        ensures known { IfOk result (λ p. Knows types.now (objects self.now) (path self.now p)) };

    /// The place so many elements on ([expr.add]).
    fn add(&self, types: &Types, at: Self::Place, by: i128) -> Result<Self::Place, Rule>
        requires fits { fits self.now types.now }
        requires known { Knows types.now (objects self.now) (path self.now at) }
        ensures gives { result_seen (path self.now) result ≡ pointers.add types.now (objects self.now) (path self.now at) by }
        ensures known { IfOk result (λ p. Knows types.now (objects self.now) (path self.now p)) };

    /// How many elements lie between two places ([expr.add]).
    fn distance(&self, types: &Types, a: Self::Place, b: Self::Place) -> Result<i64, Rule>
        requires fits { fits self.now types.now }
        requires known { Knows types.now (objects self.now) (path self.now a) }
        requires other { Knows types.now (objects self.now) (path self.now b) }
        ensures gives { result ≡ pointers.distance (objects self.now) (path self.now a) (path self.now b) };

    /// Whether two places are one ([expr.eq]).
    fn equal(&self, types: &Types, a: Self::Place, b: Self::Place) -> Result<bool, Rule>
        requires fits { fits self.now types.now }
        requires known { Knows types.now (objects self.now) (path self.now a) }
        requires other { Knows types.now (objects self.now) (path self.now b) }
        ensures gives { result ≡ pointers.equal types.now (objects self.now) (path self.now a) (path self.now b) };

    /// Whether one place comes before the other ([expr.rel]).
    fn less(&self, types: &Types, a: Self::Place, b: Self::Place) -> Result<bool, Rule>
        requires fits { fits self.now types.now }
        requires known { Knows types.now (objects self.now) (path self.now a) }
        requires other { Knows types.now (objects self.now) (path self.now b) }
        ensures gives { result ≡ pointers.less types.now (objects self.now) (path self.now a) (path self.now b) };

    /// The value of a scalar or reference.
    fn load(&self, types: &Types, at: Self::Place) -> Result<Scalar<Self::Place>, Rule>
        requires fits { fits self.now types.now }
        requires known { Knows types.now (objects self.now) (path self.now at) }
        requires scalar { says.IsScalarAt types.now (objects self.now) (path self.now at) }
        ensures gives { result_seen (seen (path self.now)) result ≡ steps.load types.now (objects self.now) (path self.now at) }
        ensures known { IfOk result (λ v. KnowsIn types.now (objects self.now) (seen (path self.now) v)) }
        ensures holds { IfOk result (λ v. says.MayTake types.now (objects self.now) (path self.now at) (seen (path self.now) v)) };

    /// Gives a scalar or reference its first value.
    fn init(
        &mut self,
        types: &Types,
        at: Self::Place,
        value: Scalar<Self::Place>,
    ) -> Result<(), Rule>
        requires fits { fits self.old types.now }
        requires known { Knows types.now (objects self.old) (path self.old at) }
        requires scalar { says.IsScalarAt types.now (objects self.old) (path self.old at) }
        requires holds { says.MayTake types.now (objects self.old) (path self.old at) (seen (path self.old) value) }
        ensures changed { Changed (steps.init types.now (objects self.old) (path self.old at) (seen (path self.old) value)) (objects self.old) (objects self.new) result }
        ensures paths { path self.new ≡ path self.old }
        ensures fit { fits self.new types.now }
        ensures knows { says.StillKnows (objects self.old) (objects self.new) };

    /// Gives a scalar another value.
    fn store(
        &mut self,
        types: &Types,
        at: Self::Place,
        value: Scalar<Self::Place>,
    ) -> Result<(), Rule>
        requires fits { fits self.old types.now }
        requires known { Knows types.now (objects self.old) (path self.old at) }
        requires scalar { says.IsScalarAt types.now (objects self.old) (path self.old at) }
        requires holds { says.MayTake types.now (objects self.old) (path self.old at) (seen (path self.old) value) }
        ensures changed { Changed (steps.store types.now (objects self.old) (path self.old at) (seen (path self.old) value)) (objects self.old) (objects self.new) result }
        ensures paths { path self.new ≡ path self.old }
        ensures fit { fits self.new types.now }
        ensures knows { says.StillKnows (objects self.old) (objects self.new) };

    /// Takes a class to the next phase of its life.
    fn advance(&mut self, types: &Types, at: Self::Place, to: Phase) -> Result<(), Rule>
        requires fits { fits self.old types.now }
        requires known { Knows types.now (objects self.old) (path self.old at) }
        requires class { says.IsClassAt types.now (objects self.old) (path self.old at) }
        ensures changed { Changed (steps.advance types.now (objects self.old) (path self.old at) to) (objects self.old) (objects self.new) result }
        ensures paths { path self.new ≡ path self.old }
        ensures fit { fits self.new types.now }
        ensures knows { says.StillKnows (objects self.old) (objects self.new) };

    /// Makes a member of a union the active one ([class.union]).
    fn activate(
        &mut self,
        types: &Types,
        at: Self::Place,
        member: u32,
        alive: bool,
    ) -> Result<(), Rule>
        requires fits { fits self.old types.now }
        requires known { Knows types.now (objects self.old) (path self.old at) }
        requires union { says.IsUnionAt types.now (objects self.old) (path self.old at) }
        requires there { says.HasField types.now (objects self.old) (path self.old at) member }
        ensures changed { Changed (steps.activate types.now (objects self.old) (path self.old at) member alive) (objects self.old) (objects self.new) result }
        ensures paths { path self.new ≡ path self.old }
        ensures fit { fits self.new types.now }
        ensures knows { says.StillKnows (objects self.old) (objects self.new) };

    /// Leaves a union without active member ([class.union]).
    fn deactivate(&mut self, types: &Types, at: Self::Place) -> Result<(), Rule>
        requires fits { fits self.old types.now }
        requires known { Knows types.now (objects self.old) (path self.old at) }
        requires union { says.IsUnionAt types.now (objects self.old) (path self.old at) }
        ensures changed { Changed (steps.deactivate types.now (objects self.old) (path self.old at)) (objects self.old) (objects self.new) result }
        ensures paths { path self.new ≡ path self.old }
        ensures fit { fits self.new types.now }
        ensures knows { says.StillKnows (objects self.old) (objects self.new) };

    /// The active member of a union.
    fn active(&self, types: &Types, at: Self::Place) -> Result<Option<u32>, Rule>
        requires fits { fits self.now types.now }
        requires known { Knows types.now (objects self.now) (path self.now at) }
        requires union { says.IsUnionAt types.now (objects self.now) (path self.now at) }
        ensures gives { result ≡ steps.active types.now (objects self.now) (path self.now at) };

    /// Whether a member function may be called on what is there.
    fn call_on(&self, types: &Types, at: Self::Place) -> Result<(), Rule>
        requires fits { fits self.now types.now }
        requires known { Knows types.now (objects self.now) (path self.now at) }
        ensures gives { result ≡ steps.call_on types.now (objects self.now) (path self.now at) };

    /// Ends the storage of an object.
    fn release(&mut self, at: Self::Place) -> Result<(), Rule>
        requires present { says.IsPresent (objects self.old) (path self.old at) }
        ensures changed { Changed (steps.release (objects self.old) (path self.old at)) (objects self.old) (objects self.new) result }
        ensures paths { path self.new ≡ path self.old }
        ensures fit { (t : Tables) → fits self.old t → fits self.new t }
        ensures knows { says.StillKnows (objects self.old) (objects self.new) };

    /// The class that decides what a virtual call reaches, and the object of it ([class.virtual], [class.cdtor]).
    fn dynamic_class(&self, types: &Types, at: Self::Place) -> Result<(ClassId, Self::Place), Rule>
        requires fits { fits self.now types.now }
        requires known { Knows types.now (objects self.now) (path self.now at) }
        requires class { says.IsClassAt types.now (objects self.now) (path self.now at) }
        ensures gives { says.Decides types.now (objects self.now) (path self.now) at result }
        ensures known { IfOk result (λ r. Knows types.now (objects self.now) (path self.now r.1)) };

    /// Gives an object that was made here the birth that it is kept with.
    fn settle(&mut self, at: Self::Place, birth: Birth)
        requires present { says.IsPresent (objects self.old) (path self.old at) }
        requires here { says.IsHereAt (objects self.old) (path self.old at) }
        ensures changed { objects self.new ≡ steps.settle (objects self.old) (path self.old at) birth }
        ensures paths { path self.new ≡ path self.old }
        ensures fit { (t : Tables) → fits self.old t → fits self.new t }
        ensures knows { says.StillKnows (objects self.old) (objects self.new) };

    /// The cells of all counted objects that aren't released.
    fn live_cells(&self) -> u32
        ensures cells { (t : Tables) → fits self.now t → result ≡ counts.live_cells t (objects self.now) };

    /// How many numbers were drawn.
    fn mark(&self) -> StoreMark
        ensures mark { result.objects ≡ length (objects self.now) };

    /// Takes away the objects with numbers from the mark's on, whose numbers are then drawn again.
    fn cut(&mut self, mark: StoreMark)
        requires within { mark.objects ≤ length (objects self.old) }
        requires free { HoldsBelow (objects self.old) mark.objects }
        ensures cut { objects self.new ≡ steps.cut (objects self.old) mark.objects }
        ensures paths { says.PathsBelow mark.objects (path self.old) (path self.new) }
        ensures fit { (t : Tables) → fits self.old t → fits self.new t }
        ensures knows { says.StillKnowsBelow mark.objects (objects self.old) (objects self.new) };
}
