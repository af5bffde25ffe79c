ghost use Rattle.std.specs.Prelude.{◌≡◌, [], IfOk};
ghost use Rattle.cx_type_defs.specs.Tables.{Tables};
ghost use Rattle.cx_state.specs.Steps as steps;
ghost use Rattle.cx_state.specs.Forms.{Knows};
ghost use Rattle.cx_store.specs.Stores as says;
ghost use Rattle.cx_store.specs.Stores.{Changed, seen};
ghost use Rattle.cx_records.specs.Records.{objects_of, forms_in, path_in};
ghost use Rattle.cx_records.specs.Fits.{Fits};
ghost use Rattle.cx_records.proofs.Growing.{fits_grow};

use cx_base::{Limits, Memory, Rule};
use cx_records::{Place, Records};
use cx_store::{Birth, Kind, Phase, RootView, Scalar, Store, StoreAnswer, StoreMark};
use cx_types::{ClassId, Step, TypeId, Types};
use std::alloc::Global;

/// Objects as records, each at its number. An object of 2^62 parts and more is refused as `Memory`.
#[derive(Drop)]
pub struct TreeStore {
    records: Records,
}

impl TreeStore {
    /// No objects.
    pub fn new(alloc: Global) -> Result<TreeStore, Memory>
        ensures none { IfOk result (λ s. ⟦<TreeStore as Store>⟧.objects s ≡ []) }
        ensures fit { IfOk result (λ s. (t : Tables) → ⟦<TreeStore as Store>⟧.fits s t) }
    {
        let records = Records::new(alloc)?;
        Ok(TreeStore { records })
    }
}

impl Store for TreeStore {
    type Place = Place;

    ghost objects = { λ s. objects_of s.records.records.items };

    ghost path = { λ s. path_in (forms_in s.records.records.items) };

    ghost fits = { λ s t. Fits t s.records.records.items s.records.live };

    ghost fits_objects = { λ s t f. f.fit };

    ghost fits_grown = { λ s t u g f. fits_grow t u g s.records.records.items s.records.live f };

    fn make(
        &mut self,
        types: &Types,
        ty: TypeId,
        length: Option<u32>,
        kind: Kind,
        konst: bool,
        birth: Birth,
        limits: &Limits,
    ) -> Result<Place, StoreAnswer> {
        self.records
            .make_object(types, ty, length, kind, konst, birth, limits)
    }

    fn root(&self, at: Place) -> RootView<Place> {
        self.records.root_at(at)
    }

    fn step(&self, types: &Types, at: Place, k: u32) -> Option<Step> {
        self.records.step_at(types, at, k)
    }

    fn field(&self, types: &Types, at: Place, index: u32) -> Result<Place, Rule> {
        self.records.field_at(types, at, index)
    }

    fn base(&self, types: &Types, at: Place, index: u32) -> Result<Place, Rule> {
        self.records.base_at(types, at, index)
    }

    fn elem(&self, types: &Types, at: Place, index: u32) -> Result<Place, Rule> {
        self.records.elem_at(types, at, index)
    }

    fn outer(&self, types: &Types, at: Place, to: ClassId) -> Result<Place, Rule> {
        cx_record_pointers::outer(&self.records, types, at, to)
    }

    fn add(&self, types: &Types, at: Place, by: i128) -> Result<Place, Rule> {
        cx_record_pointers::add(&self.records, types, at, by)
    }

    fn distance(&self, types: &Types, a: Place, b: Place) -> Result<i64, Rule> {
        cx_record_pointers::distance(&self.records, types, a, b)
    }

    fn equal(&self, types: &Types, a: Place, b: Place) -> Result<bool, Rule> {
        cx_record_pointers::equal(&self.records, types, a, b)
    }

    fn less(&self, types: &Types, a: Place, b: Place) -> Result<bool, Rule> {
        cx_record_pointers::less(&self.records, types, a, b)
    }

    fn load(&self, types: &Types, at: Place) -> Result<Scalar<Place>, Rule> {
        self.records.load_at(types, at)
    }

    fn init(&mut self, types: &Types, at: Place, value: Scalar<Place>) -> Result<(), Rule>
        requires fits { Fits types.now self.old.records.records.items self.old.records.live }
        requires known { Knows types.now (objects_of self.old.records.records.items) (path_in (forms_in self.old.records.records.items) at) }
        requires scalar { says.IsScalarAt types.now (objects_of self.old.records.records.items) (path_in (forms_in self.old.records.records.items) at) }
        requires holds { says.MayTake types.now (objects_of self.old.records.records.items) (path_in (forms_in self.old.records.records.items) at) (seen (path_in (forms_in self.old.records.records.items)) value) }
        ensures changed { Changed (steps.init types.now (objects_of self.old.records.records.items) (path_in (forms_in self.old.records.records.items) at) (seen (path_in (forms_in self.old.records.records.items)) value)) (objects_of self.old.records.records.items) (objects_of self.new.records.records.items) result }
        ensures paths { path_in (forms_in self.new.records.records.items) ≡ path_in (forms_in self.old.records.records.items) }
        ensures fit { Fits types.now self.new.records.records.items self.new.records.live }
        ensures knows { says.StillKnows (objects_of self.old.records.records.items) (objects_of self.new.records.records.items) }
    {
        self.records.init_at(types, at, value)
    }

    fn store(&mut self, types: &Types, at: Place, value: Scalar<Place>) -> Result<(), Rule>
        requires fits { Fits types.now self.old.records.records.items self.old.records.live }
        requires known { Knows types.now (objects_of self.old.records.records.items) (path_in (forms_in self.old.records.records.items) at) }
        requires scalar { says.IsScalarAt types.now (objects_of self.old.records.records.items) (path_in (forms_in self.old.records.records.items) at) }
        requires holds { says.MayTake types.now (objects_of self.old.records.records.items) (path_in (forms_in self.old.records.records.items) at) (seen (path_in (forms_in self.old.records.records.items)) value) }
        ensures changed { Changed (steps.store types.now (objects_of self.old.records.records.items) (path_in (forms_in self.old.records.records.items) at) (seen (path_in (forms_in self.old.records.records.items)) value)) (objects_of self.old.records.records.items) (objects_of self.new.records.records.items) result }
        ensures paths { path_in (forms_in self.new.records.records.items) ≡ path_in (forms_in self.old.records.records.items) }
        ensures fit { Fits types.now self.new.records.records.items self.new.records.live }
        ensures knows { says.StillKnows (objects_of self.old.records.records.items) (objects_of self.new.records.records.items) }
    {
        self.records.store_at(types, at, value)
    }

    fn advance(&mut self, types: &Types, at: Place, to: Phase) -> Result<(), Rule> {
        self.records.advance_at(types, at, to)
    }

    fn activate(&mut self, types: &Types, at: Place, member: u32, alive: bool) -> Result<(), Rule> {
        cx_record_unions::activate(&mut self.records, types, at, member, alive)
    }

    fn deactivate(&mut self, types: &Types, at: Place) -> Result<(), Rule> {
        cx_record_unions::deactivate(&mut self.records, types, at)
    }

    fn active(&self, types: &Types, at: Place) -> Result<Option<u32>, Rule> {
        self.records.active_at(types, at)
    }

    fn call_on(&self, types: &Types, at: Place) -> Result<(), Rule> {
        self.records.call_at(types, at)
    }

    fn release(&mut self, at: Place) -> Result<(), Rule> {
        self.records.release_at(at)
    }

    fn dynamic_class(&self, types: &Types, at: Place) -> Result<(ClassId, Place), Rule> {
        cx_record_dynamic::dynamic_class(&self.records, types, at)
    }

    fn settle(&mut self, at: Place, birth: Birth) {
        self.records.settle_at(at, birth)
    }

    fn live_cells(&self) -> u32 {
        self.records.cells_live()
    }

    fn mark(&self) -> StoreMark {
        self.records.drawn()
    }

    fn cut(&mut self, mark: StoreMark) {
        self.records.cut_at(mark)
    }
}
