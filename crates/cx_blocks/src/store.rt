ghost use Rattle.std.specs.Prelude.{◌≡◌};
ghost use Rattle.cx_state.specs.Steps as steps;
ghost use Rattle.cx_state.specs.Forms.{Knows};
ghost use Rattle.cx_store.specs.Stores as says;
ghost use Rattle.cx_store.specs.Stores.{Changed, seen};
ghost use Rattle.cx_blocks.specs.Stored.{objects, path, fits};
ghost use Rattle.cx_blocks.specs.Growing.{fits_grow};

use crate::blocks::Blocks;
use crate::make::{Plan, cells_of, counts, is_opaque};
use crate::told::{begun, total_live};
use cx_base::{Limits, Rule};
use cx_layout::Place;
use cx_slot_calls::{activate_at, advance_at, deactivate_at, init_at, load_at, store_at};
use cx_slot_places::{
    active_at, add_at, call_at, distance_at, dynamic_at, equal_at, less_at, sealed_at, step_at,
    whole_row,
};
use cx_store::{Birth, Kind, Phase, RootView, Scalar, Store, StoreAnswer, StoreMark};
use cx_types::{ClassId, Step, TypeId, Types};

impl Store for Blocks {
    type Place = Place;

    ghost objects = { objects };

    ghost path = { path };

    ghost fits = { fits };

    ghost fits_objects = { λ s t f. f.fit };

    ghost fits_grown = { λ s t u g f. fits_grow t u g s.layouts s.blocks.items s.live f };

    fn make(
        &mut self,
        types: &Types,
        ty: TypeId,
        length: Option<u32>,
        kind: Kind,
        konst: bool,
        birth: Birth,
        limits: &Limits,
    ) -> Result<Place, StoreAnswer> {
        let plan = Plan {
            ty,
            length,
            kind,
            konst,
            birth,
            cells: cells_of(types, ty, length),
        };
        types.sound();
        match self.limit_rule(limits, counts(kind, birth), plan.cells) {
            Some(rule) => Err(StoreAnswer::Rule(rule)),
            None => match self.add_block(types, plan) {
                Err(_) => Err(StoreAnswer::Memory),
                Ok(place) => Ok(place),
            },
        }
    }

    fn root(&self, at: Place) -> RootView<Place> {
        let block = self.block(at.block);
        RootView {
            place: Place {
                block: at.block,
                slot: 0,
                node: 0,
                past: false,
            },
            number: at.block,
            kind: block.kind,
            birth: block.birth,
            released: block.released,
            length: block.length,
            past: at.past,
        }
    }

    fn step(&self, types: &Types, at: Place, k: u32) -> Option<Step> {
        step_at(self.layouts.columns(self.block(at.block).desc), at, k)
    }

    fn field(&self, types: &Types, at: Place, index: u32) -> Result<Place, Rule> {
        types.sound();
        let block = self.block(at.block);
        if block.released {
            return Err(Rule::Dangling);
        }
        self.layouts.field(block.desc, at, index)
    }

    fn base(&self, types: &Types, at: Place, index: u32) -> Result<Place, Rule> {
        types.sound();
        let block = self.block(at.block);
        if block.released {
            return Err(Rule::Dangling);
        }
        self.layouts.base(block.desc, at, index)
    }

    fn elem(&self, types: &Types, at: Place, index: u32) -> Result<Place, Rule> {
        types.sound();
        let block = self.block(at.block);
        if block.released {
            return Err(Rule::Dangling);
        }
        self.layouts.elem(block.desc, at, index)
    }

    fn outer(&self, types: &Types, at: Place, to: ClassId) -> Result<Place, Rule> {
        types.sound();
        let block = self.block(at.block);
        if block.released {
            return Err(Rule::Dangling);
        }
        self.layouts.outer(block.desc, at, to)
    }

    fn add(&self, types: &Types, at: Place, by: i128) -> Result<Place, Rule> {
        types.sound();
        let block = self.block(at.block);
        if block.released {
            return Err(Rule::Dangling);
        }
        add_at(self.layouts.columns(block.desc), at, by)
    }

    fn distance(&self, types: &Types, a: Place, b: Place) -> Result<i64, Rule> {
        let first = self.block(a.block);
        let second = self.block(b.block);
        if first.released || second.released {
            return Err(Rule::Dangling);
        }
        if a.block == b.block {
            return distance_at(self.layouts.columns(first.desc), a, b);
        }
        Err(Rule::PointerDistance)
    }

    fn equal(&self, types: &Types, a: Place, b: Place) -> Result<bool, Rule> {
        types.sound();
        let first = self.block(a.block);
        let second = self.block(b.block);
        if a.block == b.block {
            return equal_at(self.layouts.columns(first.desc), a, b);
        }
        if a.past {
            return Err(Rule::UnspecifiedCompare);
        }
        if b.past {
            return Err(Rule::UnspecifiedCompare);
        }
        if !first.is_literal() {
            return Ok(false);
        }
        if !second.is_literal() {
            return Ok(false);
        }
        Err(Rule::UnspecifiedCompare)
    }

    fn less(&self, types: &Types, a: Place, b: Place) -> Result<bool, Rule> {
        types.sound();
        let first = self.block(a.block);
        let second = self.block(b.block);
        if first.released || second.released {
            return Err(Rule::Dangling);
        }
        if a.block == b.block {
            return less_at(self.layouts.columns(first.desc), a, b);
        }
        Err(Rule::UnspecifiedCompare)
    }

    fn load(&self, types: &Types, at: Place) -> Result<Scalar<Place>, Rule> {
        types.sound();
        let block = self.block(at.block);
        match block.unreadable(at.past) {
            Some(rule) => Err(rule),
            None => load_at(self.layouts.columns(block.desc), block.slots.as_slice(), at),
        }
    }

    fn init(&mut self, types: &Types, at: Place, value: Scalar<Place>) -> Result<(), Rule>
        requires fits { fits self.old types.now }
        requires known { Knows types.now (objects self.old) (path self.old at) }
        requires scalar { says.IsScalarAt types.now (objects self.old) (path self.old at) }
        requires holds { says.MayTake types.now (objects self.old) (path self.old at) (seen (path self.old) value) }
        ensures changed { Changed (steps.init types.now (objects self.old) (path self.old at) (seen (path self.old) value)) (objects self.old) (objects self.new) result }
        ensures paths { path self.new ≡ path self.old }
        ensures fit { fits self.new types.now }
        ensures knows { says.StillKnows (objects self.old) (objects self.new) }
    {
        types.sound();
        match self.block(at.block).unwritable(at.past) {
            Some(rule) => Err(rule),
            None => {
                let block = &mut self.blocks[at.block as usize];
                let columns = self.layouts.columns(block.desc);
                init_at(columns, block.slots.as_mut_slice(), at, value)
            }
        }
    }

    fn store(&mut self, types: &Types, at: Place, value: Scalar<Place>) -> Result<(), Rule>
        requires fits { fits self.old types.now }
        requires known { Knows types.now (objects self.old) (path self.old at) }
        requires scalar { says.IsScalarAt types.now (objects self.old) (path self.old at) }
        requires holds { says.MayTake types.now (objects self.old) (path self.old at) (seen (path self.old) value) }
        ensures changed { Changed (steps.store types.now (objects self.old) (path self.old at) (seen (path self.old) value)) (objects self.old) (objects self.new) result }
        ensures paths { path self.new ≡ path self.old }
        ensures fit { fits self.new types.now }
        ensures knows { says.StillKnows (objects self.old) (objects self.new) }
    {
        types.sound();
        match self.block(at.block).unwritable(at.past) {
            Some(rule) => Err(rule),
            None => {
                let block = &mut self.blocks[at.block as usize];
                let columns = self.layouts.columns(block.desc);
                let whole = whole_row(types, block.ty, block.length, block.konst);
                let sealed = sealed_at(columns, types, whole, block.slots.as_slice(), at);
                store_at(columns, block.slots.as_mut_slice(), at, value, sealed)
            }
        }
    }

    fn advance(&mut self, types: &Types, at: Place, to: Phase) -> Result<(), Rule> {
        types.sound();
        match self.block(at.block).unwritable(at.past) {
            Some(rule) => Err(rule),
            None => {
                let block = &mut self.blocks[at.block as usize];
                let columns = self.layouts.columns(block.desc);
                advance_at(columns, block.slots.as_mut_slice(), at, to)
            }
        }
    }

    fn activate(&mut self, types: &Types, at: Place, member: u32, alive: bool) -> Result<(), Rule> {
        types.sound();
        match self.block(at.block).unwritable(at.past) {
            Some(rule) => Err(rule),
            None => {
                let block = &mut self.blocks[at.block as usize];
                let columns = self.layouts.columns(block.desc);
                let phase = begun(alive);
                activate_at(columns, block.slots.as_mut_slice(), at, member, phase)
            }
        }
    }

    fn deactivate(&mut self, types: &Types, at: Place) -> Result<(), Rule> {
        types.sound();
        match self.block(at.block).unwritable(at.past) {
            Some(rule) => Err(rule),
            None => {
                let block = &mut self.blocks[at.block as usize];
                let columns = self.layouts.columns(block.desc);
                deactivate_at(columns, block.slots.as_mut_slice(), at)
            }
        }
    }

    fn active(&self, types: &Types, at: Place) -> Result<Option<u32>, Rule> {
        types.sound();
        let block = self.block(at.block);
        match block.unreadable(at.past) {
            Some(rule) => Err(rule),
            None => active_at(self.layouts.columns(block.desc), block.slots.as_slice(), at),
        }
    }

    fn call_on(&self, types: &Types, at: Place) -> Result<(), Rule> {
        types.sound();
        let block = self.block(at.block);
        if block.released {
            return Err(Rule::Dangling);
        }
        if at.past {
            return Err(Rule::PastEnd);
        }
        if is_opaque(block.birth) {
            return Ok(());
        }
        call_at(self.layouts.columns(block.desc), block.slots.as_slice(), at)
    }

    fn release(&mut self, at: Place) -> Result<(), Rule> {
        let block = self.block(at.block);
        if block.released {
            return Err(Rule::Dangling);
        }
        let cells = block.live_cells();
        let given_up = &mut self.blocks[at.block as usize];
        given_up.released = true;
        given_up.kept = false;
        given_up.slots = Vec::new(self.alloc);
        self.live = self.live.saturating_sub(cells);
        Ok(())
    }

    fn dynamic_class(&self, types: &Types, at: Place) -> Result<(ClassId, Place), Rule> {
        types.sound();
        let block = self.block(at.block);
        if block.released {
            return Err(Rule::Dangling);
        }
        if at.past {
            return Err(Rule::PastEnd);
        }
        let columns = self.layouts.columns(block.desc);
        dynamic_at(columns, block.slots.as_slice(), is_opaque(block.birth), at)
    }

    fn settle(&mut self, at: Place, birth: Birth) {
        let block = &mut self.blocks[at.block as usize];
        block.birth = birth;
    }

    fn live_cells(&self) -> u32 {
        self.live
    }

    fn mark(&self) -> StoreMark {
        StoreMark {
            objects: self.blocks.len() as u32,
        }
    }

    fn cut(&mut self, mark: StoreMark) {
        let most = self.live;
        self.blocks.truncate(mark.objects as usize);
        self.live = total_live(&self.blocks, most);
    }
}
