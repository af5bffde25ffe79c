//! Making objects ([intro.object], [expr.new], [implimits]).

ghost use Rattle.std.specs.Prelude.{◌≡◌, None, if◌then◌else◌, ◌+◌, ◌-◌, ◌*◌, ◌<◌, ◌≤◌, ◌^◌, [], ◌∷◌, ◌++◌, length, IfOk, OnOk, OnErr, option_map, unwrap_or, true, not, ◌&&◌};
ghost use Rattle.cx_type_defs.specs.Questions.{asked, cells_of, is_complete, OfType};
ghost use Rattle.cx_state.specs.Counts as counts;
ghost use Rattle.cx_state.specs.Forms.{Knows};
ghost use Rattle.cx_store.specs.Stores as says;
ghost use Rattle.cx_records.specs.Records.{objects_of, forms_in, path_in};
ghost use Rattle.cx_records.specs.Fits.{Fits, live_in};
ghost use Rattle.cx_records.specs.declared.place.End.TheVariants as EndAt;
ghost use Rattle.cx_records.specs.Makes.{IsNew, HasShape, HasContents, limit_broken};

use crate::place::{End, Place};
use crate::record::{Content, Contents, Record};
use crate::store::Records;
use cx_base::{Limits, Memory, Rule};
use cx_shapes::{Shape, measured, row_shape, type_shape};
use cx_state::{Birth, Kind, Phase};
use cx_store::StoreAnswer;
use cx_types::{TypeId, Types};
use std::alloc::Global;

fn counts(kind: Kind, birth: Birth) -> bool
    ensures { result ≡ counts.counts kind birth }
{
    !matches!(kind, Kind::Literal) && !matches!(birth, Birth::Opaque)
}

/// The cells of a type, or of so many of it.
fn cells_of(types: &Types, ty: TypeId, count: Option<u32>) -> u32
    requires { says.IsWhole types.now ty count }
    ensures { result ≡ unwrap_or count 1 * unwrap_or (asked cells_of types.now (OfType ty)) 0 }
{
    let one = match types.cells(ty) {
        Ok(cells) => cells,
        Err(_) => 0,
    };
    count.unwrap_or(1) * one
}

/// The shape of a type, or of so many of it.
fn whole_shape(
    alloc: Global,
    types: &Types,
    ty: TypeId,
    count: Option<u32>,
) -> Result<Shape, Memory>
    requires { is_complete types.now ty ≡ true }
    ensures { IfOk result (λ s. HasShape types.now ty count s) }
{
    let shape = type_shape(alloc, types, ty, 512)?;
    match count {
        None => Ok(shape),
        Some(count) => row_shape(alloc, count, shape),
    }
}

/// New contents: none are kept of an opaque object, which has an address alone.
fn new_contents(alloc: Global, birth: Birth, parts: u64) -> Result<Contents, Memory>
    ensures { IfOk result (λ c. HasContents birth parts c) }
{
    match birth {
        Birth::Opaque => Ok(Contents::Same(Phase::Unborn)),
        _ => match Vec::from_elem(alloc, Content::Phase(Phase::Unborn), parts as usize) {
            Ok(items) => Ok(Contents::Each(items)),
            Err(_) => Err(Memory),
        },
    }
}

/// What it takes to make an object.
#[derive(Clone, Copy, Drop)]
struct Plan {
    ty: TypeId,
    count: Option<u32>,
    kind: Kind,
    konst: bool,
    birth: Birth,
    cells: u32,
}

fn new_record(alloc: Global, types: &Types, plan: Plan) -> Result<Record, Memory>
    requires complete { is_complete types.now plan.ty ≡ true }
    requires cells { plan.cells ≡ unwrap_or plan.count 1 * unwrap_or (asked cells_of types.now (OfType plan.ty)) 0 }
    ensures { IfOk result (λ r. IsNew types.now (says.request plan.ty plan.count plan.kind plan.konst plan.birth) r) }
{
    let shape = whole_shape(alloc, types, plan.ty, plan.count)?;
    match measured(&shape) {
        None => Err(Memory),
        Some(measure) => match new_contents(alloc, plan.birth, measure.parts) {
            Err(memory) => Err(memory),
            Ok(contents) => Ok(Record {
                ty: plan.ty,
                count: plan.count,
                kind: plan.kind,
                konst: plan.konst,
                birth: plan.birth,
                released: false,
                counted: counts(plan.kind, plan.birth),
                cells: plan.cells,
                shape,
                contents,
            }),
        },
    }
}

impl Records {
    fn limit_rule(&self, limits: &Limits, counted: bool, cells: u32) -> Option<Rule>
        ensures gives { result ≡ limit_broken limits.now (length self.now.records.items) self.now.live counted cells }
        ensures few { result ≡ None → length self.now.records.items < 2 ^ 32 - 1 }
        ensures room { result ≡ None → self.now.live + (if counted then cells else 0) < 2 ^ 32 }
    {
        let live = self.live;
        if self.records.len() >= limits.objects as usize {
            return Some(Rule::LimitObjects);
        }
        if !counted {
            return None;
        }
        if u64::from(live) + u64::from(cells) > u64::from(limits.cells) {
            Some(Rule::LimitCells)
        } else {
            None
        }
    }

    fn add_record(&mut self, made: Record) -> Result<Place, Memory>
        requires few { length self.old.records.items < 2 ^ 32 - 1 }
        requires room { self.old.live + live_in made < 2 ^ 32 }
        ensures ok { OnOk result (self.new.records.items ≡ self.old.records.items ++ made ∷ []) }
        ensures live { OnOk result (self.new.live ≡ self.old.live + live_in made) }
        ensures place { IfOk result (λ p. (p.object ≡ length self.old.records.items) × (p.part ≡ 0) × (p.end ≡ EndAt.At)) }
        ensures err { OnErr result ((self.new.records.items ≡ self.old.records.items) × (self.new.live ≡ self.old.live)) }
    {
        let object = self.records.len() as u32;
        let cells = cells_live(&made);
        match self.records.push(made) {
            Err(_) => Err(Memory),
            Ok(()) => {
                self.live += cells;
                Ok(Place {
                    object,
                    part: 0,
                    end: End::At,
                })
            }
        }
    }

    /// Makes an object of a complete type, or an array of so many of it.
    pub fn make_object(
        &mut self,
        types: &Types,
        ty: TypeId,
        count: Option<u32>,
        kind: Kind,
        konst: bool,
        birth: Birth,
        limits: &Limits,
    ) -> Result<Place, StoreAnswer>
        requires fits { Fits types.now self.old.records.items self.old.live }
        requires whole { says.IsWhole types.now ty count }
        ensures made { says.Made types.now limits.now (says.request ty count kind konst birth) (objects_of self.old.records.items) (objects_of self.new.records.items) (path_in (forms_in self.new.records.items)) result }
        ensures known { IfOk result (λ p. Knows types.now (objects_of self.new.records.items) (path_in (forms_in self.new.records.items) p)) }
        ensures paths { says.KeepsPaths (objects_of self.old.records.items) (path_in (forms_in self.old.records.items)) (path_in (forms_in self.new.records.items)) }
        ensures fit { Fits types.now self.new.records.items self.new.live }
    {
        let plan = Plan {
            ty,
            count,
            kind,
            konst,
            birth,
            cells: cells_of(types, ty, count),
        };
        match self.limit_rule(limits, counts(kind, birth), plan.cells) {
            Some(rule) => Err(StoreAnswer::Rule(rule)),
            None => match new_record(self.alloc, types, plan) {
                Err(_) => Err(StoreAnswer::Memory),
                Ok(record) => match self.add_record(record) {
                    Err(_) => Err(StoreAnswer::Memory),
                    Ok(place) => Ok(place),
                },
            },
        }
    }
}

/// The cells of a record that count.
pub fn cells_live(made: &Record) -> u32
    ensures { result ≡ live_in made.now }
{
    if made.counted && !made.released {
        made.cells
    } else {
        0
    }
}
