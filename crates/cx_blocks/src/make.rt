//! Making objects ([intro.object], [expr.new], [implimits]).

ghost use Rattle.std.specs.Prelude.{◌≡◌, None, Some, if◌then◌else◌, ◌+◌, ◌-◌, ◌*◌, ◌<◌, ◌≤◌, ◌^◌, length, IfOk, OnOk, OnErr, unwrap_or, not};
ghost use Rattle.cx_type_defs.specs.Questions.{asked, cells_of, is_complete, OfType};
ghost use Rattle.cx_type_defs.specs.Sound.{Sound};
ghost use Rattle.cx_state.specs.Conditions.{is_opaque};
ghost use Rattle.cx_state.specs.Counts as counts;
ghost use Rattle.cx_state.specs.Forms.{Knows};
ghost use Rattle.cx_store.specs.Stores as says;
ghost use Rattle.cx_layout.specs.TypeForms.{object_form, object_cells};
ghost use Rattle.cx_layout.specs.Described.{AreOf, IsTable, columns_form, form_at};
ghost use Rattle.cx_blocks.specs.Makes.{Added, Grown, NewSlots, NotAdded, limit_broken};

use crate::block::Block;
use crate::blocks::Blocks;
use cx_base::{Limits, Memory, Rule};
use cx_layout::{Columns, Layouts, Place};
use cx_slot_calls::renew;
use cx_slots::SlotView;
use cx_state::{Birth, Kind, Phase, Scalar};
use cx_store::StoreAnswer;
use cx_types::{TypeId, Types};
use std::alloc::Global;

/// What it takes to make an object.
#[derive(Clone, Copy, Drop)]
pub(crate) struct Plan {
    pub(crate) ty: TypeId,
    pub(crate) length: Option<u32>,
    pub(crate) kind: Kind,
    pub(crate) konst: bool,
    pub(crate) birth: Birth,
    pub(crate) cells: u32,
}

pub(crate) fn is_opaque(birth: Birth) -> bool
    ensures { result ≡ is_opaque birth }
{
    matches!(birth, Birth::Opaque)
}

/// A string literal isn't counted, nor an object that has only an address.
pub(crate) fn counts(kind: Kind, birth: Birth) -> bool
    ensures { result ≡ counts.counts kind birth }
{
    !matches!(kind, Kind::Literal) && !is_opaque(birth)
}

/// The cells of a type, or of so many of it.
pub(crate) fn cells_of(types: &Types, ty: TypeId, length: Option<u32>) -> u32
    requires { says.IsWhole types.now ty length }
    ensures { result ≡ unwrap_or length 1 * unwrap_or (asked cells_of types.now (OfType ty)) 0 }
{
    let one = match types.cells(ty) {
        Ok(cells) => cells,
        Err(_) => 0,
    };
    length.unwrap_or(1) * one
}

/// The number of the descriptor of a type, or of the array of so many of it.
fn describe(
    layouts: &mut Layouts,
    types: &Types,
    ty: TypeId,
    count: Option<u32>,
) -> Result<u32, Memory>
    requires whole { says.IsWhole types.now ty count }
    requires described { AreOf types.now layouts.old }
    ensures grown { Grown types.now layouts.old layouts.new }
    ensures known { IfOk result (λ n. n < length layouts.new) }
    ensures form { IfOk result (λ n. object_form types.now ty count ≡ Some (form_at layouts.new n)) }
{
    if layouts.len() == u32::MAX {
        return Err(Memory);
    }
    layouts.add(types, ty, count)
}

/// The slots of a new object: none are kept of an opaque one, which has an address alone.
fn new_slots(alloc: Global, columns: &Columns, birth: Birth) -> Result<Vec<SlotView>, Memory>
    requires { IsTable columns.now }
    ensures { IfOk result (λ l. NewSlots birth (columns_form columns.now) l.items) }
{
    if is_opaque(birth) {
        return Ok(Vec::new(alloc));
    }
    let blank = SlotView::Value(Scalar::Indeterminate);
    match Vec::from_elem(alloc, blank, columns.node(0).cells as usize) {
        Err(_) => Err(Memory),
        Ok(mut slots) => {
            renew(columns, slots.as_mut_slice(), Phase::Unborn);
            Ok(slots)
        }
    }
}

impl Blocks {
    pub(crate) fn limit_rule(&self, limits: &Limits, counted: bool, cells: u32) -> Option<Rule>
        ensures gives { result ≡ limit_broken limits.now (length self.now.blocks.items) self.now.live counted cells }
        ensures few { result ≡ None → length self.now.blocks.items < 2 ^ 32 - 1 }
        ensures room { result ≡ None → self.now.live + (if counted then cells else 0) < 2 ^ 32 }
    {
        let live = self.live;
        if self.blocks.len() >= limits.objects as usize {
            return Some(Rule::LimitObjects);
        }
        if !counted {
            return None;
        }
        if u64::from(live) + u64::from(cells) > u64::from(limits.cells) {
            Some(Rule::LimitCells)
        } else {
            None
        }
    }

    /// Makes a block behind the others.
    pub(crate) fn add_block(&mut self, types: &Types, plan: Plan) -> Result<Place, Memory>
        requires whole { says.IsWhole types.now plan.ty plan.length }
        requires described { AreOf types.now self.old.layouts }
        requires cells { plan.cells ≡ unwrap_or plan.length 1 * unwrap_or (asked cells_of types.now (OfType plan.ty)) 0 }
        requires few { length self.old.blocks.items < 2 ^ 32 - 1 }
        requires room { self.old.live + (if counts.counts plan.kind plan.birth then plan.cells else 0) < 2 ^ 32 }
        ensures ok { IfOk result (λ p. Added types.now (says.request plan.ty plan.length plan.kind plan.konst plan.birth) self.old.layouts self.new.layouts self.old.blocks.items self.new.blocks.items self.old.live self.new.live p) }
        ensures err { OnErr result (NotAdded types.now self.old.layouts self.new.layouts self.old.blocks.items self.new.blocks.items self.old.live self.new.live) }
    {
        let desc = describe(&mut self.layouts, types, plan.ty, plan.length)?;
        let slots = new_slots(self.alloc, self.layouts.columns(desc), plan.birth)?;
        let made = Block {
            ty: plan.ty,
            length: plan.length,
            kind: plan.kind,
            konst: plan.konst,
            birth: plan.birth,
            released: false,
            counted: counts(plan.kind, plan.birth),
            cells: plan.cells,
            desc,
            kept: !is_opaque(plan.birth),
            slots,
        };
        let number = self.blocks.len() as u32;
        let cells = made.live_cells();
        match self.blocks.push(made) {
            Err(_) => return Err(Memory),
            Ok(()) => {}
        }
        self.live += cells;
        Ok(Place {
            block: number,
            slot: 0,
            node: 0,
            past: false,
        })
    }
}
