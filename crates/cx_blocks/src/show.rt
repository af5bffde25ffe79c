//! The slots of objects, as they lie in memory ([intro.object]).

ghost use Rattle.std.specs.Prelude.{◌≡◌, ◌<◌, ◌≤◌, nat_lt, true, false, None, Some, is_some, option_map, slice_get, length, IfSome, IsSome};
ghost use Rattle.cx_type_defs.specs.Tables.{Tables};
ghost use Rattle.cx_state.specs.declared.kind.Phase.TheVariants as Phases;
ghost use Rattle.cx_state.specs.Conditions.{is_opaque};
ghost use Rattle.cx_state.specs.Objects.{Object};
ghost use Rattle.cx_layout.specs.Forms.{Form, cells};
ghost use Rattle.cx_layout.specs.TypeForms.{object_form};
ghost use Rattle.cx_slots.specs.Slots.{slot_seen, slots_seen};
ghost use Rattle.cx_slots.specs.Flat.{flat};
ghost use Rattle.cx_slots.specs.Fresh.{new_slots};

use crate::blocks::Blocks;
use crate::fresh::fresh_slot;
use cx_slots::SlotView;

impl Blocks {
    ghost use Rattle.cx_blocks.specs.Stored.{objects, path, fits};

    /// What the cell `i` of an object shows: its tree. A union shows `Indeterminate` where its active member has no slot,
    /// and without one behind its header. A released object shows what has ended, and no value. It takes no memory, and
    /// time and native stack by the depth of the type, and time by the bases and members on the way.
    pub fn slot(&self, number: u32, i: u32) -> Option<SlotView>
        ensures tree { (t : Tables) (o : Object) (f : Form) → fits self.now t → slice_get (objects self.now) number ≡ Some o → object_form t o.ty o.count ≡ Some f → option_map (slot_seen (path self.now)) result ≡ slice_get (flat f o.tree) i }
        ensures cells { (t : Tables) (o : Object) (f : Form) → fits self.now t → slice_get (objects self.now) number ≡ Some o → object_form t o.ty o.count ≡ Some f → is_some result ≡ nat_lt i (cells f) }
        ensures ended { (t : Tables) (o : Object) (f : Form) → fits self.now t → slice_get (objects self.now) number ≡ Some o → object_form t o.ty o.count ≡ Some f → o.released ≡ true → option_map (slot_seen (path self.now)) result ≡ slice_get (new_slots Phases.Ended f) i }
        ensures gone { length (objects self.now) ≤ number → result ≡ None }
    {
        if number as usize >= self.blocks.len() {
            return None;
        }
        let block = self.block(number);
        if block.kept {
            if i as usize >= block.slots.len() {
                return None;
            }
            return Some(block.slots[i as usize]);
        }
        let phase = block.phase();
        fresh_slot(self.layouts.columns(block.desc), 0, i, phase)
    }

    /// The slots of an object, one for each cell and in order, as they lie there. There are none where no object has the
    /// number, where it is released, and where it was made `Opaque`.
    pub fn slots(&self, number: u32) -> Option<&[SlotView]>
        ensures lent { IfSome result (λ l. (t : Tables) (o : Object) (f : Form) → fits self.now t → slice_get (objects self.now) number ≡ Some o → object_form t o.ty o.count ≡ Some f → slots_seen (path self.now) l.now ≡ flat f o.tree) }
        ensures there { IsSome result → number < length (objects self.now) }
        ensures living { IsSome result → (t : Tables) (o : Object) → fits self.now t → slice_get (objects self.now) number ≡ Some o → o.released ≡ false }
        ensures told { (t : Tables) (o : Object) → fits self.now t → slice_get (objects self.now) number ≡ Some o → is_opaque o.birth ≡ false → o.released ≡ false → IsSome result }
    {
        if number as usize >= self.blocks.len() {
            return None;
        }
        let block = self.block(number);
        if block.kept {
            Some(block.slots.as_slice())
        } else {
            None
        }
    }
}
