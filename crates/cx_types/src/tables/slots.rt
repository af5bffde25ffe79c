ghost use Rattle.std.specs.Prelude.{◌≡◌, ◌^◌, ◌<◌, length, map, slice_get, sum, Some, IfSome};
ghost use Rattle.cx_type_defs.specs.Slots.{base_slot, slot_among, slot_count};
ghost use Rattle.cx_types.specs.Kept.{SlotsFit};

use crate::tables::Types;
use cx_type_defs::{ClassDecl, ClassId};

impl Types {
    fn slot_count(&self, class: ClassId) -> usize
        ensures { result ≡ slot_count self.now class }
    {
        match self.classes.get(class.0 as usize) {
            Some(decl) => match &decl.body {
                Some(body) => body.slots.len(),
                None => 0,
            },
            None => 0,
        }
    }

    /// How many slots a class has ([class.virtual]); none while it is incomplete.
    pub fn slots(&self, class: ClassId) -> u32
        requires { class.0 < length self.now.classes }
        ensures { result ≡ slot_count self.now class }
    {
        match &self.slotted(class).body {
            Some(body) => body.slots.len() as u32,
            None => 0,
        }
    }

    fn slots_together(&self, bases: &[ClassId]) -> u32
        requires { sum (map (slot_count self.now) bases.now) < 2 ^ 32 }
        ensures { result ≡ sum (map (slot_count self.now) bases.now) }
    {
        let mut total = 0;
        for base in bases {
            total += self.slot_count(*base) as u32;
        }
        total
    }

    fn slot_among(&self, bases: &[ClassId], base: u32, slot: u32) -> Option<u32>
        requires { sum (map (slot_count self.now) bases.now) < 2 ^ 32 }
        ensures { result ≡ slot_among (slot_count self.now) bases.now base slot }
    {
        if base as usize >= bases.len() {
            return None;
        }
        if slot as usize >= self.slot_count(bases[base as usize]) {
            return None;
        }
        Some(self.slots_together(&bases[..base as usize]) + slot)
    }

    /// A class, which has slots for those of its bases where it is complete.
    fn slotted(&self, class: ClassId) -> &ClassDecl
        requires { class.0 < length self.now.classes }
        ensures stands { slice_get self.now.classes class.0 ≡ Some result.now }
        ensures fits { SlotsFit self.now result.now.body }
    {
        &self.classes[class.0 as usize]
    }

    /// The class's slot that stands for this slot of its base, which is counted from 0: that slot, behind those of the
    /// bases before it ([class.virtual]). None exactly where the class is incomplete or has no such base, or the base
    /// no such slot. A call takes time linear in the number of bases.
    pub fn base_slot(&self, class: ClassId, base: u32, slot: u32) -> Option<u32>
        requires { class.0 < length self.now.classes }
        ensures slot { result ≡ base_slot self.now class base slot }
        ensures below { IfSome result (λ k. k < slot_count self.now class) }
    {
        let body = self.slotted(class).body.as_ref()?;
        self.slot_among(body.bases.as_slice(), base, slot)
    }
}
