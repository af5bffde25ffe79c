ghost use Rattle.std.specs.Prelude.{◌≡◌, ℕ, ◌+◌, ◌^◌, ◌<◌, ◌≤◌, [], ◌∷◌, ◌++◌, length, not, is_none, slice_get, Option, Some, None, Ok, Err, option_map, IfErr, OnOk, OnErr, MatchOption};
ghost use Rattle.std.specs.List.{list_any};
ghost use Rattle.cx_type_defs.specs.Tables.{Tables, with_body, body_at};
ghost use Rattle.cx_type_defs.specs.Questions.{OfType, OfClass, asked, extent_of, is_complete};
ghost use Rattle.cx_type_defs.specs.Bodies.{IsFit, FitsClass};
ghost use Rattle.cx_type_defs.specs.Refusals.{class_refusal, Refuses, IsKnownBody, IsIncomplete};
ghost use Rattle.cx_type_defs.specs.Slots.{base_slots};
ghost use Rattle.cx_types.specs.Parts.{PartTold, PartsTold, GatheredVec, part_of_field, BodyTold, BodyMeasured, IsOpenClass};

use crate::facts::Measure;
use crate::measured::measured;
use crate::tables::Types;
use crate::vectors::complete_at;
use cx_base::Memory;
use cx_type_defs::{ClassBody, ClassId, ClassKey, Extent, Field, TypeAnswer, TypeId};

/// The slots of a class are numbered from 0 within 32 bits.
const MOST_SLOTS: usize = 0xffff_ffff;

impl Types {
    /// The measure of a complete type.
    fn measure(&self, id: TypeId) -> Option<Measure>
        requires { id.0 < length self.now.rows }
        ensures { MatchOption result (asked extent_of self.now (OfType id) ≡ None) (λ m. PartTold self.now (OfType id) m) }
    {
        match self.extent(id) {
            None => None,
            Some(extent) => self.complete_measure(id, extent),
        }
    }

    fn complete_measure(&self, id: TypeId, extent: Option<Extent>) -> Option<Measure>
        requires known { id.0 < length self.now.rows }
        requires complete { asked extent_of self.now (OfType id) ≡ Some extent }
        ensures { MatchOption result (asked extent_of self.now (OfType id) ≡ None) (λ m. PartTold self.now (OfType id) m) }
    {
        match self.kept(id) {
            None => None,
            Some(kept) => Some(Measure {
                facts: kept.facts,
                extent,
            }),
        }
    }

    fn base_measures(&self, bases: &[ClassId]) -> Result<Vec<Measure>, TypeAnswer>
        requires { (i : ℕ) (c : ClassId) → slice_get bases.now i ≡ Some c → c.0 < length self.now.classes }
        ensures { GatheredVec self.now OfClass (λ c. is_none (body_at self.now c)) bases.now result }
    {
        let mut measures = Vec::new(self.alloc);
        for base in bases {
            match self.measure_of(*base) {
                Some(measure) => match measures.push(measure) {
                    Ok(()) => {}
                    Err(_) => return Err(TypeAnswer::Memory),
                },
                None => return Err(TypeAnswer::Incomplete),
            }
        }
        Ok(measures)
    }

    fn field_measures(&self, fields: &[Field]) -> Result<Vec<Measure>, TypeAnswer>
        requires { (i : ℕ) (f : Field) → slice_get fields.now i ≡ Some f → f.ty.0 < length self.now.rows }
        ensures { GatheredVec self.now part_of_field (λ f. not (is_complete self.now f.ty)) fields.now result }
    {
        let mut measures = Vec::new(self.alloc);
        for field in fields {
            match self.measure(field.ty) {
                Some(measure) => match measures.push(measure) {
                    Ok(()) => {}
                    Err(_) => return Err(TypeAnswer::Memory),
                },
                None => return Err(TypeAnswer::Incomplete),
            }
        }
        Ok(measures)
    }

    fn body_measure(&self, key: ClassKey, body: &ClassBody) -> Result<Measure, TypeAnswer>
        requires { IsKnownBody self.now body.now }
        ensures { BodyMeasured self.now key body.now result }
    {
        match self.base_measures(body.bases.as_slice()) {
            Err(answer) => Err(answer),
            Ok(bases) => self.measure_with_bases(key, body, bases.as_slice()),
        }
    }

    fn measure_with_bases(
        &self,
        key: ClassKey,
        body: &ClassBody,
        bases: &[Measure],
    ) -> Result<Measure, TypeAnswer>
        requires known { IsKnownBody self.now body.now }
        requires bases { PartsTold self.now OfClass body.now.bases bases.now }
        ensures { BodyMeasured self.now key body.now result }
    {
        match self.field_measures(body.fields.as_slice()) {
            Err(answer) => Err(answer),
            Ok(fields) => self.measure_with_parts(key, body, bases, fields.as_slice()),
        }
    }

    fn measure_with_parts(
        &self,
        key: ClassKey,
        body: &ClassBody,
        bases: &[Measure],
        fields: &[Measure],
    ) -> Result<Measure, TypeAnswer>
        requires bases { PartsTold self.now OfClass body.now.bases bases.now }
        requires fields { PartsTold self.now part_of_field body.now.fields fields.now }
        ensures { BodyMeasured self.now key body.now result }
    {
        match measured(key, body.flags, bases, fields) {
            None => Err(TypeAnswer::TooLarge),
            Some(measure) => Ok(measure),
        }
    }

    /// The functions that the class declares pure come first, since they alone need room.
    fn complete_class(
        &mut self,
        class: ClassId,
        key: ClassKey,
        body: ClassBody,
        measure: Measure,
    ) -> Result<(), Memory>
        requires opened { IsOpenClass (slice_get self.old.classes class.0) key }
        requires told { BodyTold self.old key body measure }
        requires slots { base_slots self.old body ≤ length body.slots }
        requires few { length body.slots < 2 ^ 32 }
        requires fits { IsFit self.old key body }
        ensures ok { OnOk result (self.new ≡ with_body self.old class body) }
        ensures err { OnErr result (self.new ≡ self.old) }
    {
        self.pures.add_all(body.pures.as_slice())?;
        complete_at(&mut self.classes, class.0 as usize, body);
        self.measures[class.0 as usize] = Some(measure);
        Ok(())
    }

    /// The class is complete. It asks that it wasn't complete before, that what the body names is known, that it has at
    /// least as many slots as its bases have together, that a union has no bases, and that a class with slots, a
    /// virtual destructor or a base with virtual functions says that it has virtual functions. After a refusal, as
    /// that of 2^32 slots or more for want of memory, the class stays incomplete. A call takes time linear in the
    /// number of bases, members and functions declared pure.
    pub fn class_end(&mut self, class: ClassId, body: ClassBody) -> Result<(), TypeAnswer>
        requires incomplete { IsIncomplete (slice_get self.old.classes class.0) }
        requires known { IsKnownBody self.old body }
        requires slots { base_slots self.old body ≤ length body.slots }
        requires fits { FitsClass self.old (slice_get self.old.classes class.0) body }
        ensures taken { OnOk result (class_refusal self.old class body ≡ None) }
        ensures refused { IfErr result (λ e. Refuses (class_refusal self.old class body) e) }
        ensures ok { OnOk result (self.new ≡ with_body self.old class body) }
        ensures err { OnErr result (self.new ≡ self.old) }
    {
        let key = self.key(class);
        if body.slots.len() > MOST_SLOTS {
            return Err(TypeAnswer::Memory);
        }
        match self.body_measure(key, &body) {
            Ok(measure) => match self.complete_class(class, key, body, measure) {
                Ok(()) => Ok(()),
                Err(_) => Err(TypeAnswer::Memory),
            },
            Err(answer) => Err(answer),
        }
    }
}
