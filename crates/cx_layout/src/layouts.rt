ghost use Rattle.std.specs.Prelude.{◌≡◌, ℕ, ◌+◌, ◌-◌, ◌^◌, ◌<◌, ◌≤◌, true, false, List, [], ◌∷◌, ◌++◌, length, take, Some, slice_get, IfOk, OnOk, OnErr};
ghost use Rattle.cx_type_defs.specs.declared.ids.Step.{Step as StepOf};
ghost use Rattle.cx_type_defs.specs.declared.ids.Step.TheVariants as Steps;
ghost use Rattle.cx_type_defs.specs.Questions.{is_complete};
ghost use Rattle.cx_type_defs.specs.Sound.{Sound};
ghost use Rattle.cx_layout.specs.TypeForms.{object_form, object_cells};
ghost use Rattle.cx_layout.specs.Places.{Leads, IsPlace, HasStep, OneStep, outer_answer, place_of};
ghost use Rattle.cx_layout.specs.Described.{AreOf, IsDescribed, IsTable, Numbered, columns_form, form_at, is_for, number_in};

use crate::columns::{Columns, Descriptor, Under};
use crate::lay::{Piece, push};
use crate::place::Place;
use cx_base::{List, Memory, Rule};
use cx_types::{ClassId, Step, TypeId, Types};
use std::alloc::Global;
use std::marker::Model;

/// The descriptors of types, each with a number: the nodes of a type, or of an array of so many of it, in pre-order
/// ([basic.types]). Contracts see them as a list, of which they ask the form at a number.
#[derive(Drop)]
pub struct Layouts {
    alloc: Global,
    descriptors: Vec<Descriptor>,
}

impl Model for Layouts {
    ghost use Rattle.std.specs.Prelude.{List};
    ghost use Rattle.cx_layout.specs.declared.columns.Descriptor.{Descriptor};

    ghost Value = { List Descriptor };

    ghost use Rattle.std.specs.Prelude.{length, ◌<◌, ◌^◌};
    ghost use Rattle.cx_layout.specs.Described.{AllDescribed};

    ghost view = { λ s. s.descriptors.items };

    ghost invariant = { λ s. AllDescribed s.descriptors.items × (length s.descriptors.items < 2 ^ 32) };
}

/// The columns of an object of a type, or of an array of so many of it.
fn columns_of(
    alloc: Global,
    types: &Types,
    ty: TypeId,
    count: Option<u32>,
) -> Result<Columns, Memory>
    requires sound { Sound types.now }
    requires complete { is_complete types.now ty ≡ true }
    requires few_cells { object_cells types.now ty count ≤ 1073741824 }
    ensures form { IfOk result (λ c. object_form types.now ty count ≡ Some (columns_form c)) }
    ensures table { IfOk result (λ c. IsTable c) }
{
    let mut columns = Columns {
        nodes: Vec::new(alloc),
        parts: Vec::new(alloc),
    };
    let root = Under {
        parent: 0,
        step: Step::Elem(0),
        offset: 0,
    };
    match count {
        None => {
            columns.lay_piece(alloc, types, Piece::Type(ty), 512, root)?;
            Ok(columns)
        }
        Some(n) => {
            columns.lay_array(alloc, types, ty, n, 512, root)?;
            Ok(columns)
        }
    }
}

impl Descriptor {
    fn is_for(&self, ty: TypeId, count: Option<u32>) -> bool
        ensures { result ≡ is_for ty count self.now }
    {
        self.ty.0 == ty.0
            && match (self.length, count) {
                (None, None) => true,
                (Some(one), Some(other)) => one == other,
                _ => false,
            }
    }
}

/// The number of the descriptor of a type and length, where it stands.
fn number_of(descriptors: &[Descriptor], ty: TypeId, count: Option<u32>) -> Option<u32>
    requires { length descriptors.now < 2 ^ 32 }
    ensures { result ≡ number_in descriptors.now ty count }
{
    for number in 0..descriptors.len() {
        if descriptors[number].is_for(ty, count) {
            return Some(number as u32);
        }
    }
    None
}

impl Layouts {
    /// No descriptors.
    pub fn new(alloc: Global) -> Result<Layouts, Memory>
        ensures { IfOk result (λ it. it ≡ []) }
    {
        Ok(Layouts {
            alloc,
            descriptors: Vec::new(alloc),
        })
    }

    /// How many descriptors there are.
    pub fn len(&self) -> u32
        ensures { result ≡ length self.now }
    {
        self.descriptors.len() as u32
    }

    /// Takes away exactly the descriptors with numbers from `count` on.
    pub fn cut(&mut self, count: u32)
        requires { count ≤ length self.old }
        ensures { self.new ≡ take count self.old }
    {
        self.descriptors.truncate(count as usize);
    }

    /// The number of the descriptor of a complete type, or of an array of so many of it ([expr.new]): where it stands
    /// already its number, and else the next one. The object has at most 2^30 cells. It takes native stack by the depth
    /// of the type, and time by its nodes and the number of descriptors. `Memory` changes nothing.
    pub fn add(&mut self, types: &Types, ty: TypeId, count: Option<u32>) -> Result<u32, Memory>
        requires complete { is_complete types.now ty ≡ true }
        requires few_cells { object_cells types.now ty count ≤ 1073741824 }
        requires described { AreOf types.now self.old }
        requires few { length self.old < 2 ^ 32 - 1 }
        ensures number { IfOk result (λ n. Numbered types.now ty count self.old self.new n (number_in self.old ty count)) }
        ensures described { AreOf types.now self.new }
        ensures err { OnErr result (self.new ≡ self.old) }
    {
        match number_of(self.descriptors.as_slice(), ty, count) {
            Some(number) => Ok(number),
            None => {
                types.sound();
                let columns = columns_of(self.alloc, types, ty, count)?;
                let number = self.len();
                let descriptor = Descriptor {
                    ty,
                    length: count,
                    columns,
                };
                push(&mut self.descriptors, descriptor)?;
                Ok(number)
            }
        }
    }

    /// The steps to a place ([basic.compound]), with the array's length as the last one for the place past its last
    /// element; they don't show the mark of a place past another part. It takes time and native stack by the depth of
    /// the place.
    pub fn path(&self, alloc: Global, desc: u32, at: Place) -> Result<List<Step>, Memory>
        requires known { desc < length self.now }
        requires place { IsPlace (form_at self.now desc) at }
        ensures { IfOk result (λ ss. Leads (form_at self.now desc) ss at) }
    {
        self.descriptor(desc).columns.path(alloc, at)
    }

    /// The place at the end of steps in an object with the number `block`: none exactly where they don't fit. It takes no
    /// memory, and time by the number of steps.
    pub fn place_of(&self, desc: u32, block: u32, steps: &List<Step>) -> Option<Place>
        requires known { desc < length self.now }
        ensures { result ≡ place_of (form_at self.now desc) block steps.now }
    {
        self.descriptor(desc)
            .columns
            .place_of(block, steps.as_slice())
    }

    fn descriptor(&self, desc: u32) -> &Descriptor
        requires { desc < length self.now }
        ensures is { slice_get self.now desc ≡ Some result.now }
        ensures described { IsDescribed result.now }
    {
        &self.descriptors[desc as usize]
    }

    /// The nodes of a descriptor.
    pub fn columns(&self, desc: u32) -> &Columns
        requires known { desc < length self.now }
        ensures form { columns_form result.now ≡ form_at self.now desc }
        ensures table { IsTable result.now }
    {
        &self.descriptor(desc).columns
    }

    /// The place of a member ([expr.ref]): exactly where the mark stands `PastEnd`. It takes no memory, and the same time
    /// whatever the number of members and of nodes before it.
    pub fn field(&self, desc: u32, at: Place, index: u32) -> Result<Place, Rule>
        requires known { desc < length self.now }
        requires place { IsPlace (form_at self.now desc) at }
        requires member { at.past ≡ false → HasStep (form_at self.now desc) at (Steps.Field index) }
        ensures { OneStep (form_at self.now desc) at (Steps.Field index) result }
    {
        self.step(desc, at, Step::Field(index))
    }

    /// The place of a direct base ([class.derived]), as `field`.
    pub fn base(&self, desc: u32, at: Place, index: u32) -> Result<Place, Rule>
        requires known { desc < length self.now }
        requires place { IsPlace (form_at self.now desc) at }
        requires base { at.past ≡ false → HasStep (form_at self.now desc) at (Steps.Base index) }
        ensures { OneStep (form_at self.now desc) at (Steps.Base index) result }
    {
        self.step(desc, at, Step::Base(index))
    }

    /// The place of an element ([expr.sub]), and at the array's length the place past the last one, as `field`.
    pub fn elem(&self, desc: u32, at: Place, index: u32) -> Result<Place, Rule>
        requires known { desc < length self.now }
        requires place { IsPlace (form_at self.now desc) at }
        requires element { at.past ≡ false → HasStep (form_at self.now desc) at (Steps.Elem index) }
        ensures { OneStep (form_at self.now desc) at (Steps.Elem index) result }
    {
        self.step(desc, at, Step::Elem(index))
    }

    fn step(&self, desc: u32, at: Place, step: Step) -> Result<Place, Rule>
        requires known { desc < length self.now }
        requires step { at.past ≡ false → HasStep (form_at self.now desc) at step }
        ensures { OneStep (form_at self.now desc) at step result }
    {
        if at.past {
            Err(Rule::PastEnd)
        } else {
            Ok(self.descriptor(desc).columns.step(at, step))
        }
    }

    /// The place of the nearest object of the class among the one at the place and those that enclose it, through bases
    /// alone ([expr.static.cast]): `PastEnd` exactly where the mark stands, then `DownCast` exactly where there is none. It
    /// takes no memory, and time by how many bases lie between.
    pub fn outer(&self, desc: u32, at: Place, to: ClassId) -> Result<Place, Rule>
        requires known { desc < length self.now }
        requires place { IsPlace (form_at self.now desc) at }
        ensures { (ss : List StepOf) → Leads (form_at self.now desc) ss at → result ≡ outer_answer (form_at self.now desc) at to ss }
    {
        if at.past {
            return Err(Rule::PastEnd);
        }
        match self.descriptor(desc).columns.outer(at, to) {
            Some(outer) => Ok(outer),
            None => Err(Rule::DownCast),
        }
    }
}
