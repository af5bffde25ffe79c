ghost use Rattle.std.specs.Prelude.{◌≡◌, ◌<◌, ◌↔◌, length, slice_get, IsTrue};
ghost use Rattle.std.specs.List.{list_any};
ghost use Rattle.cx_type_defs.specs.Tables.{IsKnown, body_at};
ghost use Rattle.cx_type_defs.specs.Bodies.{body_has_virtual, needs_virtual};
ghost use Rattle.cx_type_defs.specs.Same.{may_be_pointed_to, may_be_referred_to, row_passes, is_normal};

use crate::tables::Types;
use cx_type_defs::{ClassBody, ClassId, EnumId, TypeId, TypeKind, TypeRow};

impl Types {
    /// Whether the number is that of a type.
    pub fn has_type(&self, id: TypeId) -> bool
        ensures { IsTrue result ↔ (id.0 < length self.now.rows) }
    {
        (id.0 as usize) < self.rows.len()
    }

    /// Whether the number is that of a class.
    pub fn has_class(&self, class: ClassId) -> bool
        ensures { IsTrue result ↔ (class.0 < length self.now.classes) }
    {
        (class.0 as usize) < self.classes.len()
    }

    /// Whether the number is that of an enumeration.
    pub fn has_enum(&self, id: EnumId) -> bool
        ensures { IsTrue result ↔ (id.0 < length self.now.enums) }
    {
        (id.0 as usize) < self.enums.len()
    }

    /// Whether what a type of this kind names is known, and an array has an element.
    pub fn knows(&self, kind: TypeKind) -> bool
        ensures { IsTrue result ↔ IsKnown self.now kind }
    {
        match kind {
            TypeKind::Void | TypeKind::Nullptr | TypeKind::Int(_) => true,
            TypeKind::Enum(id) => self.has_enum(id),
            TypeKind::Pointer(to) => self.has_type(to),
            TypeKind::Reference(to) => self.has_type(to),
            TypeKind::Array(of, n) => n >= 1 && self.has_type(of),
            TypeKind::Class(class) => self.has_class(class),
        }
    }

    fn is_pointee(&self, to: TypeId) -> bool
        ensures { result ≡ row_passes may_be_pointed_to (slice_get self.now.rows to.0) }
    {
        self.has_type(to) && !matches!(self.row(to).kind, TypeKind::Reference(_))
    }

    fn is_referent(&self, to: TypeId) -> bool
        ensures { result ≡ row_passes may_be_referred_to (slice_get self.now.rows to.0) }
    {
        self.has_type(to) && !matches!(self.row(to).kind, TypeKind::Void | TypeKind::Reference(_))
    }

    /// Whether the type is written in the one way: const of an array stands at its elements, a reference is never
    /// const, nothing leads to a reference, nor a reference to void ([dcl.array], [dcl.ref]).
    pub fn is_normal(&self, row: TypeRow) -> bool
        ensures { result ≡ is_normal self.now row }
    {
        match row.kind {
            TypeKind::Pointer(to) => self.is_pointee(to),
            TypeKind::Reference(to) => !row.konst && self.is_referent(to),
            TypeKind::Array(_, _) => !row.konst,
            TypeKind::Void | TypeKind::Nullptr | TypeKind::Int(_) => true,
            TypeKind::Enum(_) | TypeKind::Class(_) => true,
        }
    }

    fn has_virtual(&self, class: ClassId) -> bool
        ensures { result ≡ body_has_virtual (body_at self.now class) }
    {
        match self.classes.get(class.0 as usize) {
            Some(decl) => match &decl.body {
                Some(body) => body.flags.has_virtual,
                None => false,
            },
            None => false,
        }
    }

    /// Whether a class with this body has virtual functions, as its slots, its destructor or one of its bases tell
    /// ([class.virtual]).
    pub fn needs_virtual(&self, body: &ClassBody) -> bool
        ensures { result ≡ needs_virtual self.now body.now }
    {
        body.slots.len() > 0 || body.flags.virtual_dtor || self.any_virtual(body.bases.as_slice())
    }

    fn any_virtual(&self, bases: &[ClassId]) -> bool
        ensures { result ≡ list_any (λ c. body_has_virtual (body_at self.now c)) bases.now }
    {
        bases.iter().any(|base| self.has_virtual(*base))
    }
}
