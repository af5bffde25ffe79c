//! Types with a word for each.
ghost use Rattle.std.specs.Prelude.{◌≡◌, ℕ, ◌<◌, ◌≤◌, true, [], length, map, slice_get, sum, Some, IfOk};
ghost use Rattle.cx_type_defs.specs.Bodies.{IsFit, FitsClass};
ghost use Rattle.cx_type_defs.specs.Refusals.{IsKnownBody, IsIncomplete};
ghost use Rattle.cx_type_defs.specs.Slots.{base_slots, slot_count};

use crate::stop::Stop;
use crate::words::{number, word};
use cx_base::{IntType, List, Mark, Span, Text};
use cx_types::{ClassBody, ClassFlags, ClassId, ClassKey, Field, TypeId, TypeKind, TypeRow, Types};
use std::alloc::Global;

const PLACE: Mark = Mark {
    byte: 0,
    line: 1,
    col: 1,
};

const FLAGS: ClassFlags = ClassFlags {
    aggregate: true,
    constexpr_ctor: false,
    constexpr_dtor: true,
    trivial_ctor: true,
    trivial_copy: true,
    trivial_dtor: true,
    virtual_dtor: false,
    has_virtual: false,
};

/// A type and the word for it.
#[derive(Drop)]
struct Word {
    text: String,
    id: TypeId,
}

/// Types with a word for each.
#[derive(Drop)]
pub struct Sample {
    pub(crate) types: Types,
    alloc: Global,
    words: Vec<Word>,
}

impl Sample {
    /// The types that a text declares, one in each line: a word for it, and what it is.
    ///
    /// `NAME int`, `char`, `long`, `bool`, `void` or `nullptr`; `NAME const TYPE`, `pointer TYPE` or `reference TYPE`;
    /// `NAME array TYPE COUNT`; and `NAME struct`, `class` or `union` with its bases, each behind a colon, and the types
    /// of its members.
    pub fn read(alloc: Global, text: &str) -> Result<Sample, Stop> {
        let mut sample = match Types::new(alloc) {
            Ok(types) => Sample {
                types,
                alloc,
                words: Vec::new(alloc),
            },
            Err(_) => return Err(Stop::Memory),
        };
        for line in text.lines() {
            let words: Vec<&str> = line.split_whitespace().collect(alloc)?;
            sample.declare(words.as_slice())?;
        }
        Ok(sample)
    }

    /// The type that a word stands for.
    pub(crate) fn named(&self, text: &str) -> Result<TypeId, Stop>
        ensures { IfOk result (λ id. id.0 < length self.now.types.rows) }
    {
        for word in &self.words {
            if word.text.as_str() == text && self.types.has_type(word.id) {
                return Ok(word.id);
            }
        }
        Err(Stop::NotAsked)
    }

    /// The class that a word stands for.
    pub(crate) fn class_named(&self, text: &str) -> Result<ClassId, Stop> {
        match self.types.row(self.named(text)?).kind {
            TypeKind::Class(class) => Ok(class),
            _ => Err(Stop::NotAsked),
        }
    }

    /// The first word for a class.
    pub(crate) fn class_word(&self, class: ClassId) -> &str {
        for word in &self.words {
            if self.types.has_type(word.id)
                && self.types.row(word.id).kind == TypeKind::Class(class)
            {
                return word.text.as_str();
            }
        }
        ""
    }

    /// Adds a type, with a word for it.
    fn add(&mut self, text: &str, row: TypeRow) -> Result<(), Stop> {
        if !has_room(&self.types) || !self.types.knows(row.kind) || !self.types.is_normal(row) {
            return Err(Stop::NotAsked);
        }
        let id = match self.types.intern(row) {
            Ok(id) => id,
            Err(_) => return Err(Stop::NotAsked),
        };
        let text = String::from_str(self.alloc, text)?;
        match self.words.push(Word { text, id }) {
            Ok(()) => Ok(()),
            Err(_) => Err(Stop::Memory),
        }
    }

    fn begin(&mut self, key: ClassKey) -> Result<ClassId, Stop>
        ensures { IfOk result (λ c. IsIncomplete (slice_get self.new.types.classes c.0)) }
    {
        if !has_room(&self.types) {
            return Err(Stop::NotAsked);
        }
        match self.types.class_begin(Text::new(self.alloc), key) {
            Ok(class) => Ok(class),
            Err(_) => Err(Stop::Memory),
        }
    }

    fn end(&mut self, class: ClassId, body: ClassBody) -> Result<(), Stop>
        requires { IsIncomplete (slice_get self.old.types.classes class.0) }
    {
        if !may_complete(&self.types, class, &body) {
            return Err(Stop::NotAsked);
        }
        match self.types.class_end(class, body) {
            Ok(()) => Ok(()),
            Err(_) => Err(Stop::NotAsked),
        }
    }

    /// A class's body: its bases, each behind a colon, and the types of its members.
    fn body(&self, words: &[&str]) -> Result<ClassBody, Stop> {
        let mut body = ClassBody {
            bases: List::new(self.alloc),
            fields: List::new(self.alloc),
            slots: List::new(self.alloc),
            pures: List::new(self.alloc),
            flags: FLAGS,
        };
        for word in words.iter().skip(2) {
            let pushed = match word.strip_prefix(':') {
                Some(base) => body.bases.push(self.class_named(base)?).is_ok(),
                None => body
                    .fields
                    .push(member(self.alloc, self.named(word)?))
                    .is_ok(),
            };
            if !pushed {
                return Err(Stop::Memory);
            }
        }
        Ok(body)
    }

    fn class(&mut self, key: ClassKey, words: &[&str]) -> Result<TypeKind, Stop> {
        let body = self.body(words)?;
        let class = self.begin(key)?;
        self.end(class, body)?;
        Ok(TypeKind::Class(class))
    }

    /// Declares the type of a line.
    fn declare(&mut self, words: &[&str]) -> Result<(), Stop> {
        let mut konst = false;
        let kind = match word(words, 1) {
            "int" => TypeKind::Int(IntType::Int),
            "char" => TypeKind::Int(IntType::Char),
            "long" => TypeKind::Int(IntType::Long),
            "bool" => TypeKind::Int(IntType::Bool),
            "void" => TypeKind::Void,
            "nullptr" => TypeKind::Nullptr,
            "struct" => self.class(ClassKey::Struct, words)?,
            "class" => self.class(ClassKey::Class, words)?,
            "union" => self.class(ClassKey::Union, words)?,
            form => {
                let of = self.named(word(words, 2))?;
                match form {
                    "const" => {
                        konst = true;
                        self.types.row(of).kind
                    }
                    "pointer" => TypeKind::Pointer(of),
                    "reference" => TypeKind::Reference(of),
                    _ => TypeKind::Array(of, number(word(words, 3))?),
                }
            }
        };
        self.add(word(words, 0), TypeRow { kind, konst })
    }
}

fn member(alloc: Global, ty: TypeId) -> Field {
    Field {
        name: Text::new(alloc),
        ty,
        at: Span {
            start: PLACE,
            end: PLACE,
        },
        init: None,
    }
}

fn has_room(types: &Types) -> bool
    ensures rows { result ≡ true → length types.now.rows ≤ 1000 }
    ensures classes { result ≡ true → length types.now.classes ≤ 1000 }
{
    if types.has_type(TypeId(1000)) {
        return false;
    }
    if types.has_class(ClassId(1000)) {
        return false;
    }
    true
}

fn knows_fields(types: &Types, fields: &[Field]) -> bool
    ensures { result ≡ true → (i : ℕ) (f : Field) → slice_get fields.now i ≡ Some f → f.ty.0 < length types.now.rows }
{
    for field in fields {
        if !types.has_type(field.ty) {
            return false;
        }
    }
    true
}

fn knows_bases(types: &Types, bases: &[ClassId]) -> bool
    ensures { result ≡ true → (i : ℕ) (c : ClassId) → slice_get bases.now i ≡ Some c → c.0 < length types.now.classes }
{
    for base in bases {
        if !types.has_class(*base) {
            return false;
        }
    }
    true
}

fn have_no_slots(types: &Types, bases: &[ClassId]) -> bool
    ensures { result ≡ true → sum (map (slot_count types.now) bases.now) ≡ 0 }
{
    for base in bases {
        if !types.has_class(*base) {
            return false;
        }
        if types.slots(*base) != 0 {
            return false;
        }
    }
    true
}

/// A union has no bases ([class.union]).
#[tactic(auto, using(crate::proofs::Lists::empty_list))]
fn is_alone(key: ClassKey, body: &ClassBody) -> bool
    ensures { result ≡ true → key ≡ ClassKey.Union → body.now.bases ≡ [] }
{
    match key {
        ClassKey::Union => body.bases.len() == 0,
        ClassKey::Struct => true,
        ClassKey::Class => true,
    }
}

/// A union has no bases, and no class here has virtual functions.
fn fits(types: &Types, key: ClassKey, body: &ClassBody) -> bool
    ensures { result ≡ true → IsFit types.now key body.now }
{
    if !is_alone(key, body) {
        return false;
    }
    if types.needs_virtual(body) {
        return false;
    }
    true
}

fn fits_class(types: &Types, class: ClassId, body: &ClassBody) -> bool
    ensures { result ≡ true → FitsClass types.now (slice_get types.now.classes class.0) body.now }
{
    if !types.has_class(class) {
        return false;
    }
    let key = types.key(class);
    if !fits(types, key, body) {
        return false;
    }
    true
}

fn may_complete(types: &Types, class: ClassId, body: &ClassBody) -> bool
    ensures known { result ≡ true → IsKnownBody types.now body.now }
    ensures slots { result ≡ true → base_slots types.now body.now ≤ length body.now.slots }
    ensures fits { result ≡ true → FitsClass types.now (slice_get types.now.classes class.0) body.now }
{
    knows_bases(types, body.bases.as_slice())
        && knows_fields(types, body.fields.as_slice())
        && have_no_slots(types, body.bases.as_slice())
        && fits_class(types, class, body)
}
