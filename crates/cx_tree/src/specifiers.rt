//! Specifiers, and what stands between them and a name ([dcl.spec], [dcl.decl]).

use crate::names::TypeName;
use cx_base::{List, Span};

/// A class key ([class.pre]).
#[derive(Clone, Copy, Debug, PartialEq, Eq)]
pub enum ClassKey {
    Struct,
    Class,
    Union,
}

/// The word before a type's name ([dcl.type.elab]).
#[derive(Clone, Copy, Debug, PartialEq, Eq)]
pub enum Elaboration {
    Class(ClassKey),
    Enum,
}

/// A word that names no type ([dcl.spec]).
#[derive(Clone, Copy, Debug, PartialEq, Eq)]
pub enum ModifierWord {
    Constexpr,
    Consteval,
    Constinit,
    Inline,
    Static,
    Extern,
    Virtual,
    Explicit,
    Const,
}

/// Such a word where it stands.
#[derive(Clone, Copy, Debug, PartialEq, Eq)]
pub struct Modifier {
    pub word: ModifierWord,
    pub span: Span,
}

/// A word of a fundamental type, or `auto` ([dcl.type.simple]).
#[derive(Clone, Copy, Debug, PartialEq, Eq)]
pub enum TypeWord {
    Void,
    Bool,
    Char,
    Short,
    Int,
    Long,
    Signed,
    Unsigned,
    Auto,
}

/// A fundamental type's word where it stands ([dcl.type.simple]).
#[derive(Clone, Copy)]
pub struct SimpleType {
    pub word: TypeWord,
    pub span: Span,
}

/// A word behind the first word of a type.
#[derive(Clone, Copy, Debug, PartialEq, Eq)]
pub enum WordOrModifier {
    Word(TypeWord),
    Modifier(Modifier),
}

/// A type that is named.
#[derive(Drop)]
pub struct Named {
    pub word: Option<Elaboration>,
    pub name: TypeName,
}

/// The type among specifiers.
#[derive(Drop)]
pub enum SpecsType {
    Missing,
    /// The first word, and the words and modifiers behind it.
    Words(TypeWord, List<WordOrModifier>),
    /// The name, and the modifiers behind it.
    Named(Named, List<Modifier>),
}

/// Specifiers, at least one.
#[derive(Drop)]
pub struct Specs {
    /// The modifiers before the type.
    pub modifiers: List<Modifier>,
    pub ty: SpecsType,
    pub span: Span,
}

/// A `*`, and whether `const` stands behind it ([dcl.ptr]).
#[derive(Clone, Copy, Debug, PartialEq, Eq)]
pub struct Star {
    pub is_const: bool,
    pub span: Span,
}

/// Pointers, and whether it is a reference to them ([dcl.ptr], [dcl.ref]).
#[derive(Drop)]
pub struct Ptrs {
    pub stars: List<Star>,
    pub is_reference: bool,
}
