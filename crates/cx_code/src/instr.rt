use crate::CellKind;
use cx_base::{List, Rule};
use cx_ints::Int;
use cx_ops::StrictOp;
use cx_state::{Kind, Phase, Root};
use cx_type_defs::{ClassId, EnumId, FuncId, TypeId, TypeKind};

/// What an operand is put on the stack of.
#[derive(Clone, Copy, Debug, PartialEq, Eq)]
pub enum Constant {
    /// [expr.prim.literal]
    Number(Int),
    /// The null value of a pointer type, or of that of `nullptr` ([conv.ptr]).
    Null(TypeKind),
    /// `is_constant_evaluated()`, false in mode `Narrow` alone.
    Evaluated,
}

/// How operands change their places.
#[derive(Clone, Copy, Debug, PartialEq, Eq)]
pub enum Shuffle {
    /// The one on top goes ([expr.context]).
    Pop,
    /// The one below so many others is put on top once more.
    Copy(u32),
    /// The two on top change places.
    Swap,
}

/// What names stand for.
#[derive(Clone, Copy, Debug, PartialEq, Eq)]
pub enum Name {
    /// Where a local of this call is ([expr.prim.id]).
    Local(Root),
    /// Where a variable, a static temporary or a string literal is that this call didn't make.
    Outside(Root, TypeKind),
    /// Where the object is that a judged expression of class type initializes.
    Result(TypeKind),
    /// The object on top becomes a local ([stmt.dcl]).
    Bind(Root),
    /// The newest local, which is this one, goes, and its object is released ([stmt.jump]).
    End(Root),
}

/// How objects come to be, and go.
#[derive(Clone, Copy, Debug, PartialEq, Eq)]
pub enum Making {
    /// A local, a parameter or a temporary: its type, how long it lasts, and whether it is const.
    Object(TypeId, Kind, bool),
    /// What `new` makes of a type ([expr.new]).
    One(TypeId),
    /// What `new` makes of a type and the length on top, with the number of elements that are initialized
    /// ([expr.new]).
    Many(TypeId, u32),
    /// The object at the place on top is released ([class.temporary]).
    Release,
    /// What a `delete` asks of its place ([expr.delete]): whether it is `delete[]`, and whether its class has a virtual
    /// destructor.
    Deletable(bool, bool),
    /// The storage that `new` made of the object at the place on top is given back.
    Free,
}

/// How a place leads to another one.
#[derive(Clone, Copy, Debug, PartialEq, Eq)]
pub enum Part {
    /// [expr.ref]
    Field(u32),
    /// A base ([conv.ptr]).
    Base(u32),
    /// [conv.array]
    Element(u32),
    /// The element of an array at the index on top.
    Index,
    /// How many elements an array has.
    Length,
    /// The object of the class that this is a base of ([expr.static.cast]).
    Outer(ClassId),
    /// The number of a union's active member, or -1 ([class.copy.ctor]).
    Which,
    /// What a member call asks of its object ([class.mfct.non.static]).
    Callable,
}

/// How what stands at a place is read and changed.
#[derive(Clone, Copy, Debug, PartialEq, Eq)]
pub enum Access {
    /// [conv.lval]
    Load,
    /// What a reference is bound to ([dcl.ref]).
    LoadReference,
    /// The value below the place is its first one ([dcl.init]).
    Init,
    /// The reference is bound to the place below it ([dcl.init.ref]).
    InitReference,
    /// The value below the place becomes its own ([expr.ass]).
    Store,
    /// The class there comes to its next phase ([class.base.init], [class.dtor]).
    Advance(Phase),
    /// A union's member becomes active, and whether with the classes in it alive ([class.union]).
    Activate(u32, bool),
    /// A union is left with no active member ([class.copy.ctor]).
    Deactivate,
}

/// What is done with pointers.
#[derive(Clone, Copy, Debug, PartialEq, Eq)]
pub enum Pointing {
    /// The pointer to the place, with the type that it points to ([expr.unary.op]).
    Address(TypeId),
    /// Where it points to ([expr.unary.op]).
    Indirect,
    /// The pointer and the number on top added, or the number taken from it ([expr.add]).
    Move(bool),
    /// How far the lower is behind the upper ([expr.add]).
    Distance,
    /// [expr.eq]
    Equal,
    /// Whether the lower is less ([expr.rel]).
    Less,
    /// The value is of another type, which only const tells from its own, or is a pointer to void ([conv.qual],
    /// [expr.const.cast], [conv.ptr]).
    Retype(TypeKind),
}

/// What a call begins.
#[derive(Clone, Copy, Debug, PartialEq, Eq)]
pub enum Called {
    /// [expr.call]
    Function(FuncId),
    /// The final overrider of a class's slot in the dynamic class of the object ([class.virtual]).
    Slot(ClassId, u32),
    /// A default member initializer that is used ([class.base.init]).
    Initializer(FuncId),
}

/// A call, with the kinds of what it takes and of what it gives.
#[derive(Debug, Drop)]
pub struct Callee {
    pub to: Called,
    pub parameters: List<CellKind>,
    pub result: Option<CellKind>,
}

/// What a step does. Operands are taken off the stack's top.
#[derive(Debug, Drop)]
pub enum Instr {
    Push(Constant),
    Shuffle(Shuffle),
    Name(Name),
    Make(Making),
    Part(Part),
    Access(Access),
    Pointing(Pointing),
    /// An operation on numbers ([expr]).
    Strict(StrictOp),
    /// The number as a value of the enumeration ([expr.static.cast]).
    ToEnum(EnumId),
    /// A full-expression begins ([intro.execution]).
    Count,
    /// What breaks a rule each time that it is reached, as `throw` ([expr.throw], [stmt.return]).
    Break(Rule),
    /// On at a place further on.
    Go(usize),
    /// On at a place further on if the number on top is 0.
    Unless(usize),
    /// Back to a place for a turn ([stmt.iter]).
    Turn(usize),
    Call(Callee),
    /// The call ends with the operand on top ([stmt.return]).
    Return,
    /// The call ends with no result ([stmt.return]).
    Leave,
}
