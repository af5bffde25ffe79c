use cx_ints::Int;

/// How an object came to be, and so how long its storage lasts ([basic.stc], [class.temporary], [expr.new]).
#[derive(Clone, Copy, Debug, PartialEq, Eq)]
pub enum Kind {
    Static,
    Auto,
    Temp,
    Heap,
    /// An array that a new-expression made.
    HeapArray,
    /// A string literal ([lex.string]).
    Literal,
}

/// When an object was made, as the constant expression at hand sees it ([expr.const]).
#[derive(Clone, Copy, Debug, PartialEq, Eq)]
pub enum Birth {
    /// Within the evaluation at hand: it may be read and written.
    Here,
    /// Before, and usable in constant expressions: it may be read.
    Usable,
    /// Before, and not usable: it has an address alone.
    Opaque,
}

/// How far the life of a class object has come ([class.base.init], [class.dtor], [class.cdtor]).
#[derive(Clone, Copy, Debug, PartialEq, Eq)]
pub enum Phase {
    Unborn,
    /// Its bases are being made.
    Bases,
    /// Its members are being made, or the constructor's body runs.
    Body,
    Alive,
    /// The destructor's body runs, or its members are being unmade.
    Ending,
    /// Its bases are being unmade.
    EndingBases,
    Ended,
}

/// What a scalar or reference holds, with P for the places of objects ([basic.types.general], [basic.indet]).
#[derive(Clone, Copy, Debug, PartialEq, Eq)]
pub enum Scalar<P> {
    Int(Int),
    Null,
    Place(P),
    Indeterminate,
}
