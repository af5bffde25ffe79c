/// The integer types, `bool` and the character types among them ([basic.fundamental]).
#[derive(Clone, Copy, Debug, PartialEq, Eq)]
pub enum IntType {
    Bool,
    Char,
    SChar,
    UChar,
    Short,
    UShort,
    Int,
    UInt,
    Long,
    ULong,
    LongLong,
    ULongLong,
}
