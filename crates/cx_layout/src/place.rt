/// A part of an object, or the place past it: the object's number, the part's first cell and its node, and whether it is
/// the place past the part ([basic.compound]).
#[derive(Clone, Copy, Debug, PartialEq, Eq)]
pub struct Place {
    pub block: u32,
    pub slot: u32,
    pub node: u32,
    pub past: bool,
}
