use cx_slots::SlotView;
use cx_state::{Birth, Kind};
use cx_types::TypeId;

/// An object: its type, or the array of so many of it, how it came to be, and the number of its descriptor.
#[derive(Drop)]
pub struct Block {
    pub ty: TypeId,
    pub length: Option<u32>,
    pub kind: Kind,
    pub konst: bool,
    pub birth: Birth,
    pub released: bool,
    /// Whether its cells count ([implimits]).
    pub counted: bool,
    pub cells: u32,
    pub desc: u32,
    /// Whether its slots are kept: not where it was made `Opaque`, nor once it is released.
    pub kept: bool,
    pub slots: Vec<SlotView>,
}
