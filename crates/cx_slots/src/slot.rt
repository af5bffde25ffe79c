use cx_layout::Place;
use cx_state::{Phase, Scalar};

/// What a slot shows: the value of a scalar or reference, how far the life of a class has come, or the active member of a
/// union, if it has one ([basic.life], [class.union]).
#[derive(Clone, Copy, Debug, PartialEq, Eq)]
pub enum SlotView {
    Value(Scalar<Place>),
    Phase(Phase),
    Active(Option<u32>),
}
