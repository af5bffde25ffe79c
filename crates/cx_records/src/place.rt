/// Whether a place is that of an object or one past an end ([basic.compound]).
#[derive(Clone, Copy, Debug, PartialEq, Eq)]
pub enum End {
    /// The object itself.
    At,
    /// The place past an object that is no element of an array.
    Past,
    /// The place past the last element of the array.
    Last,
}

/// A place: the number of an object, and the number of a part of it, itself 0 and all elements and members counted.
#[derive(Clone, Copy, Debug, PartialEq, Eq)]
pub struct Place {
    pub object: u32,
    pub part: u64,
    pub end: End,
}
