//! What the list keeps of a delay, and what it answers of one.

/// A delay that was seen parked.
#[derive(Clone, Copy, Debug, PartialEq, Eq)]
pub struct Waiting {
    /// The generation of its place.
    pub generation: u32,
    /// The turn in which it was first seen.
    pub since: u64,
    /// The turns that it waits from there on.
    pub turns: u32,
}

/// A delay that is due: its place, and the generation at which it was seen there.
#[derive(Clone, Copy, Debug, PartialEq, Eq)]
pub struct DueDelay {
    pub place: u32,
    pub generation: u32,
}
