//! The entries of traces and schedules.

use life_rules::Event;

/// An entry of a trace: the hand, and what it does.
#[derive(Debug, Drop)]
pub struct Entry {
    pub hand: u32,
    pub event: Event,
}

/// An entry of a schedule: the hand, and which of the steps that it may take it takes. The number
/// counts round and round through them.
#[derive(Clone, Copy, Debug, PartialEq, Eq)]
pub struct Choice {
    pub hand: u32,
    pub choice: u32,
}
