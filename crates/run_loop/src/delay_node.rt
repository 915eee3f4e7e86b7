//! What a loop keeps of the plan's delays.

/// A delay of the plan: its node, and how many turns it waits.
#[derive(Clone, Copy, Debug, PartialEq, Eq)]
pub struct DelayNode {
    pub node: u32,
    pub turns: u32,
}
