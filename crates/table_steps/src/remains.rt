//! What the words of a closed table tell.

use life_rules::ScopeState;

/// In which state a closed table's scope was left, and how many of its blocks were free and how
/// many retired. All others were open still.
#[derive(Clone, Copy, Debug, PartialEq, Eq)]
pub struct Remains {
    pub scope: ScopeState,
    pub free: u32,
    pub retired: u32,
}
