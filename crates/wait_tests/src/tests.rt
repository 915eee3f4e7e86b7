//! The tests, by what they use, and the names that they share.
mod backends;
mod decks;
mod queues;
mod sleeping;
mod vigils;

use life_rules::Name;

// Some node of this number.
fn name(node: u32) -> Name {
    Name {
        block: 1,
        generation: 3,
        node,
    }
}
