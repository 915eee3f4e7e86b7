//! Blocks and homes: how a hand gets the room of an operation, fills and empties homes, and gives
//! it back.
//!
//! It stands on op_table, whose steps it makes. It keeps one promise: an item that is taken from a
//! home is the one that was put there, and a block that was given back is used by nobody any more.
//!
//!     claim_any, claim_from --> put_home --> begin .. take_home --> finish --> release
//!
//! Between any two of these the table's rule holds. No call takes memory or a lock, and none waits.
#![tactic(auto)]

mod blocks;
mod homes;

pub use blocks::{claim_any, claim_from, release};
pub use homes::{put_home, take_home};
pub use op_table::{Block, Cargo, Hand, OpTable};
