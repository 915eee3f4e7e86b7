//! What the workers of a crew are given.

use exec_recv::Item;
use op_slot::Hand;
use steal_pool::{Arrangement, Desk};

/// What the workers of a crew are given: a backend each of one arrangement, the spare hands of a
/// table on which they serve, and their desks.
#[derive(Drop)]
pub struct Staff {
    pub backends: Arrangement,
    pub hands: Vec<Hand<Item>>,
    pub desks: Vec<Desk>,
}
