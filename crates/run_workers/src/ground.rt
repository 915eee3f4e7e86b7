//! Where hand 0 and the workers of a run work.

use exec_recv::Item;
use op_slot::OpTable;
use std::alloc::Global;

/// Where hand 0 and the workers of a run work: what they run on, the table, and what steps its
/// nodes. Each of them makes a site of it for its own steps.
#[derive(Drop)]
pub struct Ground<'a, T, R> {
    pub rt: &'a R,
    pub alloc: Global,
    pub table: &'a OpTable<Item>,
    pub stepper: &'a T,
}
