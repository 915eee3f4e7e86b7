//! A crew.

use pool_backends::{Backend, Order};

/// The workers of one run: how many, the order in which their backends hand out names, and the
/// backends, of which worker w uses member w. All backends are dropped by the end of the run.
#[derive(Drop)]
pub struct Crew {
    pub workers: u32,
    /// Hand 0 helps them, where nothing is ready for it alone.
    pub helps: bool,
    pub order: Order,
    pub backends: Vec<Box<dyn Backend + Send>>,
}
