//! What an arrangement tells at its end.
use pool_backends::Order;

/// So many backends of so many that were handed in were given out, each arranged in this order.
/// Only the end of an arrangement gives one.
#[derive(Clone, Copy, Debug)]
pub struct Given {
    pub(crate) order: Order,
    pub(crate) asked: usize,
    pub(crate) given: usize,
}
