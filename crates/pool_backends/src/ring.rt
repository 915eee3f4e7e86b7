//! A backend of fixed room.
ghost use Rattle.std.specs.Prelude.{◌≡◌, true, IfOk};
ghost use Rattle.pool_backends.specs.Rings.{IsNewRing};

use crate::backend::Backend;
use crate::order::Order;
use circular_buffer::HeapCircularBuffer;
use life_rules::Name;
use std::alloc::{AllocError, Global};

/// A lawful backend over a ring of names. No call after `new` wants memory.
#[derive(Drop)]
pub struct RingBackend {
    names: HeapCircularBuffer<Name>,
    order: Order,
}

impl RingBackend {
    /// A ring without names, with room for so many, arranged Fifo. It fails only for want of
    /// memory.
    pub fn new(alloc: Global, capacity: u32) -> Result<RingBackend, AllocError>
        ensures { IfOk result (IsNewRing capacity) }
    {
        let names = HeapCircularBuffer::with_capacity(alloc, capacity as usize)?;
        Ok(RingBackend {
            names,
            order: Order::Fifo,
        })
    }
}

impl Backend for RingBackend {
    ghost use Rattle.pool_backends.specs.Rings.{stock_of};

    ghost stock = { stock_of };

    ghost lawful = { λ _. true };

    fn arrange(&mut self, order: Order) {
        self.order = order;
    }

    fn submit(&mut self, name: Name) -> Result<(), Name> {
        self.names.try_push_back(name)
    }

    fn next(&mut self) -> Option<Name> {
        match self.order {
            Order::Fifo => self.names.pop_front(),
            Order::Lifo => self.names.pop_back(),
        }
    }
}
