//! A backend of fixed room: its order, and what it hands back.

use crate::tests::name;
use pool_backends::{Backend, Order, RingBackend};
use std::test::Fail;

#[test]
fn a_full_ring_hands_back_the_next_name(rt: HostRuntime) -> Result<(), Fail> {
    let mut ring = RingBackend::new(rt.alloc(), 2)?;
    assert!(rt; ring.submit(name(1)).is_ok() && ring.submit(name(2)).is_ok());
    assert!(rt; ring.submit(name(3)) == Err(name(3)));
    assert!(rt; ring.next() == Some(name(1)));
    assert!(rt; ring.submit(name(4)).is_ok());
    Ok(())
}

#[test]
fn names_go_out_in_the_order_that_was_set_last(rt: HostRuntime) -> Result<(), Fail> {
    for (order, first, next) in [(Order::Fifo, 1, 2), (Order::Lifo, 2, 1)] {
        let mut boxed: Box<dyn Backend + Send> = Box::new(
            rt.alloc(),
            RingBackend::new(rt.alloc(), 2)?,
        )?;
        boxed.arrange(order);
        assert!(rt; boxed.submit(name(1)).is_ok() && boxed.submit(name(2)).is_ok());
        assert!(rt; boxed.next() == Some(name(first)));
        assert!(rt; boxed.next() == Some(name(next)));
        assert!(rt; boxed.next() == None);
    }
    Ok(())
}
