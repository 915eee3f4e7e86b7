//! What a program reads and writes: texts by name on a shelf, and the bytes of a source and a sink.
//!
//! Each is a trait that may tell what it holds, and that counts its faults. A shelf may also tell
//! which names it was asked for. Code that is generic over it can't raise that count, so `Failed`
//! is answered only where the count rose in the call. The objects in memory fail at the calls that
//! they are told to. `put_bytes` writes bytes whole, or a front of them where a write failed. It
//! stands on no crate.
#![tactic(auto)]

mod asked;
mod calls;
mod fault;
mod mem_shelf;
mod mem_sink;
mod mem_source;
mod never_fails;
mod put;
mod shelf;
mod sink;
mod source;

pub use fault::{Failed, ShelfFault};
pub use mem_shelf::MemShelf;
pub use mem_sink::MemSink;
pub use mem_source::MemSource;
pub use never_fails::{NeverFails, Steady};
pub use put::put_bytes;
pub use shelf::Shelf;
pub use sink::Sink;
pub use source::Source;
