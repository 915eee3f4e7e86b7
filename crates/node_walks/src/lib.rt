//! How a hand takes a node that is ready, and how an operation is started and ended by its root.
//!
//! It stands on exec_recv, whose steps it makes, and on op_slot, whose blocks, homes and exchanges
//! it uses. It keeps three promises. A hand that had one node to step and nothing besides has
//! nothing left afterwards, and all else that its view says is as it was, but for requests that it
//! has seen and the list of its steps. A node is served only where this hand took it and the
//! stepper stepped it, and is passed over only where its word, read at a step of the call, said
//! something else. What an operation ends with is want of memory, or is allowed for the start that
//! its hand noted when the root began, and the operation saw a stop request only where the scope's
//! request stands.
//!
//! Going on after a step, until the hand is at rest:
//!
//!     go_on(x) --step--> Go(y) ----------------------> step of y
//!                 |----> Ready(on), to the mail --+
//!                 +----> Rest, Parked ------------+--owed, begin--> step of what it owed
//!                 |                               +--owes nothing-> at rest
//!     go_after ---+
//!
//! Serving a node that may be ready:
//!
//!     serve(name) ---take wins---> go_on: the node was stepped, the hand is at rest
//!              |-----take loses--> false: the word was another
//!
//!     serve_place(block, node) --ready_at--> None: it isn't ready there
//!                        ^         |
//!                        |         +--> a name --serve--> Some(name), or a look again
//!                        +-----------------------------------------------+
//!
//! Starting and ending an operation. The hand notes the start of each root that it begins, and
//! forgets it when it gives the block back:
//!
//!     env --claim_from--> a block --put_home, begin--> its root has begun --go_on--> at rest
//!      |                                                                               |
//!      +--none is free: the environment comes back                                     |
//!                                                                                      |
//!     Ended <--release-- finished <--take_home, finish-- taken <--take-- ready in the loop
//!
//! The loop, the workers of the pool and futures go on, serve and end in these ways. `go_after` is
//! for a step that was made without a stepper.
#![tactic(auto)]

mod completing;
mod emptying;
mod ending;
mod mail;
mod serving;
mod starting;
mod walking;

pub use completing::{Collected, Ended};
pub use ending::end_root;
pub use exec_recv::{Env, Gate, Item, Next, Stepper};
pub use mail::{Mail, ReadyNode};
pub use op_slot::{Block, Hand, OpTable};
pub use serving::{serve, serve_place};
pub use starting::begin_root;
pub use walking::{go_after, go_on};
