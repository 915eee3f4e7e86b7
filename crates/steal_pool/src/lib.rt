//! Workers of the pool: each takes nodes that are ready in the pool, on a hand of its own, and goes
//! on with what it takes.
//!
//! It stands on node_walks, by which a hand serves a node, on pool_backends and deck_relay, which
//! keep names for it, on loop_queue, by which it tells the loop what is ready there, and on
//! count_scope, whose scope tells it when to stop. It keeps one promise: it says that it took a
//! node only where its hand took it and the stepper stepped it, that it is idle only where it read
//! each node of the table but the roots as not ready in the pool, and it serves until it reads that
//! the scope is joined.
//!
//!     backend, deck --next--> a name --take--> go_on: the worker took it
//!        ^                       |
//!        |                       +--another was first: the next name
//!        +--submit-- a look at each place --none is ready--> Idle --is_joined--> the worker ends
//!
//! A name is a hint, so a backend need not be lawful: the node's word decides who takes it. Workers
//! don't meet but at words of the table and by their decks, and nothing of a run rests on those.
//! Whoever has workers arranges their backends before they begin, and none can be arranged anew:
//!
//!     backends --Arrangement::of--> Arrangement --give--> Arranged, in that order for good
//!                                        |
//!                                        +--end--> Given: that order, and how many were given out
//!
//! A worker with a desk sleeps where it found nothing, by a vigil of sleepers: before it sleeps it
//! lies down, and looks at each place once more. Without a desk it lets other threads run.
#![tactic(auto)]

mod arranged;
mod arrangement;
mod given;
mod resting;
mod searching;
mod serving;
mod taking;
mod worker;
mod worker_mail;
mod working;

pub use arranged::Arranged;
pub use arrangement::Arrangement;
pub use deck_relay::Desk;
pub use exec_recv::{Item, Stepper};
pub use given::Given;
pub use pool_backends::{Backend, Order};
pub use worker::Worker;
pub use working::Worked;
