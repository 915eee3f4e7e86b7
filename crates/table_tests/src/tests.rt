//! The tests, by what they use, and what they share.

mod crowd;
mod failures;
mod names;
mod opening;
mod operations;
mod pairs;
mod refusals;
mod states;
mod stops;
mod table;
mod words;

// What went otherwise than it should. Unlike a `Fail` a thread may drop it.
#[derive(Clone, Copy, Debug)]
struct Wrong(&'static str);
