//! What one hand knows. No value of these types is made; contracts read the lists.
use life_rules::{CallbackPhase, Name, SourceRef};
use listed_words::{Lists, Seen};
use std::collections::LinkedList;

/// A node that the hand holds.
pub struct Held<E> {
    pub name: Name,
    /// The start with which it began.
    pub start: LinkedList<E>,
    /// So many children its last await named.
    pub named: u32,
    /// Whether a stop was requested on the node's nearest source when the hand came to hold it.
    pub told: bool,
    /// The same of the source that its children hear.
    pub told_children: bool,
    /// What its last await fixed for its children, where their last report gave the node to the
    /// hand.
    pub lot: Option<LinkedList<i64>>,
    /// What became of its callback, as far as the hand has read it.
    pub phase: Option<CallbackPhase>,
    /// The children that the hand read as not begun.
    pub idle: LinkedList<u32>,
}

/// A node whose start the hand owes.
pub struct Owed<E> {
    pub name: Name,
    /// The start of its parent; nothing for the root.
    pub above: LinkedList<E>,
    /// What the parent's await fixed; nothing for the root.
    pub lot: LinkedList<i64>,
}

/// A node whose report to its parent the hand owes.
pub struct Reported<P, E> {
    pub name: Name,
    pub start: LinkedList<E>,
    /// The item with which it finished.
    pub item: P,
}

/// The start of the root of a block that the hand claimed.
pub struct Rooted<E> {
    pub name: Name,
    pub start: LinkedList<E>,
}

/// A scan that the hand makes.
pub struct Scanning {
    pub source: SourceRef,
    /// The number of the place from which it goes on.
    pub next: u64,
}

/// What one hand knows of its own doings, and what the rule told it at its steps.
pub struct View<P, E> {
    /// The hand's number.
    pub number: u64,
    /// So many hands were split from this one.
    pub splits: u64,
    pub held: LinkedList<Held<E>>,
    pub owed: LinkedList<Owed<E>>,
    pub reported: LinkedList<Reported<P, E>>,
    pub finished: LinkedList<Name>,
    pub noted: LinkedList<Rooted<E>>,
    /// The places whose callback it runs, the innermost first.
    pub runs: LinkedList<Name>,
    pub scans: LinkedList<Scanning>,
    /// The places that it armed and hasn't looked after yet.
    pub unlooked: LinkedList<Name>,
    /// The places after whose arming it has seen the request.
    pub seen_after: LinkedList<Name>,
    /// The sources on which it has seen the request.
    pub seen: LinkedList<SourceRef>,
    /// Its associations with the scope: made, in the making, and being refused.
    pub made: u64,
    pub making: u64,
    pub refused: u64,
    /// Whether it made the scope's request.
    pub requested: bool,
    /// So many blocks it claimed, and so many it gave back.
    pub claimed: u64,
    pub released: u64,
    /// It stands for so many hands: for itself, for those joined to it too, or for none once it was
    /// joined.
    pub hands: u64,
    /// Its steps, loads among them, the newest first: of each the word, what it read and what it
    /// left there.
    pub steps: LinkedList<Seen>,
    /// The steps of the hands that were joined to it, in the order in which they were joined.
    pub joined: LinkedList<Seen>,
}

impl<P, E> Lists for View<P, E> {
    ghost steps = { λ v. v.steps };

    ghost splits = { λ v. v.splits };
}
