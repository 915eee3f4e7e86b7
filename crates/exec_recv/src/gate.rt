//! What a step passes on its way.
use life_rules::Name;
use op_slot::Block;
use plan_rules::NodeId;

/// A point that the program passes on its way, just before what it names.
#[derive(Clone, Copy, Debug, PartialEq, Eq)]
pub enum Point {
    /// A node's job runs for the record of this number.
    Job { number: u32, node: NodeId },
    /// A callback was claimed to run: its action comes next.
    Run(Name),
    /// A callback is removed.
    Withdraw(Name),
    /// A child is reported to its parent.
    Report(Name),
    /// A block is given back.
    Release(Block),
    /// A node that is ready is taken.
    Take(Name),
}

/// What is passed at each point. It changes nothing; a test holds a hand there.
pub trait Gate {
    fn pass(&self, point: Point);
}

/// A gate that holds nobody.
#[derive(Clone, Copy, Debug, Drop)]
pub struct OpenGate;

impl Gate for OpenGate {
    fn pass(&self, _point: Point) {}
}
