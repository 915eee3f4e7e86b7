//! The plain data of a start.
use exec_value::{Data, Nums};
use plan_rules::NodeId;
use plan_shape::Plan;

/// One node's part of a start. No value of it is made; contracts read lists of them: the node's
/// entry first, and then its parent's start.
pub struct Entry {
    pub plan: Plan,
    /// The receiver node has the number after the plan's root.
    pub node: NodeId,
    /// The arguments of the receiver's environment ([exec.get.env]); of a part of a bulk its share,
    /// and the index of the first number of that.
    pub args: Data,
    /// The record's number.
    pub number: u32,
    /// Whether the scope's request was made before the operation was started.
    pub asked: bool,
    /// The whole row, where the node is a part of a bulk; else nothing.
    pub whole: Nums,
    /// The child that the operation runs, in a start of the receiver node; else none.
    pub child: Option<NodeId>,
}
