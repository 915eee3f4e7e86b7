//! The signature of a node.

use crate::kind_list::KindList;

/// What a node's value can be, and how else it may complete. Want of memory aside, it completes in
/// no other way.
#[derive(Clone, Debug, Drop, PartialEq, Eq)]
pub struct Sig {
    /// The kinds of the value's data; none where the node never has a value.
    pub value: Option<KindList>,
    /// Whether it may end by an error. Clear says that it never does.
    pub may_error: bool,
    /// Whether it may end by stopped. Clear says that it never does.
    pub may_stop: bool,
}
