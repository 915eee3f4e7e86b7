//! One future.
ghost use Rattle.std.specs.Prelude.{◌≡◌, true};
ghost use Rattle.spawn_future.specs.Slots.{is_waited};

use crate::naming::is_same;
use count_scope::Association;
use life_rules::Name;
use op_slot::Block;

/// An operation that was started for its owner and isn't ended: its block, and its association with
/// the scope. It has no drop: the association is given back.
pub struct Future {
    pub(crate) owner: Name,
    pub(crate) block: Block,
    pub(crate) association: Association,
    /// Nobody polls it any more.
    pub(crate) abandoned: bool,
}

impl Future {
    /// Whether the owner waits for it: it is the owner's, and isn't abandoned.
    pub(crate) fn is_waited(&self, owner: Name) -> bool
        ensures { result ≡ is_waited owner self.now }
    {
        !self.abandoned && is_same(self.owner, owner)
    }

    /// Its association.
    pub(crate) fn into_association(self) -> Association
        ensures { result ≡ self.association }
    {
        let Future {
            owner: _,
            block: _,
            association,
            abandoned: _,
        } = self;
        association
    }

    /// The same, abandoned.
    pub(crate) fn into_abandoned(self) -> Future
        ensures { result ≡ record self { abandoned = true } }
    {
        let Future {
            owner,
            block,
            association,
            abandoned: _,
        } = self;
        Future {
            owner,
            block,
            association,
            abandoned: true,
        }
    }
}
