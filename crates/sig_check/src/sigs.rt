//! The signatures of a plan.
ghost use Rattle.std.specs.Prelude.{◌≡◌, ◌<◌, Some, length, slice_get};

use plan_kinds::Sig;
use plan_rules::NodeId;
use std::marker::Model;

/// The signatures of a plan's nodes, seen as a list by the nodes' numbers.
#[derive(Debug, Drop)]
pub struct Sigs {
    sigs: Vec<Sig>,
}

impl Model for Sigs {
    ghost use Rattle.std.specs.Prelude.{List};
    ghost use Rattle.plan_kinds.specs.declared.sig.Sig.{Sig};

    ghost Value = { List Sig };

    ghost view = { λ all. all.sigs.items };
}

impl Sigs {
    /// These signatures.
    pub(crate) fn new(sigs: Vec<Sig>) -> Sigs
        ensures { result ≡ sigs.items }
    {
        Sigs { sigs }
    }

    /// The signature of this node, under the arguments that it runs under.
    pub fn of(&self, node: NodeId) -> &Sig
        requires { node < length self.now }
        ensures { slice_get self.now node ≡ Some result.now }
    {
        &self.sigs[node as usize]
    }
}
