//! Lists of kinds.
ghost use Rattle.std.specs.Prelude.{◌≡◌, ◌+◌, ◌<◌, ◌≤◌, List, [], ◌∷◌, ◌++◌, length, take};
ghost use Rattle.exec_value.specs.declared.limits.TheConstants.{DATA};

use exec_value::{DATA, Kind};
use std::alloc::AllocError;
use std::marker::Model;

/// A list of at most 64 kinds, as many as a value may have data. It takes no memory.
#[derive(Debug, Drop)]
pub struct KindList {
    kinds: [Kind; DATA],
    len: usize,
}

impl Model for KindList {
    ghost use Rattle.std.specs.Prelude.{◌≤◌, List, take};
    ghost use Rattle.exec_value.specs.declared.limits.TheConstants.{DATA};
    ghost use Rattle.exec_value.specs.declared.kinds.Kind.{Kind};

    ghost Value = { List Kind };

    ghost view = { λ list. take list.len list.kinds };

    ghost invariant = { λ list. list.len ≤ DATA };
}

impl KindList {
    /// The list of no kinds.
    pub fn empty() -> KindList
        ensures { result ≡ [] }
    {
        KindList {
            kinds: [Kind::Int; DATA],
            len: 0,
        }
    }

    /// Appends a kind.
    pub fn push(&mut self, kind: Kind)
        requires { length self.old < DATA }
        ensures { self.new ≡ self.old ++ kind ∷ [] }
    {
        self.kinds[self.len] = kind;
        self.len += 1;
    }

    /// The kinds, in order.
    pub fn as_slice(&self) -> &[Kind]
        ensures kinds { result.now ≡ self.now }
        ensures few { length self.now ≤ DATA }
    {
        &self.kinds[..self.len]
    }
}

impl Clone for KindList {
    ghost is_clone = { λ kinds copy. copy ≡ kinds };

    ghost is_infallible = { λ kinds. Unit {0} };

    fn clone(&self) -> Result<Self, AllocError> {
        Ok(KindList {
            kinds: self.kinds,
            len: self.len,
        })
    }
}

impl PartialEq for KindList {
    ghost use Rattle.std.specs.Cmp.{partial_equiv_from_equiv};
    ghost use Rattle.std.specs.Cmp.Lexicographic.{lists_per};
    ghost use Rattle.plan_kinds.specs.Equal.{same_kinds, kind_equiv};

    ghost eq = { same_kinds };

    ghost laws = { lists_per (partial_equiv_from_equiv kind_equiv) };

    fn eq(&self, other: &Self) -> bool {
        self.as_slice() == other.as_slice()
    }
}

impl Eq for KindList {
    ghost use Rattle.std.specs.Cmp.Lexicographic.{lists_equiv};
    ghost use Rattle.plan_kinds.specs.Equal.{kind_equiv};

    ghost laws = { lists_equiv kind_equiv };
}
