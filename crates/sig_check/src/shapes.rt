//! Shapes: what values can be, either never a value or data of one list of kinds.
ghost use Rattle.std.specs.Prelude.{◌≡◌, ◌+◌, ◌<◌, ◌≤◌, [], ◌∷◌, ◌++◌, length};
ghost use Rattle.exec_value.specs.declared.limits.TheConstants.{DATA};
ghost use Rattle.plan_kinds.specs.Shapes.{agrees, common, all_agree};
ghost use Rattle.plan_kinds.specs.Values.{only, shapes_of};

use exec_value::Kind;
use plan_kinds::{KindList, Sig};

/// The list of one kind.
pub(crate) fn one(kind: Kind) -> KindList
    ensures { result ≡ kind ∷ [] }
{
    let mut list = KindList::empty();
    list.push(kind);
    list
}

/// Appends kinds.
pub(crate) fn append(list: &mut KindList, kinds: &[Kind])
    requires { length list.old + length kinds.now ≤ DATA }
    ensures { list.new ≡ list.old ++ kinds.now }
{
    for kind in kinds {
        list.push(*kind);
    }
}

/// The list of these kinds.
pub(crate) fn list_of(kinds: &[Kind]) -> KindList
    requires { length kinds.now ≤ DATA }
    ensures { result ≡ kinds.now }
{
    let mut list = KindList::empty();
    append(&mut list, kinds);
    list
}

/// An equal shape.
pub(crate) fn copy(shape: &Option<KindList>) -> Option<KindList>
    ensures { result ≡ shape.now }
{
    match shape {
        Some(kinds) => Some(list_of(kinds.as_slice())),
        None => None,
    }
}

/// The signature of the one child.
pub(crate) fn only(own: &[Sig]) -> &Sig
    requires { length own.now ≡ 1 }
    ensures { result.now ≡ only own.now }
{
    &own[0]
}

/// Whether one of the two is never a value, or both lists are equal.
pub fn agrees(first: &Option<KindList>, second: &Option<KindList>) -> bool
    ensures { result ≡ agrees first.now second.now }
{
    match (first, second) {
        (Some(first), Some(second)) => first == second,
        _ => true,
    }
}

/// Of this shape and those of these values, the first that isn't never.
pub(crate) fn common<'a>(front: &'a Option<KindList>, behind: &'a [Sig]) -> &'a Option<KindList>
    ensures { result.now ≡ common (front.now ∷ shapes_of behind.now) }
{
    if front.is_some() {
        return front;
    }
    for sig in behind {
        if sig.value.is_some() {
            return &sig.value;
        }
    }
    front
}

/// Whether this shape and those of these values agree.
pub(crate) fn all_agree(front: &Option<KindList>, behind: &[Sig]) -> bool
    ensures { result ≡ all_agree (front.now ∷ shapes_of behind.now) }
{
    let joint = common(front, behind);
    agrees(joint, front) && behind.iter().all(|sig| agrees(joint, &sig.value))
}
