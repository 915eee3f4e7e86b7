//! Lists of kinds, one after the other.
ghost use Rattle.std.specs.Prelude.{◌≡◌, ◌++◌, Some};
ghost use Rattle.plan_kinds.specs.Shapes.{Shape, appended, joined};
ghost use Rattle.plan_kinds.specs.Values.{shapes_of};
ghost use Rattle.sig_check.specs.Joints.{joint_of};

use crate::shapes::append;
use exec_value::DATA;
use plan_kinds::{KindList, Sig};

/// What several values are, one after the other.
#[derive(Drop)]
pub(crate) enum Joint {
    /// One of them is never a value.
    Never,
    /// These kinds.
    Kinds(KindList),
    /// More kinds than a value may have data.
    TooMany,
}

/// The values of these signatures, one after the other.
pub(crate) fn joined(sigs: &[Sig]) -> Joint
    ensures { result ≡ joint_of (joined (shapes_of sigs.now)) }
{
    let mut joint = Joint::Kinds(KindList::empty());
    for sig in sigs {
        joint = join(joint, &sig.value);
    }
    joint
}

/// The values so far and one more.
fn join(front: Joint, shape: &Option<KindList>) -> Joint
    ensures { (so_far : Shape) → front ≡ joint_of so_far
        → result ≡ joint_of (appended so_far shape.now) }
{
    match (front, shape) {
        (Joint::Never, _) | (_, None) => Joint::Never,
        (Joint::TooMany, Some(_)) => Joint::TooMany,
        (Joint::Kinds(list), Some(kinds)) => extended(list, kinds),
    }
}

/// A list and another behind it.
fn extended(mut list: KindList, kinds: &KindList) -> Joint
    ensures { result ≡ joint_of (Some (list ++ kinds.now)) }
{
    if list.as_slice().len() + kinds.as_slice().len() > DATA {
        return Joint::TooMany;
    }
    append(&mut list, kinds.as_slice());
    Joint::Kinds(list)
}
