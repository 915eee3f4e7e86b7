//! The items of these operations, with their starts.
ghost use Rattle.std.specs.Prelude.{◌≡◌, true, []};
ghost use Rattle.table_use.specs.Starts.{value_of, is_done, start_of, Ends, Fits, least_of, key_of};

use op_slot::Cargo;

/// The plain data of one node of a start.
pub struct Entry {
    pub node: u32,
    /// The number of the record that the operation is for.
    pub number: u32,
    /// What the table was opened over.
    pub step: u32,
}

/// What a node was started with.
#[derive(Clone, Copy, Debug, PartialEq, Eq)]
pub struct Env {
    pub node: u32,
    pub number: u32,
    pub step: u32,
}

/// What lies in a home.
#[derive(Drop)]
pub enum Item {
    /// The node goes on: it starts, or waits for its children.
    Going(Env),
    /// It keeps what its child delivered.
    Kept(Env, u64),
    /// It completed with this value.
    Done(Env, u64),
    /// It failed, and had seen no request.
    Failed(Env),
}

impl Cargo for Item {
    type Entry = Entry;

    type Over = u32;

    ghost start = { start_of };

    ghost ends = { Ends };

    ghost fits = { Fits };

    ghost least = { least_of };

    ghost rests = { λ _ _. Unit {0} };

    ghost key = { key_of };

    ghost lot = { λ _. [] };

    ghost drawn = { λ _. [] };

    ghost widens = { λ _ _ fits. fits };

    ghost blames = { λ _ _ _ _ _ fits. fits };
}

/// What a child delivered that didn't fail.
pub(crate) fn delivered(item: Item) -> u64
    requires { is_done item ≡ true }
    ensures { result ≡ value_of item }
{
    match item {
        Item::Done(_, value) => value,
        Item::Going(_) | Item::Kept(_, _) | Item::Failed(_) => unreachable!(),
    }
}
