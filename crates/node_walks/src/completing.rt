//! What an operation completed with, by what lay in the home of its root.
ghost use Rattle.std.specs.Prelude.{◌≡◌, false, Some};
ghost use Rattle.home_items.specs.Contents.{Rest};
ghost use Rattle.home_items.specs.Items.{start_in};
ghost use Rattle.exec_value.specs.declared.outcome.Completion.TheVariants.{NoMemory};
ghost use Rattle.node_walks.specs.Completes.{IsOfRoot, CompletesAs};

use exec_recv::{Env, Item, Parcel};
use exec_value::Completion;
use home_items::collected_is_allowed;

/// What an operation completed with.
#[derive(Drop)]
pub struct Collected {
    /// The number of the record that it was for.
    pub number: u32,
    pub completion: Completion,
    /// Whether it saw a stop request on the scope's source.
    pub saw: bool,
}

/// An operation that was ended.
#[derive(Drop)]
pub struct Ended {
    /// The environment with which it was started.
    pub env: Env,
    pub collected: Collected,
}

// The operation of this record had no memory to start its child.
#[inline(always)]
fn want_of_memory(number: u32) -> Collected
    ensures number { result.number ≡ number }
    ensures completion { result.completion ≡ NoMemory }
    ensures saw { result.saw ≡ false }
{
    Collected {
        number,
        completion: Completion::NoMemory,
        saw: false,
    }
}

// With its child's parcel a root completes as its child did.
#[inline(always)]
fn as_child(env: &Env, parcel: Parcel) -> Collected
    requires root { IsOfRoot (Rest env.now (Some parcel)) }
    ensures { CompletesAs (Rest env.now (Some parcel)) result }
{
    collected_is_allowed();
    parcel.known();
    let saw = parcel.saw();
    Collected {
        number: env.number(),
        completion: parcel.into_completion(),
        saw,
    }
}

/// What the item of a root completes the operation with. A root that keeps no parcel of its child
/// had no memory to start it.
#[inline(always)]
pub(crate) fn completed(item: Item) -> Ended
    requires root { IsOfRoot item }
    ensures env { result.env ≡ start_in item }
    ensures completes { CompletesAs item result.collected }
{
    let (env, kept) = item.open();
    match kept {
        Some(parcel) => {
            let collected = as_child(&env, parcel);
            Ended { env, collected }
        }
        None => {
            let collected = want_of_memory(env.number());
            Ended { env, collected }
        }
    }
}
